//! A place among the octets of all groups.
ghost use Rattle.std.specs.Prelude.{◌≡◌};

/// The place of the next octet, and the bits of the group's words that have been read from there on: the low `have` of `bits`.
/// `next` is the group's first word that has not been read.
#[derive(Clone, Copy)]
pub(crate) struct Cursor {
    pub(crate) group: usize,
    pub(crate) place: u32,
    pub(crate) bits: u64,
    pub(crate) have: u32,
    pub(crate) next: u32,
}

impl Cursor {
    /// The first octet of a group.
    pub(crate) fn start(group: usize) -> Cursor
        ensures { result ≡ record { group = group; place = 0; bits = 0; have = 0; next = 0 } }
    {
        Cursor {
            group,
            place: 0,
            bits: 0,
            have: 0,
            next: 0,
        }
    }
}
