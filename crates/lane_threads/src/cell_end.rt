//! The end of a lane's ring from which its cells are taken.
ghost use Rattle.std.specs.Prelude.{◌≡◌, ◌<◌, ◌+◌, ◌++◌, ◌∷◌, [], length};
ghost use Rattle.rtrb.specs.Ring.{SameConsumer, known_items, received};

use link_params::LaneCell;
use rtrb::Consumer;

/// The end of a lane's ring from which its cells are taken, in the order in which it gave them.
#[derive(Drop)]
pub struct CellEnd {
    pub(crate) ring: Consumer<LaneCell>,
    pub(crate) known: u32,
    ghost knows: { known ≡ length (known_items ring) },
}

impl CellEnd {
    /// How many cells are known to be there: 0 at first, one less with each `pop`, and after
    /// `meet` those that were sent and not received.
    pub fn known(&self) -> u32
        ensures { result ≡ length (known_items self.now.ring) }
    {
        self.known
    }

    /// The next cell that the lane sent.
    pub fn pop(&mut self) -> LaneCell
        requires { 0 < length (known_items self.old.ring) }
        ensures next { known_items self.old.ring ≡ result ∷ known_items self.new.ring }
        ensures received { received self.new.ring ≡ received self.old.ring ++ result ∷ [] }
        ensures ring { SameConsumer self.old.ring self.new.ring }
    {
        let cell = self.ring.pop_known();
        self.known -= 1;
        cell
    }
}
