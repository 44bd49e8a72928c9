//! The words that go into a link.

/// The words that go into a link.
#[derive(Drop)]
pub enum Input {
    /// Word k of frame n, of M·S words, is start + step·(n·M·S + k), modulo 2^(N+CS).
    Ramp { start: u32, step: u32 },
    /// The words of whole frames, in the order of the records. A run sends them again and again.
    Frames(Vec<u32>),
}
