//! What a worker passes before a lane's ticks, and what runs beside the lanes.

/// What a worker passes once before the ticks of each lane of a segment.
pub trait Gate: Sync {
    /// The worker that runs this lane passes, and goes on.
    fn pass(&self, lane: u32);
}

/// A gate that does nothing.
#[derive(Drop)]
pub struct NoGate;

impl Gate for NoGate {
    fn pass(&self, _lane: u32) {}
}

/// What runs once in each segment, beside the lanes. `runs` is what a run leaves.
pub trait Side: Send {
    ghost runs: { Self → Self → Type 0 };

    /// It runs once.
    fn run(&mut self)
        ensures { runs self.old self.new };
}

/// A side that does nothing.
#[derive(Drop)]
pub struct NoSide;

impl Side for NoSide {
    ghost use Rattle.std.specs.Prelude.{◌≡◌};

    ghost runs = { λ a b. b ≡ a };

    fn run(&mut self) {}
}
