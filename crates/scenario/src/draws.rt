//! Numbers that are drawn one after another.
ghost use Rattle.std.specs.Prelude.{◌≡◌, ◌<◌, ◌+◌, ℕ};
ghost use Rattle.scenario.specs.Generated.{draw, state};

/// Draws, each from the state that the one before it left.
#[derive(Drop)]
pub struct Draws {
    state: u64,
}

impl Draws {
    /// The draws of a number: it is the first state.
    pub fn of(number: u32) -> Draws
        ensures { result.state ≡ state number 0 }
    {
        Draws {
            state: u64::from(number),
        }
    }

    /// The next draw: a number below `below`, which is not 0.
    pub fn draw(&mut self, below: u32) -> u32
        requires { 0 < below }
        ensures answer { (number k : ℕ) → self.old.state ≡ state number k
            → result ≡ draw number k below }
        ensures state { (number k : ℕ) → self.old.state ≡ state number k
            → self.new.state ≡ state number (k + 1) }
        ensures below { result < below }
    {
        self.state = self
            .state
            .wrapping_mul(6_364_136_223_846_793_005)
            .wrapping_add(1_442_695_040_888_963_407);
        ((self.state >> 33) % u64::from(below)) as u32
    }
}
