//! SYNC~ from the receiver to the transmitter (JESD204B.01 clause 4.9, "SYNC interface").
ghost use Rattle.std.specs.Prelude.{◌≡◌, ◌<◌, ◌++◌, ◌∷◌, [], ℕ, true, Bool, List, length, get_or, IfOk};
ghost use Rattle.link_run.specs.kept.Seen.{HasSynced};
ghost use Rattle.link_model.specs.kept.Before.{seen_of};

use circular_buffer::HeapCircularBuffer;
use jesd_base::NoMemory;
use std::alloc::Global;
use std::marker::Model;

/// The levels of SYNC~ that are on their way: true where it is low.
#[derive(Drop)]
pub struct SyncLine {
    levels: HeapCircularBuffer<bool>,
}

impl Model for SyncLine {
    ghost use Rattle.std.specs.Prelude.{◌≡◌, ◌<◌, Bool, List, length};

    ghost Value = { List Bool };

    ghost view = { λ l. l.levels.items };

    ghost invariant = { λ l. (length l.levels.items ≡ l.levels.capacity) × (0 < l.levels.capacity) };
}

impl SyncLine {
    /// SYNC~ before the first tick of a run: it was low. The transmitter sees a level `delay` + 1
    /// ticks after the tick that it follows. All its memory is taken here; `NoMemory` where there
    /// is none.
    pub fn open(alloc: Global, delay: u32) -> Result<SyncLine, NoMemory>
        requires { delay < 1024 }
        ensures { IfOk result (λ l. HasSynced l delay []) }
    {
        let room = delay as usize + 1;
        match HeapCircularBuffer::with_capacity(alloc, room) {
            Ok(mut levels) => {
                for _ in 0..room {
                    let _ = levels.push_back(true);
                }
                Ok(SyncLine { levels })
            }
            Err(_) => Err(NoMemory),
        }
    }

    /// Whether the transmitter sees SYNC~ low in this tick.
    pub fn is_low(&self) -> bool
        ensures { (delay : ℕ) (lows : List Bool) → HasSynced self.now delay lows
            → result ≡ get_or (seen_of delay lows) (length lows) true }
    {
        match self.levels.front() {
            Some(low) => *low,
            None => unreachable!(),
        }
    }

    /// The level after this tick.
    pub fn push(&mut self, low: bool)
        ensures { (delay : ℕ) (lows : List Bool) → HasSynced self.old delay lows
            → HasSynced self.new delay (lows ++ low ∷ []) }
    {
        // the buffer is full: its first level goes
        let _ = self.levels.push_back(low);
    }
}
