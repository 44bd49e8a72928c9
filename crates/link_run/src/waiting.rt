//! Cells of a lane that wait to be taken.
ghost use Rattle.std.specs.Prelude.{◌≡◌, ◌<◌, ◌∷◌, [], length, IfOk};
ghost use Rattle.link_run.specs.kept.Waits.{IsFilled};

use jesd_base::NoMemory;
use lane_threads::CellEnd;
use link_params::LaneCell;
use std::alloc::Global;
use std::marker::Model;

/// The cells of a lane that were taken from its ring, the next one first. Contracts see them, and
/// for how many there is room.
#[derive(Drop)]
pub struct Waiting {
    // Those before `next` were taken.
    cells: Vec<LaneCell>,
    next: usize,
    room: usize,
}

impl Model for Waiting {
    ghost use Rattle.std.specs.Prelude.{◌≡◌, ◌≤◌, drop, length, vec_capacity};
    ghost use Rattle.link_run.specs.kept.Waits.{Waits};

    ghost Value = { Waits };

    ghost view = { λ w. record { cells = drop w.next w.cells.items; room = w.room } };

    ghost invariant = { λ w. (w.next ≤ length w.cells.items) × (length w.cells.items ≤ w.room)
        × (w.room ≤ vec_capacity w.cells) };
}

impl Waiting {
    /// No cell, and room for so many. All its memory is taken here; `NoMemory` where there is none.
    pub fn open(alloc: Global, room: u32) -> Result<Waiting, NoMemory>
        ensures { IfOk result (λ w. w ≡ record { cells = []; room = room }) }
    {
        match Vec::with_capacity(alloc, room as usize) {
            Ok(cells) => Ok(Waiting {
                cells,
                next: 0,
                room: room as usize,
            }),
            Err(_) => Err(NoMemory),
        }
    }

    /// Takes the cells that are known to be at this end of the lane's ring, as many as there is
    /// room for.
    pub fn fill(&mut self, end: &mut CellEnd)
        ensures { IsFilled self.old self.new end.old end.new }
    {
        if self.next == self.cells.len() {
            self.cells.clear();
            self.next = 0;
        }
        while end.known() > 0 && self.cells.len() < self.room {
            self.cells.push_reserved(end.pop());
        }
    }

    /// The next cell.
    pub fn next(&mut self) -> LaneCell
        requires { 0 < length self.old.cells }
        ensures next { self.old.cells ≡ result ∷ self.new.cells }
        ensures same { self.new.room ≡ self.old.room }
    {
        let cell = self.cells[self.next];
        self.next += 1;
        cell
    }
}
