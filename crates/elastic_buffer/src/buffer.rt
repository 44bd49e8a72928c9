//! A queue of cells with room for so many.
ghost use Rattle.std.specs.Prelude.{◌≡◌, ◌<◌, ◌≤◌, ◌++◌, ◌∷◌, [], length, IfOk};
ghost use Rattle.elastic_buffer.specs.kept.Queues.{Queue};

use circular_buffer::HeapCircularBuffer;
use jesd_base::NoMemory;
use link_params::LaneCell;
use std::alloc::Global;
use std::marker::Model;

/// The cells of a lane that wait, oldest first. Contracts see it as their list and the number that it has room for.
#[derive(Drop)]
pub struct ElasticBuffer {
    cells: HeapCircularBuffer<LaneCell>,
}

impl Model for ElasticBuffer {
    ghost use Rattle.std.specs.Prelude.{◌<◌, ◌≤◌, ◌^◌, length};
    ghost use Rattle.elastic_buffer.specs.kept.Queues.{Queue};

    ghost Value = { Queue };

    ghost view = { λ b. record { cells = b.cells.items; depth = b.cells.capacity } };

    ghost invariant = { λ b. (b.cells.capacity < 2 ^ 32) × (length b.cells.items ≤ b.cells.capacity) };
}

impl ElasticBuffer {
    /// An empty buffer with room for `depth` cells. All its memory is taken here; `NoMemory` where there is none.
    pub fn open(alloc: Global, depth: u32) -> Result<ElasticBuffer, NoMemory>
        requires { 0 < depth }
        ensures { IfOk result (λ b. b ≡ record { cells = []; depth = depth }) }
    {
        match HeapCircularBuffer::with_capacity(alloc, depth as usize) {
            Ok(cells) => Ok(ElasticBuffer { cells }),
            Err(_) => Err(NoMemory),
        }
    }

    /// Puts a cell in, behind those that wait.
    pub fn push(&mut self, cell: LaneCell)
        requires { length self.old.cells < self.old.depth }
        ensures { self.new ≡ record { cells = self.old.cells ++ cell ∷ []; depth = self.old.depth } }
    {
        let _ = self.cells.push_back(cell);
    }

    /// Takes the oldest cell out.
    pub fn pop(&mut self) -> LaneCell
        requires { 0 < length self.old.cells }
        ensures { self.old ≡ record { cells = result ∷ self.new.cells; depth = self.new.depth } }
    {
        match self.cells.pop_front() {
            Some(cell) => cell,
            None => unreachable!(),
        }
    }

    /// Empties the buffer.
    pub fn clear(&mut self)
        ensures { self.new ≡ record { cells = []; depth = self.old.depth } }
    {
        self.cells.clear();
    }

    /// How many cells wait.
    pub fn len(&self) -> u32
        ensures count { result ≡ length self.now.cells }
        ensures within { result ≤ self.now.depth }
    {
        self.cells.len() as u32
    }
}
