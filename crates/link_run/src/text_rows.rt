//! Rows as lines of text.
ghost use Rattle.std.specs.Prelude.{◌≡◌, ◌≤◌, ◌<◌, ◌+◌, ◌*◌, ◌++◌, [], ℕ, List, false, true, length, take, OnErr, OnOk, IfOk, Some, IsTrue, is_some};
ghost use Rattle.jesd_base.specs.Streams.{Added, Rose};
ghost use Rattle.link_params.specs.Links.{Link as LinkValue};
ghost use Rattle.scenario.specs.ReportLines.{line_of};
ghost use Rattle.link_model.specs.Report.{Printed};
ghost use Rattle.link_run.specs.kept.Lines.{TookLines, Writing, writing_of};

use crate::rows::Rows;
use crate::short_rows::row_fits;
use jesd_base::{Failed, NoMemory, Sink, WriteFault, write_all};
use scenario::{LineText, Row, Scenario};
use std::alloc::Global;
use std::marker::Model;

// Lines are handed on once so many bytes are gathered.
const GATHERED: usize = 65_536;

/// Lines that are gathered, with room for a line behind the last of them. Contracts see the lines,
/// and the words for which a line has room.
#[derive(Drop)]
pub struct Lines {
    line: LineText,
    gathered: Vec<u8>,
    words: usize,
}

impl Model for Lines {
    ghost use Rattle.std.specs.Prelude.{◌≡◌, ◌≤◌, ◌+◌, ◌*◌, length, vec_capacity};
    ghost use Rattle.link_run.specs.kept.Lines.{Gathered};

    ghost Value = { Gathered };

    ghost view = { λ l. record { bytes = l.gathered.items; words = l.words } };

    ghost invariant = { λ l. (128 + 9 * l.words ≤ l.line.room)
        × (65536 + (128 + 9 * l.words) ≤ vec_capacity l.gathered) };
}

impl Lines {
    /// Room for the lines of this scenario; `NoMemory` where there is none.
    pub fn open(alloc: Global, s: &Scenario) -> Result<Lines, NoMemory>
        ensures empty { IfOk result (λ l. l.bytes ≡ []) }
        ensures room { IfOk result (λ l. l.words ≡ s.now.shape.m * s.now.shape.s) }
    {
        let words = s.shape.frame_words() as usize;
        // The longest line: 128 bytes, and a comma and eight digits for each word.
        let room = 128 + 9 * words;
        let Ok(gathered) = Vec::with_capacity(alloc, GATHERED + room) else {
            return Err(NoMemory);
        };
        Ok(Lines {
            line: LineText::open(alloc, room)?,
            gathered,
            words,
        })
    }

    // Enough lines are gathered to be handed on.
    fn is_full(&self) -> bool
        ensures { result ≡ false → length self.now.bytes < 65536 }
    {
        self.gathered.len() >= GATHERED
    }

    // Writes what is gathered; where the sink fails, a prefix of it.
    fn write<K: Sink>(&mut self, out: &mut K) -> Result<(), WriteFault>
        ensures all { OnOk result (Added (K.written out.old) (K.written out.new) self.old.bytes) }
        ensures prefix { OnErr result ((n : ℕ)
            × Added (K.written out.old) (K.written out.new) (take n self.old.bytes)) }
        ensures rose { OnErr result (Rose (K.faults out.old) (K.faults out.new)) }
        ensures count { K.faults out.old ≤ K.faults out.new }
        ensures empty { self.new ≡ record self.old { bytes = [] } }
    {
        let written = write_all(out, &self.gathered);
        self.gathered.clear();
        written
    }

    // The line of a row, behind those that are gathered.
    fn add(&mut self, row: &Row, words: &[u32], s: &Scenario)
        requires link { IsTrue (is_some s.now.link) }
        requires few { length words.now ≤ self.old.words }
        requires room { length self.old.bytes < 65536 }
        ensures bytes { (k : LinkValue) → s.now.link ≡ Some k
            → self.new.bytes ≡ self.old.bytes ++ line_of s.now.version k row.now words.now }
        ensures words { self.new.words ≡ self.old.words }
    {
        let Some(link) = &s.link else { unreachable!() };
        // The numbers of a legal link are short, and so are those of a row.
        let (_shape, _timing) = (link.shape(), link.timing());
        row_fits(row);
        self.line.line(row, words, s);
        let Ok(()) = self.gathered.extend_from_slice(self.line.bytes()) else {
            unreachable!()
        };
    }
}

/// Writes each row as its line. Lines are gathered, and written once 65,536 bytes are there and at
/// the end. Once the sink has failed nothing more is written.
#[derive(Drop)]
pub struct TextRows<'a, K: Sink> {
    /// The scenario whose rows these are.
    pub s: &'a Scenario,
    /// Where lines are gathered.
    pub lines: &'a mut Lines,
    /// Where they are written.
    pub out: &'a mut K,
    /// The sink has failed.
    pub failed: bool,
    ghost linked: { IsTrue (is_some s.now.link) },
    ghost fits: { lines.now.words ≡ s.now.shape.m * s.now.shape.s },
}

impl<'a, K: Sink> TextRows<'a, K> {
    /// Writes what is gathered. `Failed` where the sink failed, now or before.
    pub fn flush(&mut self) -> Result<(), Failed>
        ensures all { OnOk result (Added (K.written self.old.out.now) (K.written self.new.out.now)
            self.old.lines.now.bytes) }
        ensures prefix { self.old.failed ≡ false → OnErr result ((n : ℕ)
            × Added (K.written self.old.out.now) (K.written self.new.out.now)
            (take n self.old.lines.now.bytes)) }
        ensures rose { self.old.failed ≡ false
            → OnErr result (Rose (K.faults self.old.out.now) (K.faults self.new.out.now)) }
        ensures kept { self.old.failed ≡ true → self.new ≡ self.old }
        ensures count { K.faults self.old.out.now ≤ K.faults self.new.out.now }
        ensures empty { OnOk result (self.new.lines.now.bytes ≡ []) }
        ensures fine { OnOk result ((self.old.failed ≡ false) × (self.new.failed ≡ false)) }
        ensures failed { OnErr result (self.new.failed ≡ true) }
        ensures same { self.new.s ≡ self.old.s }
        ensures names { (self.new.lines.ghost_name ≡ self.old.lines.ghost_name)
            × (self.new.out.ghost_name ≡ self.old.out.ghost_name) }
    {
        if self.failed {
            return Err(Failed);
        }
        match self.lines.write(self.out) {
            Ok(()) => Ok(()),
            Err(WriteFault) => {
                self.failed = true;
                Err(Failed)
            }
        }
    }

    // Room for a line: what is gathered is written once it is much. `Failed` where the sink failed.
    fn make_room(&mut self) -> Result<(), Failed>
        requires fine { self.old.failed ≡ false }
        ensures took { (first : Writing) (before : List Printed)
            → TookLines first (writing_of self.old.s.now self.old.lines.now self.old.failed
            (K.written self.old.out.now) (K.faults self.old.out.now)) before
            → TookLines first (writing_of self.new.s.now self.new.lines.now self.new.failed
            (K.written self.new.out.now) (K.faults self.new.out.now)) before }
        ensures room { OnOk result (length self.new.lines.now.bytes < 65536) }
        ensures fine { OnOk result (self.new.failed ≡ false) }
        ensures rose { OnErr result (Rose (K.faults self.old.out.now) (K.faults self.new.out.now)) }
        ensures count { K.faults self.old.out.now ≤ K.faults self.new.out.now }
        ensures same { self.new.s ≡ self.old.s }
        ensures names { (self.new.lines.ghost_name ≡ self.old.lines.ghost_name)
            × (self.new.out.ghost_name ≡ self.old.out.ghost_name) }
    {
        if self.lines.is_full() {
            self.flush()
        } else {
            Ok(())
        }
    }
}

impl<'a, K: Sink> Rows for TextRows<'a, K> {
    ghost Took = { λ a b rows. (b.lines.ghost_name ≡ a.lines.ghost_name)
        × (b.out.ghost_name ≡ a.out.ghost_name) × TookLines
        (writing_of a.s.now a.lines.now a.failed (K.written a.out.now) (K.faults a.out.now))
        (writing_of b.s.now b.lines.now b.failed (K.written b.out.now) (K.faults b.out.now)) rows };

    ghost shape = { λ a. Some a.s.now.shape };

    ghost faults = { λ a. K.faults a.out.now };

    fn row(&mut self, row: &Row, words: &[u32]) -> Result<(), Failed> {
        if self.failed {
            return Ok(());
        }
        self.make_room()?;
        self.lines.add(row, words, self.s);
        Ok(())
    }
}
