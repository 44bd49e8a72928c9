//! The rows of a run, and what they count.
ghost use Rattle.std.specs.Prelude.{◌≡◌, ◌<◌, ◌≤◌, ◌+◌, ◌*◌, ◌∷◌, [], false, length, if◌then◌else◌, Some, IfOk, IsTrue, get_or, is_ok, is_some};
ghost use Rattle.link_params.specs.Numbers.{octets_per_tick};
ghost use Rattle.link_params.specs.declared.fields.Params.{Params};
ghost use Rattle.scenario.specs.declared.report_row.Row.TheVariants as row;
ghost use Rattle.scenario.specs.Limits.{has_words};
ghost use Rattle.scenario.specs.Plans.{Plan, plan_of, source_frame};
ghost use Rattle.sample_map.specs.Frames.{words_of};
ghost use Rattle.link_model.specs.Report.{bare, prints_all, prints_frames};
ghost use Rattle.link_run.specs.Rows.{HasWords, WasHanded};
ghost use Rattle.link_run.specs.kept.Gathered.{no_frame};
ghost use Rattle.link_run.specs.kept.Printing.{counted_marks, no_totals};

use crate::deframer::Deframer;
use crate::rows::Rows;
use crate::whole_frames::whole_frames;
use jesd_base::{Failed, NoMemory};
use link_params::{Alarm, Mark};
use sample_map::{Layout, layout_laws};
use scenario::{Print, Row, Scenario, Totals, source_frame};
use std::alloc::Global;
use std::marker::Model;

/// What the rows of a run count so far, with room for the words and the octets of a frame.
/// Contracts see it as its parameters, whether the first and the last row alone are handed on, and
/// the counts.
#[derive(Drop)]
pub struct Report {
    layout: Layout,
    words: Vec<u32>,
    octets: Vec<u8>,
    // The frames of a tick, where each tick has whole ones; else 0.
    frames: u32,
    short: bool,
    totals: Totals,
}

impl Model for Report {
    ghost use Rattle.std.specs.Prelude.{◌≡◌, ◌<◌, ◌*◌, None, length};
    ghost use Rattle.link_params.specs.Laws.{broken_law};
    ghost use Rattle.link_params.specs.Numbers.{octets_per_tick};
    ghost use Rattle.link_run.specs.kept.Printing.{Printing};

    ghost Value = { Printing };

    ghost view = { λ r. record { params = r.layout; short = r.short; totals = r.totals } };

    ghost invariant = { λ r. (length r.words.items ≡ r.layout.m * r.layout.s)
        × (length r.octets.items ≡ r.layout.l * r.layout.f)
        × (broken_law r.layout ≡ None)
        × (0 < r.frames → r.frames * r.layout.f ≡ octets_per_tick r.layout) };
}

impl Report {
    /// Nothing was counted. All its memory is taken here; `NoMemory` where there is none.
    pub fn open(alloc: Global, s: &Scenario) -> Result<Report, NoMemory>
        ensures { IfOk result (λ r. r ≡ record {
          params = s.now.shape;
          short = false;
          totals = no_totals;
        }) }
    {
        // for what it ensures: the shape is legal
        let _params = s.shape.params();
        let size = (s.shape.lanes() * s.shape.frame_octets()) as usize;
        let count = s.shape.frame_words() as usize;
        let (Ok(words), Ok(octets)) = (vec![in alloc; 0u32; count], vec![in alloc; 0u8; size])
        else {
            return Err(NoMemory);
        };
        Ok(Report {
            layout: Layout::new(&s.shape),
            words,
            octets,
            frames: whole_frames(&s.shape),
            short: false,
            totals: Totals {
                ticks: 0,
                entered: 0,
                delivered: 0,
                ok: 0,
                fixed: 0,
                bad: 0,
                alarms: 0,
                fullest: 0,
            },
        })
    }

    /// How many frames a tick has, where each tick has whole ones; else 0.
    pub fn whole_frames(&self) -> u32
        ensures { 0 < result → result * self.now.params.f ≡ octets_per_tick self.now.params }
    {
        self.frames
    }

    /// Whether the first and the last row alone are handed on.
    pub fn set_short(&mut self, short: bool)
        ensures { self.new ≡ record self.old { short = short } }
    {
        self.short = short;
    }

    /// A row without words, between the first and the last one.
    pub fn row<W: Rows>(&self, rows: &mut W, row: &Row) -> Result<(), Failed>
        requires shape { (p : Params) → W.shape rows.old ≡ Some p → p ≡ self.now.params }
        requires bare { HasWords self.now.params row.now [] }
        ensures handed { WasHanded W W.Took W.shape W.faults rows.old rows.new (is_ok result)
            (if self.now.short then [] else bare row.now ∷ []) }
    {
        if self.short {
            Ok(())
        } else {
            rows.row(row, &[])
        }
    }

    /// An alarm of tick `t`.
    pub fn alarm<W: Rows>(&mut self, rows: &mut W, t: u32, alarm: Alarm) -> Result<(), Failed>
        requires count { self.old.totals.alarms < 4294967295 }
        requires shape { (p : Params) → W.shape rows.old ≡ Some p → p ≡ self.old.params }
        ensures handed { WasHanded W W.Took W.shape W.faults rows.old rows.new (is_ok result)
            (if self.old.short then [] else bare (row.Alarm t alarm) ∷ []) }
        ensures counts { self.new ≡ record self.old {
          totals = record self.old.totals { alarms = self.old.totals.alarms + 1 };
        } }
    {
        self.totals.alarms += 1;
        self.row(rows, &Row::Alarm(t, alarm))
    }

    /// The next source frame begins, at this octet time.
    pub fn enter<W: Rows>(&mut self, rows: &mut W, s: &Scenario, time: u32) -> Result<(), Failed>
        requires count { self.old.totals.entered < 4294967295 }
        requires same { self.old.params ≡ s.now.shape }
        requires link { IsTrue (is_some s.now.link) }
        requires shape { (p : Params) → W.shape rows.old ≡ Some p → p ≡ self.old.params }
        requires some { IsTrue (has_words s.now.input) }
        ensures handed { (plan : Plan) → plan_of s.now ≡ Some plan
            → WasHanded W W.Took W.shape W.faults rows.old rows.new (is_ok result)
            (if self.old.short then [] else (if prints_all plan.print
            then (record {
              row = row.Enter time;
              words = source_frame plan self.old.totals.entered;
            }) ∷ []
            else [])) }
        ensures counts { self.new ≡ record self.old {
          totals = record self.old.totals { entered = self.old.totals.entered + 1 };
        } }
    {
        let number = u64::from(self.totals.entered);
        self.totals.entered += 1;
        if self.prints_entries(s) {
            self.enter_row(rows, s, time, number)
        } else {
            Ok(())
        }
    }

    // The row of this source frame.
    #[inline(never)]
    fn enter_row<W: Rows>(
        &mut self,
        rows: &mut W,
        s: &Scenario,
        time: u32,
        number: u64,
    ) -> Result<(), Failed>
        requires same { self.old.params ≡ s.now.shape }
        requires link { IsTrue (is_some s.now.link) }
        requires shape { (p : Params) → W.shape rows.old ≡ Some p → p ≡ self.old.params }
        requires some { IsTrue (has_words s.now.input) }
        ensures handed { (plan : Plan) → plan_of s.now ≡ Some plan
            → WasHanded W W.Took W.shape W.faults rows.old rows.new (is_ok result)
            ((record { row = row.Enter time; words = source_frame plan number }) ∷ []) }
        ensures same { self.new ≡ self.old }
    {
        source_frame(s, number, &mut self.words);
        rows.row(&Row::Enter(time), &self.words)
    }

    /// So many source frames begin, and their rows are not handed on.
    pub fn count_entries(&mut self, count: u32)
        requires count { self.old.totals.entered + count ≤ 4294967295 }
        ensures { self.new ≡ record self.old {
          totals = record self.old.totals { entered = self.old.totals.entered + count };
        } }
    {
        self.totals.entered += count;
    }

    /// So many frames with this mark are delivered.
    pub fn count(&mut self, mark: Mark, count: u32)
        requires count { self.old.totals.delivered + count ≤ 4294967295 }
        requires marks { (self.old.totals.ok + count ≤ 4294967295)
            × (self.old.totals.fixed + count ≤ 4294967295)
            × (self.old.totals.bad + count ≤ 4294967295) }
        ensures { self.new ≡ record self.old {
          totals = counted_marks self.old.totals mark count;
        } }
    {
        self.totals.delivered += count;
        match mark {
            Mark::Ok => self.totals.ok += count,
            Mark::Fixed => self.totals.fixed += count,
            Mark::Bad => self.totals.bad += count,
        }
    }

    /// The row of frame `i` of those that became whole, whose first octet left at this octet time.
    pub fn frame<W: Rows>(
        &mut self,
        rows: &mut W,
        time: u32,
        frames: &Deframer,
        i: usize,
    ) -> Result<(), Failed>
        requires same { frames.now.params ≡ self.old.params }
        requires inside { i < length frames.now.frames }
        requires shape { (p : Params) → W.shape rows.old ≡ Some p → p ≡ self.old.params }
        ensures handed { WasHanded W W.Took W.shape W.faults rows.old rows.new (is_ok result)
            ((record {
              row = row.Frame time (get_or frames.now.frames i no_frame).mark;
              words = words_of self.old.params (get_or frames.now.frames i no_frame).octets;
            }) ∷ []) }
        ensures same { self.new ≡ self.old }
    {
        layout_laws();
        frames.write_frame(i, &mut self.octets);
        self.layout.unmap(&self.octets, &mut self.words);
        rows.row(&Row::Frame(time, frames.mark(i)), &self.words)
    }

    /// A tick is over.
    pub fn tick(&mut self)
        requires { self.old.totals.ticks < 4294967295 }
        ensures { self.new
            ≡ record self.old {
              totals = record self.old.totals { ticks = self.old.totals.ticks + 1 };
            } }
    {
        self.totals.ticks += 1;
    }

    /// The counts so far; `fullest` is the most entries that any lane held.
    pub fn totals(&self, fullest: u32) -> Totals
        ensures { result ≡ record self.now.totals { fullest = fullest } }
    {
        Totals {
            fullest,
            ..self.totals
        }
    }

    /// Whether frames that enter are handed on.
    pub fn prints_entries(&self, s: &Scenario) -> bool
        ensures { (plan : Plan) → plan_of s.now ≡ Some plan
            → result ≡ (if self.now.short then false else prints_all plan.print) }
    {
        match s.print {
            Print::All => !self.short,
            Print::None | Print::Frames => false,
        }
    }

    /// Whether frames that leave are handed on.
    pub fn prints_frames(&self, s: &Scenario) -> bool
        ensures { (plan : Plan) → plan_of s.now ≡ Some plan
            → result ≡ (if self.now.short then false else prints_frames plan.print) }
    {
        match s.print {
            Print::Frames | Print::All => !self.short,
            Print::None => false,
        }
    }
}
