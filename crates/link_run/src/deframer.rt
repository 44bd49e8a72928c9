//! Frames from the octets that the lanes give.
ghost use Rattle.std.specs.Prelude.{◌≡◌, ◌<◌, ◌≤◌, ◌+◌, ◌-◌, ◌*◌, ◌/◌, ◌%◌, ◌^◌, ◌++◌, ◌==◌, ◌⊎◌, if◌then◌else◌, [], ℕ, List, get_or, slice_index, length, map, Some, IfOk};
ghost use Rattle.link_params.specs.declared.fields.Params.{Params as ParamsValue};
ghost use Rattle.link_params.specs.declared.cells.LaneCell.{LaneCell as CellValue};
ghost use Rattle.link_params.specs.declared.cells.Mark.TheVariants as mark;
ghost use Rattle.link_model.specs.kept.Before.{Columns, octet_columns};
ghost use Rattle.link_run.specs.kept.Gathered.{FramesAre, HasGathered, no_frame};
ghost use Rattle.link_run.specs.kept.FrameRows.{AreMoved, IsPut, IsWritten};
ghost use Rattle.link_run.specs.kept.Waits.{AreNext, Waits, next_of};

use crate::waiting::Waiting;
use crate::whole_frames::whole_frames;
use jesd_base::NoMemory;
use link_params::{Mark, Shape};
use std::alloc::Global;
use std::marker::Model;

/// A frame that is gathered octet by octet from all lanes, and the frames that became whole in the
/// last tick. Contracts see it as its parameters, how many octets of each lane are there, the worst
/// of their marks, the octets, and those frames.
#[derive(Drop)]
pub struct Deframer {
    shape: Shape,
    per_tick: usize,
    // Octets of a frame on a lane.
    size: usize,
    at: usize,
    mark: Mark,
    // The frames of a tick, where each tick has whole ones; else 0.
    frames: usize,
    // How many frames became whole in the last tick, the mark of the first and that of the others.
    whole: usize,
    first: Mark,
    others: Mark,
    // A row of `room` octets for each lane: those of these frames, and behind them those of the next
    // one.
    room: usize,
    rows: Vec<u8>,
}

impl Model for Deframer {
    ghost use Rattle.std.specs.Prelude.{map};
    ghost use Rattle.scenario.specs.Plans.{numbers_from};
    ghost use Rattle.link_run.specs.kept.Gathered.{Gathering};
    ghost use Rattle.link_run.specs.kept.FrameRows.{HasRowSizes, frame_in, whole_in};

    ghost Value = { Gathering };

    ghost view = { λ d. record {
      params = d.shape;
      at = d.at;
      mark = d.mark;
      octets = frame_in d.rows.items d.shape d.room d.whole;
      frames = map (whole_in d.rows.items d.shape d.room d.first d.others) (numbers_from 0 d.whole);
    } };

    ghost invariant = { λ d. HasRowSizes d.shape d.per_tick d.size d.frames d.room d.rows.items d.at d.whole };
}

impl Deframer {
    /// A frame of which nothing is there. All its memory is taken here; `NoMemory` where there is
    /// none.
    pub fn open(alloc: Global, shape: &Shape) -> Result<Deframer, NoMemory>
        ensures begins { IfOk result (λ d. HasGathered d shape.now []) }
        ensures nothing { IfOk result (λ d. d.frames ≡ []) }
    {
        let (size, per_tick) = (
            shape.frame_octets() as usize,
            shape.octets_per_tick() as usize,
        );
        let room = size + per_tick;
        let Ok(rows) = vec![in alloc; 0u8; shape.lanes() as usize * room] else {
            return Err(NoMemory);
        };
        Ok(Deframer {
            shape: *shape,
            per_tick,
            size,
            at: 0,
            mark: Mark::Ok,
            frames: whole_frames(shape) as usize,
            whole: 0,
            first: Mark::Ok,
            others: Mark::Ok,
            room,
            rows,
        })
    }

    /// A hunt begins: what is there is dropped.
    pub fn clear(&mut self)
        ensures begins { (p : ParamsValue) (columns : Columns) → HasGathered self.old p columns
            → HasGathered self.new p [] }
        ensures same { self.new.params ≡ self.old.params }
    {
        self.at = 0;
        self.mark = Mark::Ok;
    }

    /// A tick in which the lanes give nothing.
    pub fn rest(&mut self)
        ensures gathered { (p : ParamsValue) (columns : Columns) → HasGathered self.old p columns
            → HasGathered self.new p columns }
        ensures nothing { self.new.frames ≡ [] }
        ensures same { self.new.params ≡ self.old.params }
    {
        if self.whole > 0 {
            self.drop_whole();
        }
    }

    // The frames of the last tick are over: the octets behind them begin their rows.
    fn drop_whole(&mut self)
        requires some { 0 < length self.old.frames }
        ensures octets { (lane j : ℕ) → lane < self.old.params.l → j < self.old.at
            → slice_index self.new.octets (lane * self.old.params.f + j)
            ≡ slice_index self.old.octets (lane * self.old.params.f + j) }
        ensures same { self.new ≡ record self.old { octets = self.new.octets; frames = [] } }
    {
        if self.at > 0 {
            let lanes = self.shape.lanes() as usize;
            move_each(
                &mut self.rows,
                lanes,
                self.room,
                self.whole * self.size,
                self.at,
            );
        }
        self.whole = 0;
    }

    /// Takes what each lane gave in a tick: its next cell.
    pub fn take(&mut self, waiting: &mut [Waiting])
        requires lanes { length waiting.old ≡ self.old.params.l }
        requires some { (lane : ℕ) (w : Waits) → lane < length waiting.old
            → 0 < length (get_or waiting.old lane w).cells }
        ensures goes_on { (p : ParamsValue) (columns : Columns) (column : List CellValue)
            → HasGathered self.old p columns → map next_of waiting.old ≡ map (λ c. Some c) column
            → HasGathered self.new p (columns ++ octet_columns p column) }
        ensures frames { (p : ParamsValue) (columns : Columns) (column : List CellValue)
            → HasGathered self.old p columns → map next_of waiting.old ≡ map (λ c. Some c) column
            → FramesAre self.new.frames p (length columns) (columns ++ octet_columns p column) }
        ensures taken { AreNext waiting.old waiting.new }
        ensures same { self.new.params ≡ self.old.params }
    {
        self.rest();
        let worst = put(&mut self.rows, waiting, self.room, self.at, self.per_tick);
        let (whole, at) = frames_with(self.frames, self.size, self.at + self.per_tick);
        self.first = self.mark.worse(worst);
        self.others = worst;
        self.mark = mark_behind(whole, at, self.first, worst);
        self.whole = whole;
        self.at = at;
    }

    /// How many frames became whole in the last tick.
    pub fn whole(&self) -> usize
        ensures count { result ≡ length self.now.frames }
        ensures few { result ≤ 8 }
    {
        self.whole
    }

    /// The mark of frame `i` of them, the oldest one first.
    pub fn mark(&self, i: usize) -> Mark
        requires { i < length self.now.frames }
        ensures { result ≡ (get_or self.now.frames i no_frame).mark }
    {
        if i == 0 { self.first } else { self.others }
    }

    /// The mark of the first of them, and that of the others.
    pub fn marks(&self) -> (Mark, Mark)
        ensures { (i : ℕ) → i < length self.now.frames → (get_or self.now.frames i no_frame).mark
            ≡ (if i == 0 then result.0 else result.1) }
    {
        (self.first, self.others)
    }

    /// Writes the octets of frame `i` of them: L·F octets, lane 0's first.
    pub fn write_frame(&self, i: usize, octets: &mut [u8])
        requires inside { i < length self.now.frames }
        requires size { length octets.old ≡ self.now.params.l * self.now.params.f }
        ensures { octets.new ≡ (get_or self.now.frames i no_frame).octets }
    {
        let size = self.size;
        for lane in 0..self.shape.lanes() as usize {
            let from = lane * self.room + i * size;
            octets[lane * size..(lane + 1) * size].copy_from_slice(&self.rows[from..from + size]);
        }
    }

    /// The octets of a frame on a lane.
    pub fn size(&self) -> u32
        ensures value { result ≡ self.now.params.f }
        ensures most { result ≤ 256 }
    {
        self.size as u32
    }

    /// How many octets of each lane are there of the frame that is not whole.
    pub fn begun(&self) -> u32
        ensures begun { result ≡ self.now.at }
        ensures few { result ≤ 256 }
    {
        self.at as u32
    }
}

// How many frames so many octets of a lane are, `size` octets each, and how many octets are left.
// Where `frames` is not 0 it is the number of them.
fn frames_with(frames: usize, size: usize, octets: usize) -> (usize, usize)
    requires some { 0 < size }
    requires all { 0 < frames → frames * size ≡ octets }
    ensures count { result.0 * size + result.1 ≡ octets }
    ensures within { result.1 < size }
    ensures whole { 0 < frames → result.1 ≡ 0 }
{
    if frames > 0 {
        (frames, 0)
    } else if octets < size {
        (0, octets)
    } else if octets - size < size {
        (1, octets - size)
    } else {
        (octets / size, octets % size)
    }
}

// The worst mark of the `at` octets behind so many frames. `all`: that of all octets up to the end
// of a tick, `worst`: that of this tick's.
fn mark_behind(whole: usize, at: usize, all: Mark, worst: Mark) -> Mark
    ensures { result ≡ (if whole == 0 then all else (if at == 0 then mark.Ok else worst)) }
{
    if whole == 0 {
        all
    } else if at == 0 {
        Mark::Ok
    } else {
        worst
    }
}

// Takes each lane's next cell: its last `count` octets come behind the first `at` octets of the
// lane's row of `room`. The worst of their marks.
fn put(rows: &mut [u8], waiting: &mut [Waiting], room: usize, at: usize, count: usize) -> Mark
    requires size { length rows.old ≡ length waiting.old * room }
    requires some { (lane : ℕ) (w : Waits) → lane < length waiting.old
        → 0 < length (get_or waiting.old lane w).cells }
    requires within { at + count ≤ room }
    requires one_or_eight { (count ≡ 1) ⊎ (count ≡ 8) }
    ensures put { IsPut rows.old rows.new (map next_of waiting.old) room at count result }
    ensures taken { AreNext waiting.old waiting.new }
{
    let mut worst = Mark::Ok;
    for (lane, cells) in waiting.iter_mut().enumerate() {
        let cell = cells.next();
        write_octets(rows, lane * room + at, count, cell.value);
        worst = worst.worse(cell.mark);
    }
    worst
}

// Writes the last `count` octets of a value at a place, the most significant first: one, or eight.
fn write_octets(octets: &mut [u8], place: usize, count: usize, value: u64)
    requires place { place + count ≤ length octets.old }
    requires one_or_eight { (count ≡ 1) ⊎ (count ≡ 8) }
    ensures { IsWritten octets.old octets.new place count
        (λ i. value / 2 ^ (8 * (count - 1 - i)) % 256) }
{
    if count == 1 {
        octets[place] = (value % 256) as u8;
    } else {
        octets[place..place + 8].copy_from_slice(&value.to_be_bytes());
    }
}

// The `count` octets from octet `from` on of each lane's row of `room` come to its beginning.
fn move_each(rows: &mut [u8], lanes: usize, room: usize, from: usize, count: usize)
    requires size { length rows.old ≡ lanes * room }
    requires behind { count ≤ from }
    requires within { from + count ≤ room }
    ensures { AreMoved rows.old rows.new lanes room from count }
{
    for lane in 0..lanes {
        move_octets(rows, lane * room, from, count);
    }
}

// Those of the row that begins at `start`.
fn move_octets(rows: &mut [u8], start: usize, from: usize, count: usize)
    requires behind { count ≤ from }
    requires within { start + from + count ≤ length rows.old }
    ensures { IsWritten rows.old rows.new start count (λ i. slice_index rows.old (start + from + i)) }
{
    for i in 0..count {
        rows[start + i] = rows[start + from + i];
    }
}
