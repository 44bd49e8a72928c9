//! The first frames of a run, in memory.
ghost use Rattle.std.specs.Prelude.{◌≡◌, ◌≤◌, ◌<◌, ◌+◌, ◌*◌, ◌++◌, ◌∷◌, [], None, Some, IfOk, length, get_or, take};
ghost use Rattle.link_run.specs.Frames.{TookFrames, no_delivered};
ghost use Rattle.link_run.specs.Rows.{AreFrameWords};

use crate::rows::Rows;
use jesd_base::{Failed, NoMemory};
use link_params::{Link, Mark, Shape};
use scenario::{Row, Totals};
use std::alloc::Global;
use std::marker::Model;

/// A frame's octet time and mark.
#[derive(Clone, Copy)]
pub struct Left {
    pub time: u32,
    pub mark: Mark,
}

/// Keeps the first frames that are delivered, with their words, and the totals of a run. Contracts
/// see it as the parameters of its link, for how many frames it has room, the frames, and the
/// totals.
#[derive(Drop)]
pub struct FrameList {
    shape: Shape,
    room: usize,
    size: usize,
    frames: Vec<Left>,
    words: Vec<u32>,
    totals: Option<Totals>,
}

impl Model for FrameList {
    ghost use Rattle.std.specs.Prelude.{◌≡◌, ◌<◌, ◌≤◌, ◌*◌, length, vec_capacity};
    ghost use Rattle.link_run.specs.Frames.{Kept};
    ghost use Rattle.link_run.specs.kept.FrameLists.{frames_kept};

    ghost Value = { Kept };

    ghost view = { λ f. record {
      params = f.shape;
      room = f.room;
      frames = frames_kept f.frames.items f.words.items f.size;
      totals = f.totals;
    } };

    ghost invariant = { λ f. (f.size ≡ f.shape.m * f.shape.s)
        × (length f.frames.items ≤ f.room) × (f.room ≤ vec_capacity f.frames)
        × (f.room < 4294967296)
        × (length f.words.items ≡ length f.frames.items * f.size)
        × (f.room * f.size ≤ vec_capacity f.words) × (f.room * f.size ≤ 2097152) };
}

impl FrameList {
    /// An empty list with room for so many frames of this link. All memory is taken here;
    /// `NoMemory` where there is none.
    pub fn open(alloc: Global, link: &Link, frames: u32) -> Result<FrameList, NoMemory>
        requires few { frames * (link.now.params.m * link.now.params.s) ≤ 2097152 }
        ensures { IfOk result (λ f. f ≡ record {
          params = link.now.params;
          room = frames;
          frames = [];
          totals = None;
        }) }
    {
        let shape = link.shape();
        let (room, size) = (frames as usize, shape.frame_words() as usize);
        let (Ok(frames), Ok(words)) = (
            Vec::with_capacity(alloc, room),
            Vec::with_capacity(alloc, room * size),
        ) else {
            return Err(NoMemory);
        };
        Ok(FrameList {
            shape,
            room,
            size,
            frames,
            words,
            totals: None,
        })
    }

    /// How many frames it keeps.
    pub fn len(&self) -> u32
        ensures { result ≡ length self.now.frames }
    {
        self.frames.len() as u32
    }

    /// The octet time at which the first octet of frame `i` left.
    pub fn left(&self, i: u32) -> u32
        requires { i < length self.now.frames }
        ensures { result ≡ (get_or self.now.frames i no_delivered).left }
    {
        self.frames[i as usize].time
    }

    /// The mark of frame `i`.
    pub fn mark(&self, i: u32) -> Mark
        requires { i < length self.now.frames }
        ensures { result ≡ (get_or self.now.frames i no_delivered).mark }
    {
        self.frames[i as usize].mark
    }

    /// The words of frame `i`, M·S of them.
    pub fn words(&self, i: u32) -> &[u32]
        requires { i < length self.now.frames }
        ensures { result.now ≡ (get_or self.now.frames i no_delivered).words }
    {
        let first = i as usize * self.size;
        &self.words[first..first + self.size]
    }

    /// The totals of the last `End` row, and none before it.
    pub fn totals(&self) -> Option<Totals>
        ensures { result ≡ self.now.totals }
    {
        self.totals
    }

    // A frame that left, where there is room for it.
    fn keep(&mut self, time: u32, mark: Mark, words: &[u32])
        requires { AreFrameWords self.old.params words.now }
        ensures { self.new ≡ record self.old {
          frames = take self.old.room (self.old.frames ++ (record { left = time; mark = mark; words = words.now }) ∷ []);
        } }
    {
        if self.frames.len() < self.room {
            self.frames.push_reserved(Left { time, mark });
            let Ok(()) = self.words.extend_from_slice(words) else {
                unreachable!()
            };
        }
    }
}

impl Rows for FrameList {
    ghost Took = { λ a b rows. TookFrames a b rows };

    ghost shape = { λ a. Some a.params };

    ghost faults = { λ a. 0 };

    fn row(&mut self, row: &Row, words: &[u32]) -> Result<(), Failed> {
        match row {
            Row::Frame(time, mark) => self.keep(*time, *mark, words),
            Row::End(totals) => self.totals = Some(*totals),
            _ => {}
        }
        Ok(())
    }
}
