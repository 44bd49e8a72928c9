//! The octets of source frames, on their way into the lanes.
ghost use Rattle.std.specs.Prelude.{◌≡◌, ◌<◌, ◌≤◌, ◌+◌, ◌-◌, ◌*◌, ◌^◌, ◌==◌, true, ℕ, Some, All, IfOk, IfSome, if◌then◌else◌, length, map, replicate};
ghost use Rattle.link_params.specs.Laws.{is_b};
ghost use Rattle.link_params.specs.Numbers.{octets_per_tick};
ghost use Rattle.sample_map.specs.Frames.{frame_of};
ghost use Rattle.scenario.specs.Plans.{Plan, numbers_from, plan_of, source_frame};
ghost use Rattle.link_model.specs.Sends.{beginnings, handed_to};
ghost use Rattle.link_run.specs.kept.Handed.{Hands, with_octets};
ghost use Rattle.link_run.specs.kept.Seen.{HasFed};

use crate::frame_octets::{add_frames, add_octets, clear, number_of};
use crate::whole_frames::whole_frames;
use jesd_base::NoMemory;
use link_params::place_in_frame;
use sample_map::{Layout, layout_laws};
use scenario::{Scenario, source_frame, source_frames};
use std::alloc::Global;
use std::marker::Model;

/// The source frame that began last, or all those of a tick. Contracts see it as its parameters,
/// how many frames began, how many a tick has where each has whole ones, and the octets.
#[derive(Drop)]
pub struct Feed {
    layout: Layout,
    // The octets of a frame on a lane, and those of a tick on a lane.
    size: u32,
    per_tick: u32,
    // The frames of a tick, where each tick has whole ones; else 0.
    frames: u32,
    begun: u32,
    // Words and octets of the frame that began last or, where each tick has whole frames, of all
    // those of a tick.
    words: Vec<u32>,
    octets: Vec<u8>,
}

impl Model for Feed {
    ghost use Rattle.link_run.specs.kept.Seen.{Fed, HasFeedSizes};

    ghost Value = { Fed };

    ghost view = { λ f. record {
      params = f.layout;
      begun = f.begun;
      frames = f.frames;
      octets = f.octets.items;
    } };

    ghost invariant = { λ f. HasFeedSizes f.layout f.size f.per_tick f.frames f.words.items
        f.octets.items };
}

impl Feed {
    /// A feed from which no frame has begun. All its memory is taken here; `NoMemory` where there
    /// is none.
    pub fn open(alloc: Global, s: &Scenario) -> Result<Feed, NoMemory>
        ensures fed { (plan : Plan) → plan_of s.now ≡ Some plan
            → IfOk result (λ f. HasFed f plan 0) }
        ensures shape { IfOk result (λ f. f.params ≡ s.now.shape) }
    {
        let (size, per_tick) = (s.shape.frame_octets(), s.shape.octets_per_tick());
        let frames = whole_frames(&s.shape);
        let room = frames.max(1) as usize;
        let octets = room * (s.shape.lanes() * size) as usize;
        let words = room * s.shape.frame_words() as usize;
        let (Ok(octets), Ok(words)) = (vec![in alloc; 0u8; octets], vec![in alloc; 0u32; words])
        else {
            return Err(NoMemory);
        };
        let mut feed = Feed {
            layout: Layout::new(&s.shape),
            size,
            per_tick,
            frames,
            begun: 0,
            words,
            octets,
        };
        if frames == 0 {
            feed.lay_out(s, 0);
        }
        Ok(feed)
    }

    /// What each lane is handed in a tick at this place of its multiframe or extended multiblock:
    /// the octets of the tick as one number, the first one most significant; 0 where the tick
    /// carries no data. Each source frame of which the tick has the first octet begins.
    pub fn hand(&mut self, s: &Scenario, place: Option<u32>, handed: &mut [u64])
        requires shape { s.now.shape ≡ self.old.params }
        requires lanes { length handed.old ≡ self.old.params.l }
        requires place { IfSome place (λ x. x < 1024) }
        requires count { self.old.begun + 8 ≤ 4294967295 }
        ensures handed { (plan : Plan) (n : ℕ) → plan_of s.now ≡ Some plan → HasFed self.old plan n
            → handed.new ≡ map (handed_to plan n place) (numbers_from 0 plan.link.params.l) }
        ensures fed { (plan : Plan) (n : ℕ) → plan_of s.now ≡ Some plan → HasFed self.old plan n
            → HasFed self.new plan (n + length (beginnings plan.link.params place)) }
        ensures small { is_b self.old.params.mode ≡ true → All (λ v. v < 256) handed.new }
        ensures lanes { length handed.new ≡ length handed.old }
        ensures same { self.new.params ≡ self.old.params }
        ensures count { self.new.begun ≤ self.old.begun + 8 }
    {
        clear(handed);
        match place {
            Some(_) if self.frames > 0 => self.hand_frames(s, handed),
            Some(place) => self.hand_rows(s, place, handed),
            None => {}
        }
    }

    // The octets of a tick that has whole frames.
    #[inline(always)]
    fn hand_frames(&mut self, s: &Scenario, handed: &mut [u64])
        requires shape { s.now.shape ≡ self.old.params }
        requires none { handed.old ≡ replicate self.old.params.l 0 }
        requires some { 0 < self.old.frames }
        requires count { self.old.begun + 8 ≤ 4294967295 }
        ensures handed { (place : ℕ) → Hands s.now self.old self.new place
            (octets_per_tick self.old.params) handed.new }
        ensures small { All (λ v. v < 256 ^ octets_per_tick self.old.params) handed.new }
    {
        if s.link.is_none() {
            return;
        }
        // for what they ensure: some words have one frame, and the shape obeys its laws
        layout_laws();
        let _params = s.shape.params();
        source_frames(s, u64::from(self.begun), &mut self.words);
        self.layout.map_frames(&self.words, &mut self.octets);
        self.begun += self.frames;
        match handed {
            [only] => *only = number_of(&self.octets),
            _ => add_frames(&self.octets, self.size as usize, handed),
        }
    }

    // The octets of a tick at this place, those of a frame at a time.
    fn hand_rows(&mut self, s: &Scenario, place: u32, handed: &mut [u64])
        requires shape { s.now.shape ≡ self.old.params }
        requires part { self.old.frames ≡ 0 }
        requires none { handed.old ≡ replicate self.old.params.l 0 }
        requires place { place < 1024 }
        requires count { self.old.begun + 8 ≤ 4294967295 }
        ensures handed { Hands s.now self.old self.new place
            (octets_per_tick self.old.params) handed.new }
        ensures small { All (λ v. v < 256 ^ octets_per_tick self.old.params) handed.new }
    {
        let (size, per_tick) = (self.size, self.per_tick);
        let mut at = place_in_frame(per_tick * place, size);
        let mut done = 0;
        while done < per_tick {
            let count = (size - at).min(per_tick - done);
            self.hand_octets(s, at, count, handed);
            done += count;
            // where the tick has more octets, the next one begins a frame
            at = 0;
        }
    }

    // The next octets of each lane: `count` of a frame, from octet `at` of it on.
    #[inline(always)]
    fn hand_octets(&mut self, s: &Scenario, at: u32, count: u32, handed: &mut [u64])
        requires shape { s.now.shape ≡ self.old.params }
        requires part { self.old.frames ≡ 0 }
        requires lanes { length handed.old ≡ self.old.params.l }
        requires at { at + count ≤ self.old.params.f }
        requires few { count ≤ 8 }
        requires count { self.old.begun < 4294967295 }
        requires small { All (λ v. v < 256 ^ (8 - count)) handed.old }
        ensures handed { handed.new
            ≡ with_octets self.new.octets self.new.params.f at count handed.old }
        ensures small { (m : ℕ) → All (λ v. v < m) handed.old
            → All (λ v. v < m * 256 ^ count) handed.new }
        ensures fed { (plan : Plan) (n : ℕ) → plan_of s.now ≡ Some plan → HasFed self.old plan n
            → HasFed self.new plan (n + (if at == 0 then 1 else 0)) }
        ensures same { self.new.params ≡ self.old.params }
        ensures frames { self.new.frames ≡ self.old.frames }
        ensures count { self.new.begun ≤ self.old.begun + 1 }
    {
        if at == 0 {
            self.begin(s);
        }
        let size = self.size as usize;
        add_octets(&self.octets, size, at as usize, count as usize, handed);
    }

    // The next source frame begins.
    #[inline(always)]
    fn begin(&mut self, s: &Scenario)
        requires count { self.old.begun < 4294967295 }
        requires shape { s.now.shape ≡ self.old.params }
        requires part { self.old.frames ≡ 0 }
        ensures same { self.new.params ≡ self.old.params }
        ensures frames { self.new.frames ≡ self.old.frames }
        ensures count { self.new.begun ≡ self.old.begun + 1 }
        ensures fed { (plan : Plan) (n : ℕ) → plan_of s.now ≡ Some plan → HasFed self.old plan n
            → HasFed self.new plan (n + 1) }
    {
        self.lay_out(s, self.begun);
        self.begun += 1;
    }

    // Writes the words and the octets of a source frame. A scenario with no link has none, and
    // nothing is written.
    #[inline(always)]
    fn lay_out(&mut self, s: &Scenario, number: u32)
        requires shape { s.now.shape ≡ self.old.params }
        requires part { self.old.frames ≡ 0 }
        ensures same { self.new.params ≡ self.old.params }
        ensures frames { self.new.frames ≡ self.old.frames }
        ensures count { self.new.begun ≡ self.old.begun }
        ensures octets { (plan : Plan) → plan_of s.now ≡ Some plan
            → self.new.octets ≡ frame_of plan.link.params (source_frame plan number) }
    {
        if s.link.is_none() {
            return;
        }
        // for what they ensure: some words have one frame, and the shape obeys its laws
        layout_laws();
        let _params = s.shape.params();
        source_frame(s, u64::from(number), &mut self.words);
        self.layout.map(&self.words, &mut self.octets);
    }
}
