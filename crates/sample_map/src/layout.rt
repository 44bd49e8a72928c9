//! The layout of a frame.
ghost use Rattle.std.specs.Prelude.{◌≡◌, ℕ, ◌+◌, ◌*◌, ◌^◌, ◌<◌, drop, length, slice_index, take};
ghost use Rattle.sample_map.specs.Layout.{AreWords, IsFrame};

use crate::grid::Grid;
use link_params::Shape;
use std::marker::Model;

/// Where the bits of a frame's words stand among the octets of its lanes (JESD204B.01 clause 5.1, transport layer).
/// Contracts see it as the parameters of its shape.
#[derive(Drop)]
pub struct Layout {
    shape: Shape,
    grid: Grid,
}

impl Model for Layout {
    ghost use Rattle.std.specs.Prelude.{◌≡◌, None};
    ghost use Rattle.link_params.specs.declared.fields.Params.{Params};
    ghost use Rattle.link_params.specs.Laws.{broken_law};
    ghost use Rattle.sample_map.specs.kept.Groups.{grouping};
    ghost use Rattle.sample_map.specs.kept.Grids.{sizes};

    ghost Value = { Params };

    ghost view = { λ s. s.shape };

    ghost invariant = { λ s. (sizes s.grid ≡ grouping s.shape) × (broken_law s.shape ≡ None) };
}

impl Layout {
    /// The layout of a shape.
    pub fn new(shape: &Shape) -> Layout
        ensures { result ≡ shape.now }
    {
        Layout {
            shape: *shape,
            grid: Grid::of(shape),
        }
    }

    /// Writes the octets of a frame, lane 0's first.
    ///
    /// `words` are the M·S words of the frame, converter 0 sample 0 first, then its next sample; a word is
    /// `sample·2^CS + control`. `out` has L·F octets; tail bits are written as 0.
    #[inline(always)]
    pub fn map(&self, words: &[u32], out: &mut [u8])
        requires words { length words.now ≡ self.now.m * self.now.s }
        requires below { (r : ℕ) → r < self.now.m * self.now.s → slice_index words.now r < 2 ^ (self.now.n + self.now.cs) }
        requires octets { length out.old ≡ self.now.l * self.now.f }
        ensures { IsFrame self.now words.now out.new }
    {
        self.grid.write_octets(words, out);
    }

    /// Writes the octets of n frames, one frame after the other, each as `map` writes it.
    ///
    /// `words` are the n·M·S words of the frames, all those of the first frame first. `octets` has n·L·F places.
    #[inline(always)]
    pub fn map_frames(&self, words: &[u32], octets: &mut [u8])
        ghost n: { ℕ }
        requires words { length words.now ≡ n * (self.now.m * self.now.s) }
        requires below { (r : ℕ) → r < length words.now
            → slice_index words.now r < 2 ^ (self.now.n + self.now.cs) }
        requires octets { length octets.old ≡ n * (self.now.l * self.now.f) }
        ensures { (i : ℕ) → i < n → IsFrame self.now
            (take (self.now.m * self.now.s) (drop (i * (self.now.m * self.now.s)) words.now))
            (take (self.now.l * self.now.f) (drop (i * (self.now.l * self.now.f)) octets.new)) }
    {
        self.grid.write_octets(words, octets);
    }

    /// Reads the words of a frame from its octets, lane 0's first. Tail bits are ignored.
    ///
    /// `octets` are L·F octets, `words` has M·S places.
    pub fn unmap(&self, octets: &[u8], words: &mut [u32])
        requires octets { length octets.now ≡ self.now.l * self.now.f }
        requires words { length words.old ≡ self.now.m * self.now.s }
        ensures { AreWords self.now octets.now words.new }
    {
        self.grid.write_words(octets, words);
    }
}
