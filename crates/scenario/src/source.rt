//! The frames that go into a run.
ghost use Rattle.std.specs.Prelude.{◌≡◌, ℕ, ◌<◌, ◌≤◌, ◌+◌, ◌*◌, ◌/◌, ◌%◌, ◌^◌, length, take, drop, map, Some, IsTrue};
ghost use Rattle.scenario.specs.Limits.{has_words};
ghost use Rattle.scenario.specs.Plans.{Plan, frame_of_source, numbers_from, plan_of, source_frame, source_in};

use crate::input::Input;
use crate::scenario_type::Scenario;

/// Writes the M·S words of source frame `n`, counted from 0: those of the frames of the input,
/// again and again, or of the ramp. `words` has M·S places, and the input is a ramp or has a frame
/// at least, as in every scenario of a run.
#[inline(always)]
pub fn source_frame(s: &Scenario, n: u64, words: &mut [u32])
    requires size { length words.old ≡ s.now.shape.m * s.now.shape.s }
    requires some { IsTrue (has_words s.now.input) }
    ensures source { words.new ≡ frame_of_source s.now.shape (source_in s.now.input) n }
    ensures plan { (plan : Plan) → plan_of s.now ≡ Some plan → words.new ≡ source_frame plan n }
{
    match &s.input {
        Input::Ramp { start, step } => {
            let before = n.wrapping_mul(words.len() as u64);
            ramp_from(*start, *step, before, s.shape.word_bits(), words);
        }
        Input::Frames(frames) => {
            // for what it ensures: a frame has a word at least
            let _size = s.shape.frame_words();
            repeated_frame(frames, n, words);
        }
    }
}

/// Writes the words of some source frames from frame `n` on, one frame after the other, each as
/// `source_frame` writes it. `words` has M·S places for each of them, and their numbers are below
/// 2^32. The input is a ramp or has a frame at least, as in every scenario of a run.
#[inline(always)]
pub fn source_frames(s: &Scenario, n: u64, words: &mut [u32])
    ghost count: { ℕ }
    requires size { length words.old ≡ count * (s.now.shape.m * s.now.shape.s) }
    requires some { IsTrue (has_words s.now.input) }
    requires few { n + count ≤ 2 ^ 32 }
    ensures source { (i : ℕ) → i < count → take (s.now.shape.m * s.now.shape.s)
        (drop (i * (s.now.shape.m * s.now.shape.s)) words.new)
        ≡ frame_of_source s.now.shape (source_in s.now.input) (n + i) }
    ensures plan { (plan : Plan) → plan_of s.now ≡ Some plan → (i : ℕ) → i < count
        → take (s.now.shape.m * s.now.shape.s)
        (drop (i * (s.now.shape.m * s.now.shape.s)) words.new) ≡ source_frame plan (n + i) }
{
    let size = s.shape.frame_words() as usize;
    match &s.input {
        Input::Ramp { start, step } => {
            let before = n.wrapping_mul(size as u64);
            ramp_from(*start, *step, before, s.shape.word_bits(), words);
        }
        Input::Frames(frames) => repeated_frames(frames, size, n, words),
    }
}

// Words of a ramp from word `before` on, modulo 2^bits.
#[inline(always)]
fn ramp_from(start: u32, step: u32, before: u64, bits: u32, words: &mut [u32])
    requires { bits ≤ 32 }
    ensures { (p : ℕ) → before ≡ p % 2 ^ 64
        → words.new ≡ map (λ k. (start + step * (p + k)) % 2 ^ bits) (numbers_from 0 (length words.old)) }
{
    let first = (start as u64).wrapping_add((step as u64).wrapping_mul(before));
    ramp_words(first, step, bits, words);
}

// Words from `first` on by `step`, modulo 2^bits.
#[inline(always)]
pub(crate) fn ramp_words(first: u64, step: u32, bits: u32, words: &mut [u32])
    requires { bits ≤ 32 }
    ensures { words.new ≡ map (λ k. (first + step * k) % 2 ^ bits)
        (numbers_from 0 (length words.old)) }
{
    let mask = (1u64 << bits) - 1;
    // a word alone needs no loop
    if words.len() == 1 {
        words[0] = (first & mask) as u32;
        return;
    }
    let mut value = first;
    for word in words.iter_mut() {
        *word = (value & mask) as u32;
        value = value.wrapping_add(step as u64);
    }
}

// The words of frame `n` modulo the number of frames; `words` is as long as a frame.
pub(crate) fn repeated_frame(frames: &[u32], n: u64, words: &mut [u32])
    requires { 1 ≤ length words.old }
    ensures { length words.old ≤ length frames.now
        → words.new ≡ take (length words.old)
        (drop (n % (length frames.now / length words.old) * length words.old) frames.now) }
{
    let size = words.len();
    let count = frames.len() / size;
    if count > 0 {
        let frame = (n % count as u64) as usize;
        words.copy_from_slice(&frames[frame * size..(frame + 1) * size]);
    }
}

// The words of the frames from frame `n` on, each modulo the number of frames. A frame has `size`
// words.
fn repeated_frames(frames: &[u32], size: usize, n: u64, words: &mut [u32])
    ghost count: { ℕ }
    requires some { 1 ≤ size }
    requires size { length words.old ≡ count * size }
    requires few { n + count ≤ 2 ^ 32 }
    requires long { size ≤ length frames.now }
    ensures { (i : ℕ) → i < count → take size (drop (i * size) words.new)
        ≡ take size (drop ((n + i) % (length frames.now / size) * size) frames.now) }
{
    for i in 0..words.len() / size {
        let at = i * size;
        repeated_frame(frames, n + i as u64, &mut words[at..at + size]);
    }
}
