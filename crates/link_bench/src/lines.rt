//! The lines that `map` and `unmap` write.
ghost use Rattle.std.specs.Prelude.{◌≡◌, ◌≤◌, ◌<◌, ◌++◌, ◌*◌, ◌/◌, ◌%◌, ◌+◌, ◌^◌, ℕ, length, IfOk, OnOk, slice_index};
ghost use Rattle.sample_map.specs.Layout.{AreWords, IsFrame};
ghost use Rattle.link_bench.specs.Lines.{IsMapped, IsUnmapped, frame_line, octets_line};

use crate::digits::{push_lane, push_word};
use link_params::Shape;
use sample_map::Layout;
use std::alloc::{AllocError, Global};

/// Appends the line of the octets of one frame; `digits` has room for those of a lane.
fn push_octets_line(
    text: &mut Vec<u8>,
    digits: &mut [u8],
    shape: &Shape,
    octets: &[u8],
) -> Result<(), AllocError>
    requires digits { length digits.old ≡ 2 * shape.now.f }
    requires octets { length octets.now ≡ shape.now.l * shape.now.f }
    ensures { OnOk result (text.new.items ≡ text.old.items ++ octets_line shape.now octets.now) }
{
    let size = shape.frame_octets() as usize;
    text.extend_from_slice(b"octets")?;
    for lane in 0..shape.lanes() as usize {
        push_lane(text, digits, &octets[lane * size..(lane + 1) * size])?;
    }
    text.push(b'\n')?;
    Ok(())
}

/// Appends the line of the words of one frame.
fn push_frame_line(text: &mut Vec<u8>, shape: &Shape, words: &[u32]) -> Result<(), AllocError>
    ensures { OnOk result (text.new.items ≡ text.old.items ++ frame_line shape.now words.now) }
{
    let digits = shape.word_bits().div_ceil(4);
    text.extend_from_slice(b"frame")?;
    for word in words {
        text.push(b',')?;
        push_word(text, *word, digits)?;
    }
    text.push(b'\n')?;
    Ok(())
}

/// A vector of so many zeros.
fn zeros<T: Copy>(alloc: Global, zero: T, count: usize) -> Result<Vec<T>, AllocError>
    ensures { IfOk result (λ v. length v.items ≡ count) }
{
    vec![in alloc; zero; count]
}

/// The lines of `map`: the octets of each frame of words.
pub(crate) fn mapped(alloc: Global, shape: &Shape, words: &[u32]) -> Result<Vec<u8>, AllocError>
    requires whole { length words.now % (shape.now.m * shape.now.s) ≡ 0 }
    requires below { (r : ℕ) → r < length words.now
        → slice_index words.now r < 2 ^ (shape.now.n + shape.now.cs) }
    ensures { IfOk result (λ text. IsMapped shape.now words.now text.items) }
{
    let layout = Layout::new(shape);
    let size = shape.frame_words() as usize;
    let mut octets = zeros(alloc, 0u8, (shape.lanes() * shape.frame_octets()) as usize)?;
    let mut digits = zeros(alloc, 0u8, 2 * shape.frame_octets() as usize)?;
    let mut text = Vec::new(alloc);
    for frame in 0..words.len() / size {
        layout.map(&words[frame * size..(frame + 1) * size], &mut octets);
        push_octets_line(&mut text, &mut digits, shape, &octets)?;
    }
    Ok(text)
}

/// The lines of `unmap`: the words of each frame's octets.
pub(crate) fn unmapped(alloc: Global, shape: &Shape, octets: &[u8]) -> Result<Vec<u8>, AllocError>
    requires { length octets.now % (shape.now.l * shape.now.f) ≡ 0 }
    ensures { IfOk result (λ text. IsUnmapped shape.now octets.now text.items) }
{
    let layout = Layout::new(shape);
    let size = (shape.lanes() * shape.frame_octets()) as usize;
    let mut words = zeros(alloc, 0u32, shape.frame_words() as usize)?;
    let mut text = Vec::new(alloc);
    for frame in 0..octets.len() / size {
        layout.unmap(&octets[frame * size..(frame + 1) * size], &mut words);
        push_frame_line(&mut text, shape, &words)?;
    }
    Ok(text)
}
