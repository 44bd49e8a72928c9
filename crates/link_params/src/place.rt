//! Places in a period.
ghost use Rattle.std.specs.Prelude.{◌≡◌, ◌≤◌, ◌<◌, ◌%◌, suc};

/// The place that follows this one in a multiframe or an extended multiblock of `period` places,
/// which are counted from 0.
pub fn place_after(place: u32, period: u32) -> u32
    requires { 1 ≤ period }
    ensures next { place < period → result ≡ suc place % period }
    ensures below { result < period }
{
    if place < period - 1 { place + 1 } else { 0 }
}

/// The place in its frame of an octet of a lane, where both are counted from 0 and a frame has
/// `size` octets of the lane. The sizes are mostly powers of two, and those need no division.
pub fn place_in_frame(octet: u32, size: u32) -> u32
    requires { 1 ≤ size }
    ensures value { result ≡ octet % size }
    ensures below { result < size }
{
    match size {
        1 => 0,
        2 => octet % 2,
        4 => octet % 4,
        8 => octet % 8,
        16 => octet % 16,
        32 => octet % 32,
        64 => octet % 64,
        128 => octet % 128,
        256 => octet % 256,
        _ => octet % size,
    }
}
