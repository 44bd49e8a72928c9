//! Tests.
ghost use Rattle.std.specs.Prelude.{◌<◌, ◌≤◌, ◌^◌};

use crate::{Place, PlaceHunt, SyncRead, read_sync, sync_word};
use block_66b::{BitWindow, pack};
use link_params::Mode;

#[test]
fn sync_words_of_both_modes(rt: HostRuntime) {
    for (mode, check, end, word) in [
        (Mode::CCrc, 0x30f, true, 0x393f_1701),
        (Mode::CFec, 0x22_0211, false, 0x0880_8421),
    ] {
        assert_eq!(rt; sync_word(mode, check, 0, end), word);
        let read = SyncRead {
            check,
            cmd: 0,
            end,
            pilot: true,
        };
        assert_eq!(rt; read_sync(mode, word), read);
    }
}

// A block of a stream of multiblocks with no payload, which begins with this multiblock of an extended one.
fn block(e: u32, first: u32, n: u32) -> u128
    requires low { 1 ≤ e }
    requires first { first < 32 }
    requires count { n < 1000 }
    ensures { result < 2 ^ 66 }
{
    let end = (first + n / 32) % e == e - 1;
    let word = sync_word(Mode::CCrc, 0, 0, end);
    pack((word >> (31 - n % 32)) & 1 == 1, 0)
}

#[test]
fn hunts(rt: HostRuntime) {
    for (e, first, zeros, tick, rest, next) in [
        (1u32, 0u32, 0u8, 127u32, 0u8, 0u32),
        (1, 0, 3, 128, 63, 0),
        (2, 0, 0, 127, 0, 0),
        (3, 0, 0, 127, 0, 32),
        (5, 0, 0, 159, 0, 0),
        (2, 1, 0, 127, 0, 32),
        (3, 1, 0, 127, 0, 64),
        (5, 1, 0, 159, 0, 32),
    ] {
        let mut hunt = PlaceHunt::new(e);
        let mut line = BitWindow::new(zeros);
        for n in 0..tick {
            let word = line.push(block(e, first, n));
            assert!(rt; hunt.push(word).is_none(), "at {n} with {e}");
        }
        let word = line.push(block(e, first, tick));
        assert_eq!(rt; hunt.push(word), Some(Place { rest, next }), "with {e}");
    }
}

#[test]
fn goes_on_within_a_tick(rt: HostRuntime) {
    let mut hunt = PlaceHunt::resume(1, block(1, 0, 0), 65);
    for n in 1..159u32 {
        assert!(rt; hunt.push(block(1, 0, n)).is_none(), "at {n}");
    }
    let found = hunt.push(block(1, 0, 159));
    assert_eq!(rt; found, Some(Place { rest: 0, next: 0 }));
    if let Some(place) = found {
        let mut window = BitWindow::new(place.rest);
        let next = block(1, 0, 160);
        assert_eq!(rt; window.push(next), next);
    }
}
