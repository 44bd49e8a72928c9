//! The parts of the transmitter, tick by tick.
use crate::alignment::Alignment;
use crate::sending::Sending;
use crate::sync_line::SyncLine;
use link_params::{Mode, TxOrder};
use std::test::Fail;

fn data_at(place: u32, first: bool) -> TxOrder {
    TxOrder::Data { place, first }
}

fn block_at(place: u32, first: bool) -> TxOrder {
    TxOrder::Block { place, first }
}

#[test]
fn starts_at_the_boundary_after_sync(rt: HostRuntime) {
    let rows = [
        (None, false, TxOrder::Comma),
        (Some(0), false, TxOrder::Comma),
        (Some(1), true, TxOrder::Comma),
        (Some(0), true, TxOrder::Comma),
        (Some(1), false, TxOrder::Comma),
        (Some(0), false, TxOrder::Ilas(0)),
        (Some(1), true, TxOrder::Comma),
    ];
    let mut sending = Sending::new(Mode::B);
    for (phase, low, order) in rows {
        assert_eq!(rt; sending.tick(2, phase, low), order);
    }
}

#[test]
fn sends_four_multiframes_and_then_data(rt: HostRuntime) {
    let mut sending = Sending::Octets(Alignment::Synchronizing);
    for x in 0..8 {
        assert_eq!(rt; sending.tick(2, Some(x % 2), false), TxOrder::Ilas(x));
    }
    let rows = [
        (Some(0), false, data_at(0, true)),
        (Some(1), false, data_at(1, false)),
        (Some(0), false, data_at(0, false)),
        (Some(1), true, TxOrder::Comma),
        (Some(0), false, TxOrder::Ilas(0)),
    ];
    for (phase, low, order) in rows {
        assert_eq!(rt; sending.tick(2, phase, low), order);
    }
}

#[test]
fn sends_blocks_from_the_first_edge_on(rt: HostRuntime) {
    let rows = [
        (None, false, TxOrder::Silent),
        (None, true, TxOrder::Silent),
        (Some(0), true, block_at(0, true)),
        (Some(1), false, block_at(1, false)),
        (Some(0), true, block_at(0, false)),
    ];
    let mut sending = Sending::new(Mode::CFec);
    for (phase, low, order) in rows {
        assert_eq!(rt; sending.tick(2, phase, low), order);
    }
}

#[test]
fn sees_the_level_a_tick_later(rt: HostRuntime) -> Result<(), Fail> {
    let mut line = SyncLine::open(rt.alloc(), 0).ok().ok_or("memory")?;
    for (seen, low) in [
        (true, false),
        (false, true),
        (true, true),
        (true, false),
        (false, false),
    ] {
        assert_eq!(rt; line.is_low(), seen);
        line.push(low);
    }
    Ok(())
}

#[test]
fn sees_the_level_three_ticks_later(rt: HostRuntime) -> Result<(), Fail> {
    let mut line = SyncLine::open(rt.alloc(), 2).ok().ok_or("memory")?;
    for (seen, low) in [
        (true, false),
        (true, true),
        (true, false),
        (false, false),
        (true, true),
        (false, true),
    ] {
        assert_eq!(rt; line.is_low(), seen);
        line.push(low);
    }
    Ok(())
}
