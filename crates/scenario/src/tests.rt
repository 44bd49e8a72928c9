//! Tests.
use crate::{
    Event, Flip, Input, Jitter, Job, Print, Scenario, ScenarioFault, What, read_scenario,
    source_frame, source_frames,
};
use link_params::Device;
use std::alloc::{AllocError, Global};
use std::test::Fail;

const MIB_4: usize = 4194304;

pub fn read(alloc: Global, job: Job, text: &[u8]) -> Result<Scenario, ScenarioFault> {
    if text.len() > MIB_4 {
        return Err(ScenarioFault::NoMemory);
    }
    read_scenario(alloc, job, text)
}

fn refusal(alloc: Global, job: Job, text: &[u8]) -> Option<(u32, u8, u32)> {
    match read(alloc, job, text) {
        Err(ScenarioFault::Bad { row, cause, at }) => Some((row, cause, at)),
        _ => None,
    }
}

#[test]
fn what_accepted_inputs_say(rt: HostRuntime) {
    let alloc = rt.alloc();
    let table: [(Job, &[u8], &[u32], &[u8]); 9] = [
        (
            Job::Map,
            b"jesd,1\nlink,b,1,1,8,5,12,12,0,0,0,3,0\nframe,123,456,789,ABC,DEF\n",
            &[0x123, 0x456, 0x789, 0xabc, 0xdef],
            &[],
        ),
        (
            Job::Unmap,
            b"jesd,1\nlink,b,1,1,8,5,12,12,0,0,0,3,0\noctets,123456789abcdef0\n",
            &[],
            &[0x12, 0x34, 0x56, 0x78, 0x9a, 0xbc, 0xde, 0xf0],
        ),
        (
            Job::Map,
            b"jesd,2\nlink,b,1,1,8,5,12,12,0,0,0,3,0\nframe,123,456,789,ABC,DEF\n",
            &[0x123, 0x456, 0x789, 0xabc, 0xdef],
            &[],
        ),
        (
            Job::Map,
            b"jesd,1\nlink,b,2,1,1,1,16,16,0,1,0,17,0\nframe,a55a\n",
            &[0xa55a],
            &[],
        ),
        (
            Job::Map,
            b"jesd,1\nlink,b,1,1,1,1,8,8,0,0,0,17,0\n",
            &[],
            &[],
        ),
        // a byte order mark, blanks round fields, quotes, digits of both cases, blank lines, no
        // line break at the end
        (
            Job::Map,
            b"\xef\xbb\xbfjesd , 1\n\r\nlink,\tb,1,2 ,2,\"1\",8,8,0,0,0, 0000000017,0\rframe,a5 ,0000005A\n\nframe,Fe,\"eF \"",
            &[0xa5, 0x5a, 0xfe, 0xef],
            &[],
        ),
        (
            Job::Unmap,
            b"jesd,1\nlink,b,2,2,1,1,8,8,0,0,0,17,0\noctets,aB,Cd\noctets, 00,fF\t\n",
            &[],
            &[0xab, 0xcd, 0x00, 0xff],
        ),
        // the largest word of 32 bits, and 64b/66b lanes
        (
            Job::Map,
            b"jesd,1\nlink,ccrc,1,1,4,1,30,32,2,0,1,0,1\nframe,FFFFFFFF\n",
            &[0xffff_ffff],
            &[],
        ),
        (
            Job::Unmap,
            b"jesd,1\nlink,cfec,1,1,1,1,8,8,0,0,1,0,32\n",
            &[],
            &[],
        ),
    ];
    for (job, text, words, octets) in table {
        let Ok(scenario) = read(alloc, job, text) else {
            assert!(rt; false, "refused");
            return;
        };
        let Input::Frames(got) = &scenario.input else {
            assert!(rt; false, "no frames");
            return;
        };
        assert_eq!(rt; got.as_slice(), words);
        assert_eq!(rt; scenario.octets.as_slice(), octets);
    }
}

#[test]
fn where_bad_inputs_are_wrong(rt: HostRuntime) {
    let alloc = rt.alloc();
    let table: [(Job, &[u8], (u32, u8, u32)); 53] = [
        // 1: no record
        (Job::Map, b"", (0, 1, 0)),
        (Job::Unmap, b"\n\r\n\n", (0, 1, 0)),
        (Job::Map, b"\xef\xbb\xbf", (0, 1, 0)),
        // 2: the version
        (Job::Map, b"jesd,3\n", (1, 2, 1)),
        (Job::Map, b"jesd,01\n", (1, 2, 1)),
        (Job::Unmap, b"link,b,1,1,8,5,12,12,0,0,0,3,0\n", (1, 2, 0)),
        (Job::Map, b"foo\n", (1, 2, 0)),
        (Job::Map, b"Jesd,1\n", (1, 2, 0)),
        // 3: a kind that may not stand here
        (Job::Map, b"jesd,1\njesd,1\n", (2, 3, 0)),
        (Job::Map, b"jesd,1\nframe,1\n", (2, 3, 0)),
        (
            Job::Map,
            b"jesd,1\nlink,b,1,1,8,5,12,12,0,0,0,3,0\nlink,b,1,1,8,5,12,12,0,0,0,3,0\n",
            (3, 3, 0),
        ),
        (
            Job::Map,
            b"jesd,1\nlink,b,1,1,8,5,12,12,0,0,0,3,0\noctets,123456789abcdef0\n",
            (3, 3, 0),
        ),
        (
            Job::Unmap,
            b"jesd,1\nlink,b,1,1,8,5,12,12,0,0,0,3,0\nframe,123,456,789,ABC,DEF\n",
            (3, 3, 0),
        ),
        (
            Job::Map,
            b"jesd,1\nlink,b,1,1,8,5,12,12,0,0,0,3,0\ntiming\n",
            (3, 3, 0),
        ),
        (
            Job::Map,
            b"jesd,2\nlink,b,1,1,8,5,12,12,0,0,0,3,0\nwire,0\n",
            (3, 3, 0),
        ),
        (Job::Unmap, b"jesd,2\nroute,0\n", (2, 3, 0)),
        (Job::Unmap, b"jesd,2\npolarity\n", (2, 3, 0)),
        (Job::Map, b"jesd,2\nsubclass,1\n", (2, 4, 0)),
        // 4: no such kind
        (
            Job::Map,
            b"jesd,1\nlink,b,1,1,8,5,12,12,0,0,0,3,0\nwire,0\n",
            (3, 4, 0),
        ),
        (
            Job::Map,
            b"jesd,2\nlink,b,1,1,8,5,12,12,0,0,0,3,0\nfoo,1\n",
            (3, 4, 0),
        ),
        (
            Job::Map,
            b"jesd,1\nlink,b,1,1,8,5,12,12,0,0,0,3,0\nfoo,1\n",
            (3, 4, 0),
        ),
        (Job::Unmap, b"jesd,1\nLink\n", (2, 4, 0)),
        (
            Job::Map,
            b"jesd,1\nlink,b,1,1,8,5,12,12,0,0,0,3,0\n \n",
            (3, 4, 0),
        ),
        // 5: the number of fields
        (Job::Map, b"jesd\n", (1, 5, 1)),
        (Job::Map, b"jesd,2,1\n", (1, 5, 3)),
        (Job::Map, b"jesd,1\nlink,b,1\n", (2, 5, 3)),
        (
            Job::Map,
            b"jesd,1\nlink,b,1,1,1,1,8,8,0,0,0,17,0,0\n",
            (2, 5, 14),
        ),
        (
            Job::Map,
            b"jesd,1\nlink,b,1,1,1,1,8,8,0,0,0,17,0\nframe,1,x\n",
            (3, 5, 3),
        ),
        (
            Job::Unmap,
            b"jesd,1\nlink,b,1,1,1,1,8,8,0,0,0,17,0\noctets\n",
            (3, 5, 1),
        ),
        // 6: a written form
        (
            Job::Map,
            b"jesd,1\nlink,B,1,1,1,1,8,8,0,0,0,17,x\n",
            (2, 6, 1),
        ),
        (
            Job::Map,
            b"jesd,1\nlink,b,+1,1,1,1,,8,0,0,0,17,0\n",
            (2, 6, 2),
        ),
        (
            Job::Map,
            b"jesd,1\nlink,b,4294967296,1,1,1,8,8,0,0,0,17,0\n",
            (2, 6, 2),
        ),
        (
            Job::Map,
            b"jesd,1\nlink,b,1,00000000001,1,1,8,8,0,0,0,17,0\n",
            (2, 6, 3),
        ),
        (
            Job::Map,
            b"jesd,1\nlink,b,1,1,1,1,8,8,0,2,0,17,1 0\n",
            (2, 6, 12),
        ),
        (
            Job::Map,
            b"jesd,1\nlink,b,1,1,8,5,12,12,0,0,0,3,0\nframe,FFFF,456,,ABC,g\n",
            (3, 6, 3),
        ),
        (
            Job::Map,
            b"jesd,1\nlink,b,1,1,1,1,8,8,0,0,0,17,0\nframe,000000001\n",
            (3, 6, 1),
        ),
        (
            Job::Unmap,
            b"jesd,1\nlink,b,2,2,1,1,8,8,0,0,0,17,0\noctets,12,1\n",
            (3, 6, 2),
        ),
        (
            Job::Unmap,
            b"jesd,1\nlink,b,2,2,1,1,8,8,0,0,0,17,0\noctets,1g,123\n",
            (3, 6, 1),
        ),
        // 7: a range
        (
            Job::Map,
            b"jesd,1\nlink,b,0,1,1,1,8,8,0,2,2,17,0\n",
            (2, 7, 9),
        ),
        (
            Job::Map,
            b"jesd,1\nlink,b,0,1,1,1,8,8,0,0,2,17,0\n",
            (2, 7, 10),
        ),
        (
            Job::Map,
            b"jesd,1\nlink,b,1,1,8,5,12,12,0,0,0,3,0\nframe,123,456,1000,ABC,FFFF\n",
            (3, 7, 3),
        ),
        (
            Job::Map,
            b"jesd,1\nlink,b,1,1,1,1,8,8,0,0,0,17,0\nframe,ff\nframe,100\n",
            (4, 7, 1),
        ),
        // 8: a law
        (
            Job::Map,
            b"jesd,1\nlink,b,4294967295,0,1,1,8,8,0,0,0,17,0\n",
            (2, 8, 1),
        ),
        (
            Job::Map,
            b"jesd,1\nlink,b,2,1,1,1,16,16,0,0,0,17,0\nframe,a55a\n",
            (2, 8, 9),
        ),
        (
            Job::Map,
            b"jesd,1\nlink,b,1,1,2,1,14,16,3,0,0,9,0\n",
            (2, 8, 8),
        ),
        (
            Job::Map,
            b"jesd,1\nlink,b,1,1,1,1,8,8,0,0,0,16,0\n",
            (2, 8, 11),
        ),
        (
            Job::Unmap,
            b"jesd,1\nlink,ccrc,1,1,3,1,24,24,0,0,1,0,1\n",
            (2, 8, 12),
        ),
        // 11: required records are missing
        (Job::Map, b"jesd,1\n", (2, 11, 0)),
        (Job::Unmap, b"\n\njesd,1", (2, 11, 0)),
        // records are counted, and not lines
        (
            Job::Map,
            b"\n\njesd,1\n\r\n\nlink,b,1,1,1,1,8,8,0,0,0,17,0\n\n\nframe,a5\n\nfoo\n",
            (4, 4, 0),
        ),
        (
            Job::Map,
            b"jesd,1\rlink,b,1,1,1,1,8,8,0,0,0,17,0\r\nframe,\"a\n\n5\"\n",
            (3, 6, 1),
        ),
        (
            Job::Map,
            b"jesd,1\nlink,b,1,1,1,1,8,8,0,0,0,17,0\nframe,a5\n\"fr\n\name\",1\nfoo\n",
            (4, 4, 0),
        ),
        (
            Job::Unmap,
            b"jesd,1\nlink,b,1,1,8,5,12,12,0,0,0,3,0\noctets,\"1\n2\",\n",
            (3, 5, 3),
        ),
    ];
    for (job, text, due) in table {
        assert_eq!(rt; refusal(alloc, job, text), Some(due));
    }
}

// A run of 1,000 ticks, each of 10 bits on one lane, with a period of 64 ticks. Its words have 16
// bits.
const RUN: &[u8] =
    b"jesd,1\nlink,b,1,1,2,1,16,16,0,0,1,32,0\ntiming,128,2,8,120,7,30,5,20,30\nrun,1000,all\n";

fn run_text(alloc: Global, more: &[u8], times: u32) -> Result<Vec<u8>, AllocError> {
    let mut text = Vec::from_slice(alloc, RUN)?;
    for _ in 0..times {
        text.extend_from_slice(more)?;
    }
    Ok(text)
}

fn run_refusal(alloc: Global, more: &[u8], times: u32) -> Option<(u32, u8, u32)> {
    match run_text(alloc, more, times) {
        Ok(text) => refusal(alloc, Job::Run, &text),
        Err(_) => None,
    }
}

#[test]
fn what_a_run_says(rt: HostRuntime) {
    let more =
        b"ramp,65535,3\ndelay,900,0,630\nreset,5,rx\njitter,tx,1048576,-32\nflip,0,9990,10\ndead,900,0,1\nreset,5,tx\njitter,rx,0,032\nflip,0,0,1\ndead,0,0,0\n";
    let alloc = rt.alloc();
    let Ok(text) = run_text(alloc, more, 1) else {
        assert!(rt; false, "no memory");
        return;
    };
    let Ok(scenario) = read(alloc, Job::Run, &text) else {
        assert!(rt; false, "refused");
        return;
    };
    let events = [
        Event {
            tick: 0,
            what: What::Dead { lane: 0, on: false },
        },
        Event {
            tick: 5,
            what: What::Reset(Device::Rx),
        },
        Event {
            tick: 5,
            what: What::Reset(Device::Tx),
        },
        Event {
            tick: 900,
            what: What::Delay { lane: 0, bits: 630 },
        },
        Event {
            tick: 900,
            what: What::Dead { lane: 0, on: true },
        },
    ];
    let jitters = [
        Jitter {
            device: Device::Tx,
            edge: 1_048_576,
            sixteenths: -32,
        },
        Jitter {
            device: Device::Rx,
            edge: 0,
            sixteenths: 32,
        },
    ];
    let flips = [
        Flip {
            lane: 0,
            first: 9990,
            count: 10,
        },
        Flip {
            lane: 0,
            first: 0,
            count: 1,
        },
    ];
    assert_eq!(rt; scenario.events.as_slice(), events.as_slice());
    assert_eq!(rt; scenario.jitters.as_slice(), jitters.as_slice());
    assert_eq!(rt; scenario.flips.as_slice(), flips.as_slice());
    assert_eq!(rt; (scenario.ticks, scenario.print), (1000, Print::All));
    assert_eq!(rt; start_and_step(&scenario), Some((65535, 3)));
    assert_eq!(rt; first_edges(&scenario), Some((3, 10)));
}

pub fn start_and_step(scenario: &Scenario) -> Option<(u32, u32)> {
    match &scenario.input {
        Input::Ramp { start, step } => Some((*start, *step)),
        Input::Frames(_) => None,
    }
}

fn first_edges(scenario: &Scenario) -> Option<(u32, u32)> {
    match &scenario.link {
        Some(link) => Some((link.tx_edge(), link.rx_edge())),
        None => None,
    }
}

pub fn words_of_frames(scenario: &Scenario) -> &[u32] {
    match &scenario.input {
        Input::Ramp { .. } => &[],
        Input::Frames(words) => words.as_slice(),
    }
}

#[test]
fn what_goes_into_a_run(rt: HostRuntime) {
    let alloc = rt.alloc();
    let table: [(&[u8], Option<(u32, u32)>, &[u32]); 3] = [
        (b"", Some((0, 1)), &[]),
        (b"ramp,7,0\n", Some((7, 0)), &[]),
        (b"frame,7\nreset,0,tx\nframe,ffff\n", None, &[7, 0xffff]),
    ];
    for (more, ramp, words) in table {
        let Ok(text) = run_text(alloc, more, 1) else {
            assert!(rt; false, "no memory");
            return;
        };
        let Ok(scenario) = read(alloc, Job::Run, &text) else {
            assert!(rt; false, "refused");
            return;
        };
        assert_eq!(rt; start_and_step(&scenario), ramp);
        assert_eq!(rt; words_of_frames(&scenario), words);
    }
}

/// Whether the words of five frames of this scenario, from frame `first` on, are those of each.
fn frames_follow(alloc: Global, scenario: &Scenario, first: u16) -> Result<bool, Fail> {
    if scenario.link.is_none() {
        return Ok(false);
    }
    let size = scenario.shape.frame_words() as usize;
    let mut words = vec![in alloc; 0u32; 5 * size]?;
    source_frames(scenario, u64::from(first), &mut words);
    let mut word = vec![in alloc; 0u32; size]?;
    let mut all = true;
    for frame in 0..5 {
        source_frame(scenario, u64::from(first) + frame as u64, &mut word);
        all &= word.as_slice() == &words[frame * size..(frame + 1) * size];
    }
    Ok(all)
}

#[test]
fn frames_at_once_and_one_by_one(rt: HostRuntime) -> Result<(), Fail> {
    let table: [&[u8]; 4] = [
        b"",
        b"ramp,7,3\n",
        b"frame,7\n",
        b"frame,7\nframe,ffff\nframe,12\n",
    ];
    for (at, more) in table.iter().enumerate() {
        let text = run_text(rt.alloc(), more, 1)?;
        let scenario = read(rt.alloc(), Job::Run, &text).ok().ok_or("refused")?;
        for first in [0, 1, 65_534] {
            assert!(rt;
                frames_follow(rt.alloc(), &scenario, first)?,
                "at {at} from {first}"
            );
        }
    }
    Ok(())
}

#[test]
fn where_bad_runs_are_wrong(rt: HostRuntime) {
    let alloc = rt.alloc();
    let table: [(&[u8], (u32, u8, u32)); 9] = [
        (b"jesd,1\nlink,ccrc,1,1,4,1,30,32,2,0,1,0,1\n", (3, 11, 0)),
        (b"jesd,1\nlink,ccrc,1,1,3,1,24,24,0,0,1,0,1\n", (2, 8, 12)),
        (
            b"jesd,1\nlink,b,1,1,2,1,16,16,0,0,1,32,0\nrun,1000,all\n",
            (3, 3, 0),
        ),
        (
            b"jesd,1\nlink,b,1,1,2,1,16,16,0,0,1,32,0\ntiming,128,2,8,120,7,20,5,20,30\n",
            (3, 8, 17),
        ),
        (
            b"jesd,1\nlink,b,1,1,2,1,16,16,0,0,1,32,0\ntiming,128,2,8,120,7,30,5,20,30\nrun,0,all\n",
            (4, 7, 1),
        ),
        (
            b"jesd,1\nlink,b,1,1,2,1,16,16,0,0,1,32,0\ntiming,128,2,8,120,7,30,5,20,30\nrun,0,most\n",
            (4, 6, 2),
        ),
        (
            b"jesd,1\nlink,b,8,8,2,1,16,16,0,0,1,32,0\ntiming,128,2,8,120,7,30,5,20,30\nrun,1048576,none\n",
            (4, 9, 1),
        ),
        // the end comes too soon
        (b"jesd,1\nlink,b,1,1,2,1,16,16,0,0,1,32,0\n", (3, 11, 0)),
        (
            b"jesd,1\nlink,b,1,1,2,1,16,16,0,0,1,32,0\ntiming,128,2,8,120,7,30,5,20,30\n",
            (4, 11, 0),
        ),
    ];
    for (text, due) in table {
        assert_eq!(rt; refusal(alloc, Job::Run, text), Some(due));
    }
}

#[test]
fn where_records_of_a_run_are_wrong(rt: HostRuntime) {
    let alloc = rt.alloc();
    let table: [(&[u8], u32, (u32, u8, u32)); 24] = [
        (b"link\n", 1, (5, 3, 0)),
        (b"octets,00\n", 1, (5, 3, 0)),
        (b"frame,1\nramp,0,1\n", 1, (6, 3, 0)),
        (b"ramp,0,1\nframe,1\n", 1, (6, 3, 0)),
        (b"ramp,0,1\n", 2, (6, 3, 0)),
        (b"wire,0\n", 1, (5, 4, 0)),
        (b"jitter,tx,0\n", 1, (5, 5, 3)),
        (b"reset,0,x\n", 1, (5, 6, 2)),
        (b"jitter,tx,0,--1\n", 1, (5, 6, 3)),
        (b"jitter,tx,0,-\n", 1, (5, 6, 3)),
        (b"ramp,65536,0\n", 1, (5, 7, 1)),
        (b"ramp,0,65536\n", 1, (5, 7, 2)),
        (b"delay,1000,0,0\n", 1, (5, 7, 1)),
        (b"delay,999,1,0\n", 1, (5, 7, 2)),
        (b"delay,999,0,631\n", 1, (5, 7, 3)),
        (b"dead,0,0,2\n", 1, (5, 7, 3)),
        (b"flip,0,10000,1\n", 1, (5, 7, 2)),
        (b"flip,0,9990,11\n", 1, (5, 7, 3)),
        (b"flip,0,0,0\n", 1, (5, 7, 3)),
        (b"jitter,tx,1048577,0\n", 1, (5, 7, 2)),
        (b"jitter,tx,0,33\n", 1, (5, 7, 3)),
        (b"jitter,tx,0,-33\n", 1, (5, 7, 3)),
        // the counts of all records
        (b"reset,0,tx\njitter,tx,0,0\n", 2049, (4101, 10, 0)),
        (b"flip,0,0,10000\n", 7, (11, 10, 0)),
    ];
    for (more, times, due) in table {
        assert_eq!(rt; run_refusal(alloc, more, times), Some(due));
    }
}

// The beginning of a run of two lanes, in either version, of seven bytes and more.
const TWO_LANES: &[u8] =
    b"jesd,2\nlink,b,2,2,2,1,16,16,0,0,1,32,0\ntiming,128,2,8,120,7,20,5,5,20\nrun,560,frames\n";

fn two_lanes(alloc: Global, version: &[u8], more: &[u8]) -> Result<Vec<u8>, AllocError> {
    let mut text = Vec::from_slice(alloc, version)?;
    text.extend_from_slice(&TWO_LANES[7..])?;
    text.extend_from_slice(more)?;
    Ok(text)
}

fn two_lanes_refusal(alloc: Global, version: &[u8], more: &[u8]) -> Option<(u32, u8, u32)> {
    match two_lanes(alloc, version, more) {
        Ok(text) => refusal(alloc, Job::Run, &text),
        Err(_) => None,
    }
}

#[test]
fn how_lanes_are_wired(rt: HostRuntime) {
    let alloc = rt.alloc();
    let table: [(&[u8], [u32; 2], [u32; 2], [bool; 2]); 7] = [
        (b"", [0, 1], [0, 1], [false, false]),
        (b"wire,1,0\n", [1, 0], [0, 1], [false, false]),
        (
            b"delay,0,0,50\nroute, 1 ,0\n",
            [0, 1],
            [1, 0],
            [false, false],
        ),
        (b"polarity,0,1,0\n", [0, 1], [0, 1], [true, false]),
        (b"polarity,1,0,1\n", [0, 1], [0, 1], [false, true]),
        (b"polarity,0,1,1\n", [0, 1], [0, 1], [false, false]),
        (
            b"polarity,0,1,0\nroute,0,1\npolarity,1,1,0\nwire,0,1\npolarity,0,0,0\n",
            [0, 1],
            [0, 1],
            [false, true],
        ),
    ];
    for (more, wire, route, inverted) in table {
        let Ok(text) = two_lanes(alloc, b"jesd,2\n", more) else {
            assert!(rt; false, "no memory");
            return;
        };
        let Ok(scenario) = read(alloc, Job::Run, &text) else {
            assert!(rt; false, "refused");
            return;
        };
        assert_eq!(rt; scenario.version, 2);
        assert_eq!(rt; scenario.wire.as_slice(), wire.as_slice());
        assert_eq!(rt; scenario.route.as_slice(), route.as_slice());
        assert_eq!(rt; scenario.inverted.as_slice(), inverted.as_slice());
    }
}

#[test]
fn where_wiring_is_wrong(rt: HostRuntime) {
    let alloc = rt.alloc();
    let table: [(&[u8], (u32, u8, u32)); 18] = [
        (b"wire,1,1\n", (5, 7, 2)),
        (b"wire,0,1\nwire,0,1\n", (6, 3, 0)),
        (b"route,0,1\nwire,1,0\nroute,x\n", (7, 3, 0)),
        (b"wire,0\n", (5, 5, 2)),
        (b"route,0,1,0\n", (5, 5, 4)),
        (b"wire,x,2\n", (5, 6, 1)),
        (b"route,2,x\n", (5, 6, 2)),
        (b"wire,0,2\n", (5, 7, 2)),
        (b"wire,2,2\n", (5, 7, 1)),
        (b"route,1,4294967295\n", (5, 7, 2)),
        (b"polarity,0,1\n", (5, 5, 3)),
        (b"polarity,0,1,x\n", (5, 6, 3)),
        (b"polarity,2,0,0\n", (5, 7, 1)),
        (b"polarity,0,2,2\n", (5, 7, 2)),
        (b"polarity,0,1,2\n", (5, 7, 3)),
        (b"subclass,1\n", (5, 4, 0)),
        (b"wires,0,1\n", (5, 4, 0)),
        (b"wire,0,1\nflip,0,0,0\n", (6, 7, 3)),
    ];
    for (more, due) in table {
        assert_eq!(rt; two_lanes_refusal(alloc, b"jesd,2\n", more), Some(due));
    }
    let table: [&[u8]; 3] = [b"wire,0,1\n", b"route,x\n", b"polarity\n"];
    for more in table {
        assert_eq!(rt;
            two_lanes_refusal(alloc, b"jesd,1\n", more),
            Some((5, 4, 0))
        );
    }
    let first = b"jesd,1\nlink,b,1,1,1,1,8,8,0,0,0,17,0\nwire,0\n";
    assert_eq!(rt; refusal(alloc, Job::Map, first), Some((3, 4, 0)));
}
