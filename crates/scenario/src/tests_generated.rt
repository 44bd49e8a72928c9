//! Tests of scenarios that are made from a number, and of words put in place of an input.
use crate::draws::Draws;
use crate::tests::{read, start_and_step, words_of_frames};
use crate::{Job, Scenario, gen_scenario, replace_frames};
use link_params::Timing;
use std::test::Fail;

fn timing_of(s: &Scenario) -> Option<Timing> {
    match &s.link {
        Some(link) => Some(link.timing()),
        None => None,
    }
}

// Whether all but the input is the same.
fn agree(a: &Scenario, b: &Scenario) -> bool {
    a.shape.params() == b.shape.params()
        && timing_of(a) == timing_of(b)
        && a.ticks == b.ticks
        && a.print == b.print
        && a.octets.as_slice() == b.octets.as_slice()
        && a.events.as_slice() == b.events.as_slice()
        && a.jitters.as_slice() == b.jitters.as_slice()
        && a.flips.as_slice() == b.flips.as_slice()
}

#[test]
fn first_draws(rt: HostRuntime) {
    assert_eq!(rt; Draws::of(0).draw(u32::MAX), 0x0A02_BDBF);
    assert_eq!(rt; Draws::of(0).draw(3), 2);
}

#[test]
fn scenarios_of_numbers(rt: HostRuntime) -> Result<(), Fail> {
    let alloc = rt.alloc();
    let table: [(u32, &[u8]); 3] = [
        (
            0,
            b"jesd,1\nlink,cfec,1,1,2,1,16,16,0,0,1,0,2\ntiming,128,2,8,840,7,40,45,1,28\n\
        run,16384,none\ndelay,0,0,271\nreset,8192,rx\njitter,tx,0,2\njitter,tx,1,2\n\
        jitter,tx,2,6\njitter,tx,3,5\njitter,tx,4,5\njitter,tx,5,3\njitter,tx,6,-7\n\
        jitter,tx,7,5\nflip,0,872561,8\nflip,0,812924,8\nflip,0,661343,4\nflip,0,283246,6\n\
        flip,0,432452,9\nflip,0,484959,8\nflip,0,1075314,9\nflip,0,397369,9\n\
        flip,0,785032,8\nflip,0,175752,6\nflip,0,245069,1\nflip,0,254511,7\nflip,0,64295,9\n\
        flip,0,646732,6\nflip,0,414514,9\nflip,0,1069171,8\n",
        ),
        (
            2,
            b"jesd,1\nlink,ccrc,3,3,2,1,16,16,0,0,1,0,1\ntiming,64,2,8,392,7,20,7,1,12\n\
        run,16384,none\ndelay,0,0,66\ndelay,0,1,598\ndelay,0,2,772\nreset,8192,tx\n\
        jitter,tx,0,-3\njitter,tx,1,-3\njitter,tx,2,-1\njitter,tx,3,2\njitter,tx,4,2\n\
        jitter,tx,5,1\njitter,tx,6,4\njitter,tx,7,3\nflip,2,469739,3\nflip,1,979386,9\n\
        flip,0,654758,2\nflip,0,475567,1\nflip,1,228159,5\nflip,2,623644,7\n\
        flip,1,590340,3\nflip,1,443383,2\nflip,2,617666,9\nflip,1,63602,2\nflip,1,890526,3\n\
        flip,2,335862,1\nflip,0,184581,1\nflip,2,285811,7\nflip,2,160184,6\n\
        flip,2,393647,6\n",
        ),
        (
            u32::MAX,
            b"jesd,1\nlink,b,5,5,2,1,16,16,0,0,1,32,0\ntiming,128,2,8,184,7,21,62,1,32\n\
        run,16384,none\ndelay,0,0,250\ndelay,0,1,320\ndelay,0,2,138\ndelay,0,3,311\n\
        delay,0,4,10\nreset,8192,rx\njitter,tx,0,4\njitter,tx,1,6\njitter,tx,2,-2\n\
        jitter,tx,3,-5\njitter,tx,4,-3\njitter,tx,5,3\njitter,tx,6,7\njitter,tx,7,-3\n\
        flip,0,54820,7\nflip,3,131971,5\nflip,2,127854,4\nflip,1,6756,2\nflip,2,140795,6\n\
        flip,0,123121,1\nflip,1,108858,5\nflip,3,25512,4\nflip,4,146353,6\nflip,0,127884,5\n\
        flip,1,65488,2\nflip,1,134412,4\nflip,3,96784,5\nflip,4,132827,6\nflip,1,77303,2\n\
        flip,4,96755,5\n",
        ),
    ];
    for (number, text) in table {
        let made = gen_scenario(alloc, number)?;
        let spelled = read(alloc, Job::Run, text)?;
        assert!(rt; agree(&made, &spelled));
        assert_eq!(rt; start_and_step(&made), Some((0, 1)));
    }
    Ok(())
}

#[test]
fn other_frames(rt: HostRuntime) -> Result<(), Fail> {
    let alloc = rt.alloc();
    let words = [1, 0, 1, 1, 0, 0];
    let before = gen_scenario(alloc, 2)?;
    let after = replace_frames(gen_scenario(alloc, 2)?, Vec::from_slice(alloc, &words)?);
    assert!(rt; agree(&before, &after));
    assert_eq!(rt; words_of_frames(&after), words.as_slice());
    Ok(())
}
