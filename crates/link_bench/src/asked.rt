//! What the words ask for.
ghost use Rattle.std.specs.Prelude.{◌≡◌, ◌<◌, map, option_map, IfOk, IfSome};
ghost use Rattle.link_bench.specs.Jobs.{asked};
ghost use Rattle.link_bench.specs.KeptBench.{workers_asked};

use bench_words::{Task, WordsFault, read_words};
use jesd_base::NoMemory;
use scenario::Job;
use std::alloc::Global;

/// What the words ask for.
#[derive(Clone, Copy, Debug, PartialEq, Eq)]
pub enum Asked {
    /// A job on the input.
    Input(Job),
    /// The run of the scenario of a number.
    Generated(u32),
}

/// What the words ask for and on how many workers, None where they are refused.
pub(crate) fn read_asked(alloc: Global, words: &[&str]) -> Result<Option<(Asked, u32)>, NoMemory>
    ensures asked { IfOk result
        (λ a. option_map (λ x. x.0) a ≡ asked (map (λ w. w.now) words.now)) }
    ensures workers { IfOk result
        (λ a. IfSome a (λ x. (x.1 ≡ workers_asked (map (λ w. w.now) words.now)) × (0 < x.1))) }
{
    match read_words(alloc, words) {
        Ok(words) => {
            let asked = match words.task {
                Task::Map => Asked::Input(Job::Map),
                Task::Unmap => Asked::Input(Job::Unmap),
                Task::Run => Asked::Input(Job::Run),
                Task::Gen => Asked::Generated(words.number),
            };
            Ok(Some((asked, words.workers)))
        }
        Err(WordsFault::Bad) => Ok(None),
        Err(WordsFault::NoMemory) => Err(NoMemory),
    }
}
