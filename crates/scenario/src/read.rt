//! Reads a scenario, one record at a time.
ghost use Rattle.std.specs.Prelude.{◌≡◌, ◌≤◌, length};
ghost use Rattle.scenario.specs.Reads.{reads};
ghost use Rattle.scenario.specs.Answer.{Answers};

use crate::fault::{RecordFault, ScenarioFault};
use crate::kind::Job;
use crate::reading::Reading;
use crate::scenario_type::Scenario;
use csv::ReaderBuilder;
use std::alloc::Global;

/// Reads the scenario of an input for a job, or finds the first record that is wrong.
pub fn read_scenario(alloc: Global, job: Job, bytes: &[u8]) -> Result<Scenario, ScenarioFault>
    requires { length bytes.now ≤ 4194304 }
    ensures { Answers (reads job bytes.now) result }
{
    let rows = ReaderBuilder::new()
        .has_headers(false)
        .flexible(true)
        .from_reader(alloc, bytes);
    let mut reading = Reading::new(alloc);
    let mut number: u32 = 0;
    for row in rows.into_byte_records() {
        // A slice has no read error, so this is want of memory.
        let Ok(row) = row else {
            return Err(ScenarioFault::NoMemory);
        };
        number += 1;
        match reading.step(job, &row) {
            Ok(()) => {}
            Err(RecordFault::Bad(fault)) => {
                return Err(ScenarioFault::Bad {
                    row: number,
                    cause: fault.cause.number(),
                    at: fault.at,
                });
            }
            Err(RecordFault::NoMemory) => return Err(ScenarioFault::NoMemory),
        }
    }
    reading.finish(alloc, number)
}
