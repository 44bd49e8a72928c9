//! Laws of the reading.
ghost use Rattle.scenario.specs.laws.ReadingLaws.{GeneratesLegalPlans, ReadsLegalPlans, ReadsPlans};

/// The records of each input that is accepted for the job `run` spell a plan, and this plan is
/// legal: its link obeys the laws 1 to 17, its events, jitters and flips are in range, and each of
/// its source frames has M·S words below 2^(N+CS).
pub fn readings()
    ensures plans { ReadsPlans }
    ensures legal { ReadsLegalPlans }
{}

/// The plan of each number is legal too: that of the scenario which `gen_scenario` makes.
pub fn generated_plans()
    ensures { GeneratesLegalPlans }
{}
