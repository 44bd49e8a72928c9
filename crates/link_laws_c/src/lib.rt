//! The laws of 64b/66b lanes and of links of them: when a lane locks, when it starts, what it hands
//! on, and what follows by `link_laws` for a run; and the laws of the runs of links of any mode.
//! Definitions and laws; nothing here runs.
//!
//! ```text
//! ghost use Rattle.link_laws_c.specs.RunLaws.{RunLaws};
//! ensures laws { (plan : Plan) → plan_of scenario.now ≡ Some plan → RunLaws plan }
//! ```
#![tactic(auto)]

mod lane_laws;
mod run_laws;

pub use lane_laws::lane_laws_of_lanes_c;
pub use run_laws::laws_of_runs;
