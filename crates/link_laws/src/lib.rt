//! What holds of every run of a link: sessions and their premises, the laws of a lane, and what
//! follows from them for any kind of lane. Definitions and laws over the histories of `link_model`;
//! nothing here runs, and no law speaks of the code that runs a link.
//!
//! ```text
//! ghost use Rattle.link_laws.specs.LawsB.{RunLawsB};
//! ensures laws { (plan : Plan) → IsPlanRead plan → plan.link.params.mode ≡ B → RunLawsB plan }
//! ```
#![tactic(auto)]

mod laws;
mod laws_b;

pub use laws::laws_from_lanes;
pub use laws_b::laws_of_lanes_b;
