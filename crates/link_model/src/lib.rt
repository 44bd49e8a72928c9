//! What a run of a link is: a history that grows by one moment each tick, and the report of it, for
//! any number of lanes and both kinds of lane. Definitions and their laws; nothing here runs. The
//! crate `link_run` runs links, and `link_laws` says what holds of every run.
//!
//! ```text
//! ghost use Rattle.link_model.specs.Kinds.{report_of};
//! ensures text { IfOk result (λ r. r.text.items ≡ report_of plan) }
//! ```
#![tactic(auto)]

mod history_laws;

pub use history_laws::histories;
