//! Laws of the decisions.
ghost use Rattle.bring_up.specs.laws.DecisionLaws.{HuntsWhereLow, StandsByLast};

/// Where a receiver stands after its decisions: it hunts exactly while SYNC~ is low (JESD204B.01
/// clause 5.3.3.1, code group synchronization), and each decision goes on from where the one
/// before left it.
pub fn decision_laws()
    ensures low { HuntsWhereLow }
    ensures last { StandsByLast }
{}
