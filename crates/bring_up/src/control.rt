//! The control of a link's receiver.
ghost use Rattle.std.specs.Prelude.{◌≡◌, ◌≤◌, ◌<◌, ◌+◌, ◌++◌, List, [], ◌∷◌, length};
ghost use Rattle.std.specs.List.{All};
ghost use Rattle.link_params.specs.declared.fields.Params.{Params};
ghost use Rattle.link_params.specs.declared.fields.Timing.{Timing};
ghost use Rattle.link_params.specs.declared.lane_report.LaneReport.{LaneReport as Report};
ghost use Rattle.bring_up.specs.kept.Controls.{HasDecided, NamesOctet, controller_after, count_after, limit};
ghost use Rattle.bring_up.specs.Decisions.{begin, decide_at, is_hunting, standing_from};
ghost use Rattle.bring_up.specs.declared.stage.Decision.TheVariants.{Stay};

use crate::alarm_row::AlarmRow;
use crate::judge::judge;
use crate::stage::{Decision, Stage};
use link_params::{LaneReport, Link};
use std::marker::Model;

/// The control of a link's receiver. Contracts see it as its link, its stage, and a count of the decisions since the stage
/// began.
#[derive(Clone, Copy, Debug)]
pub struct Control {
    link: Link,
    stage: Stage,
    count: u32,
}

impl Model for Control {
    ghost use Rattle.std.specs.Prelude.{◌<◌};
    ghost use Rattle.bring_up.specs.kept.Controls.{Controller, limit};

    ghost Value = { Controller };

    ghost view = { λ c. record { params = c.link.params; timing = c.link.timing; stage = c.stage; count = c.count } };

    ghost invariant = { λ c. c.count < limit c.stage };

    ghost inverse = { λ v. record { link = record { params = v.params; timing = v.timing }; stage = v.stage; count = v.count } };
}

impl Control {
    /// A receiver that begins to hunt.
    pub fn new(link: &Link) -> Control
        ensures { HasDecided result link.now.params link.now.timing [] }
    {
        Control {
            link: *link,
            stage: Stage::Hunt,
            count: 0,
        }
    }

    /// Begins anew, as after `new`.
    pub fn reset(&mut self)
        ensures { (p : Params) (t : Timing) (before : List (List Report)) → HasDecided self.old p t before → HasDecided self.new p t [] }
    {
        self.stage = Stage::Hunt;
        self.count = 0;
    }

    /// The stage after the decisions so far.
    pub fn stage(&self) -> Stage
        ensures { (p : Params) (t : Timing) (before : List (List Report)) → HasDecided self.now p t before → result ≡ (standing_from p t begin before).stage }
    {
        self.stage
    }

    /// Whether SYNC~ is low (JESD204B.01 clause 5.3.3.1, code group synchronization): while the receiver hunts.
    pub fn sync_low(&self) -> bool
        ensures { (p : Params) (t : Timing) (before : List (List Report)) → HasDecided self.now p t before → result ≡ is_hunting (standing_from p t begin before).stage }
    {
        match self.stage {
            Stage::Hunt => true,
            Stage::Wait | Stage::Run => false,
        }
    }

    /// The decision at a release point, by what the lanes report there, lane 0 first; its alarms go into the row.
    pub fn decide(&mut self, reports: &[LaneReport], alarms: &mut AlarmRow) -> Decision
        requires reports { length reports.now ≡ self.old.params.l }
        requires octets { All (NamesOctet self.old.params) reports.now }
        requires empty { alarms.old ≡ [] }
        ensures decision { (p : Params) (t : Timing) (before : List (List Report)) → HasDecided self.old p t before
            → result ≡ (decide_at p t (standing_from p t begin before) reports.now).decision }
        ensures alarms { (p : Params) (t : Timing) (before : List (List Report)) → HasDecided self.old p t before
            → alarms.new ≡ (decide_at p t (standing_from p t begin before) reports.now).alarms }
        ensures goes_on { (p : Params) (t : Timing) (before : List (List Report)) → HasDecided self.old p t before
            → HasDecided self.new p t (before ++ reports.now ∷ []) }
    {
        let decision = judge(&self.link, self.stage, self.count, reports, alarms);
        self.stand(decision);
        decision
    }

    // Stands as it does after a decision.
    fn stand(&mut self, decision: Decision)
        requires { decision ≡ Stay → count_after self.old.stage self.old.count < limit self.old.stage }
        ensures { self.new ≡ controller_after self.old decision }
    {
        match decision {
            Decision::Stay => self.count = count_after(self.stage, self.count),
            Decision::Arm => self.begin(Stage::Wait),
            Decision::Release => self.begin(Stage::Run),
            Decision::Hunt => self.begin(Stage::Hunt),
        }
    }

    // Begins a stage.
    fn begin(&mut self, stage: Stage)
        ensures { self.new ≡ record self.old { stage = stage; count = 0 } }
    {
        self.stage = stage;
        self.count = 0;
    }
}

// The count after a decision that leaves the stage as it is. That of a hunt goes on from 20 at 4: from the fourth decision on
// only its remainder modulo 16 tells.
fn count_after(stage: Stage, count: u32) -> u32
    requires { count < limit stage }
    ensures { result ≡ count_after stage count }
{
    match stage {
        Stage::Hunt if count == 19 => 4,
        Stage::Hunt | Stage::Wait => count + 1,
        Stage::Run => count,
    }
}
