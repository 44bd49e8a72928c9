//! The alarms of a decision.
ghost use Rattle.std.specs.Prelude.{◌≡◌, ◌≤◌, ◌<◌, ◌++◌, ◌∷◌, [], length, slice_get, Some};

use link_params::Alarm;
use std::marker::Model;

// One for each of 32 lanes, and two to spare.
const ROOM: usize = 34;

/// Up to 34 alarms in the order in which they were raised. Contracts see it as their list.
#[derive(Debug, Drop)]
pub struct AlarmRow {
    alarms: [Alarm; ROOM],
    count: usize,
}

impl Model for AlarmRow {
    ghost use Rattle.std.specs.Prelude.{◌≡◌, ◌≤◌, List, length, take};
    ghost use Rattle.link_params.specs.declared.alarms.Alarm.{Alarm};

    ghost Value = { List Alarm };

    ghost view = { λ r. take r.count r.alarms };

    ghost invariant = { λ r. (length r.alarms ≡ 34) × (r.count ≤ 34) };
}

impl AlarmRow {
    /// No alarm.
    pub fn new() -> AlarmRow
        ensures { result ≡ [] }
    {
        AlarmRow {
            alarms: [Alarm::StartTimeout; ROOM],
            count: 0,
        }
    }

    /// How many alarms there are.
    pub fn len(&self) -> u32
        ensures count { result ≡ length self.now }
        ensures within { result ≤ 34 }
    {
        self.count as u32
    }

    /// An alarm, counted from 0.
    pub fn get(&self, i: u32) -> Alarm
        requires { i < length self.now }
        ensures { slice_get self.now i ≡ Some result }
    {
        self.alarms[i as usize]
    }

    /// Drops all alarms.
    pub fn clear(&mut self)
        ensures { self.new ≡ [] }
    {
        self.count = 0;
    }

    // One alarm more, behind the others.
    pub(crate) fn push(&mut self, alarm: Alarm)
        requires { length self.old < 34 }
        ensures { self.new ≡ self.old ++ alarm ∷ [] }
    {
        self.alarms[self.count] = alarm;
        self.count += 1;
    }
}
