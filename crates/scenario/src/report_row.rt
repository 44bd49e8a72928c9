//! The rows of a report.
use link_params::{Alarm, Mark};

/// The counts of a run.
#[derive(Clone, Copy, Debug, PartialEq, Eq)]
pub struct Totals {
    /// The ticks of the run.
    pub ticks: u32,
    /// The frames whose first octet entered.
    pub entered: u32,
    /// The frames that were delivered.
    pub delivered: u32,
    /// Those marked ok.
    pub ok: u32,
    /// Those marked fixed.
    pub fixed: u32,
    /// Those marked bad.
    pub bad: u32,
    /// The alarms.
    pub alarms: u32,
    /// The most entries that any lane's elastic buffer held.
    pub fullest: u32,
}

/// A row of a report, without its words.
#[derive(Clone, Copy, Debug, PartialEq, Eq)]
pub enum Row {
    /// The numbers of the link; the first row.
    Link,
    /// A hunt begins.
    Hunt(u32),
    /// The lanes were armed at the decision of this tick.
    Arm(u32),
    /// The link was released at the decision of this tick.
    Release(u32),
    /// An alarm of this tick.
    Alarm(u32, Alarm),
    /// A source frame's first octet enters at this octet time.
    Enter(u32),
    /// A frame is delivered, whose first octet left at this octet time.
    Frame(u32, Mark),
    /// The counts; the last row.
    End(Totals),
}
