//! Where the rows of a run go.
ghost use Rattle.std.specs.Prelude.{◌≡◌, ◌≤◌, ◌++◌, ◌∷◌, [], ℕ, List, Option, OnErr, OnOk, Some};
ghost use Rattle.jesd_base.specs.Streams.{Rose};
ghost use Rattle.link_params.specs.declared.fields.Params.{Params};
ghost use Rattle.link_model.specs.Report.{Printed};
ghost use Rattle.link_run.specs.Rows.{HasWords};

use jesd_base::Failed;
use scenario::Row;

/// Takes the rows of a run, in the order of its report.
pub trait Rows {
    /// Between two states it took these rows, the first one first.
    ghost Took: { Self → Self → List Printed → Type 0 };

    /// The parameters of the shape whose rows it takes, where it takes those of one shape alone.
    ghost shape: { Self → Option Params };

    /// How often it has failed. It stays at 2^64 - 1 once it is there.
    ghost faults: { Self → ℕ };

    /// Takes a row: `words` are those of an `Enter` or a `Frame` row, M·S of them, and none for
    /// another one.
    ///
    /// `Failed` comes only where the count of faults rose, and adds no row.
    fn row(&mut self, row: &Row, words: &[u32]) -> Result<(), Failed>
        requires words { (p : Params) → shape self.old ≡ Some p → HasWords p row.now words.now }
        ensures took { (first : Self) (before : List Printed) → Took first self.old before
            → OnOk result (Took first self.new (before ++ (record { row = row.now; words = words.now }) ∷ [])) }
        ensures nothing { (first : Self) (before : List Printed) → Took first self.old before
            → OnErr result (Took first self.new before) }
        ensures failed { OnErr result (Rose (faults self.old) (faults self.new)) }
        ensures count { faults self.old ≤ faults self.new }
        ensures shape { shape self.new ≡ shape self.old };
}
