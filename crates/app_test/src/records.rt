//! What is known of the runs so far.
ghost use Rattle.app_arguments.specs.Views.{format_view};
ghost use Rattle.app_test.specs.TestedRuns.{lists_failing, wanted_by};
ghost use Rattle.app_test.specs.Tests.{is_json};
ghost use Rattle.std.specs.Prelude.{◌≡◌};

use app_arguments::{Format, Test};
use judge_results::{Results, Wanted};
use judge_runs::Tally;
use judge_shared::Orders;
use std::alloc::Global;

/// Whether one JSON object is written.
fn is_json(format: Format) -> bool
    ensures { result ≡ is_json (format_view format) }
{
    match format {
        Format::Json => true,
        Format::Plain => false,
    }
}

/// Which texts of the results a test has to have: the JSON text for its file or the output, the XML for its file.
pub fn wanted_by(test: &Test<'_>) -> Wanted
    ensures { result ≡ wanted_by test.now }
{
    Wanted {
        json: test.json.is_some() || is_json(test.format),
        junit: test.junit.is_some(),
    }
}

/// Whether a test lists the folders of runs that fail: pages are made of them, or the reports of a JSON text.
pub(crate) fn lists_failing(test: &Test<'_>) -> bool
    ensures { result ≡ lists_failing test.now }
{
    test.pages.is_some() || wanted_by(test).json
}

/// What is kept of the runs so far: their verdicts, and the results that are wanted.
#[derive(Drop)]
pub struct Records {
    /// Their verdicts, and the first lines of those that don't pass.
    pub tally: Tally,
    /// Their results.
    pub results: Results,
}

impl Records {
    ghost use Rattle.app_test.specs.TestedRuns.{AreRecords, wanted_by};
    ghost use Rattle.judge_runs.specs.Wishes.{Condition};
    ghost use Rattle.std.specs.Prelude.{[], List};

    /// Of no run, for this test.
    pub(crate) fn new(alloc: Global, test: &Test<'_>) -> Records
        ensures { (wishes : List Condition) → AreRecords (wanted_by test.now) wishes [] [] result }
    {
        Records {
            tally: Tally::new(alloc),
            results: Results::new(alloc, wanted_by(test)),
        }
    }
}

/// What is known of the runs so far.
#[derive(Drop)]
pub struct Tested {
    /// What is kept of them for the end.
    pub records: Records,
    /// Their orders.
    pub orders: Orders,
}

impl Tested {
    ghost use Rattle.app_test.specs.TestedRuns.{AreRecords, wanted_by};
    ghost use Rattle.def_format.specs.Documents.{Options};
    ghost use Rattle.judge_runs.specs.Wishes.{Condition};
    ghost use Rattle.judge_shared.specs.Sharing.{AreSound};
    ghost use Rattle.std.specs.Prelude.{[], List};

    /// Of no run, for this test.
    pub fn new(alloc: Global, test: &Test<'_>) -> Tested
        ensures records { (wishes : List Condition) → AreRecords (wanted_by test.now) wishes [] [] result.records }
        ensures orders { (options : Options) → AreSound options result.orders }
    {
        Tested {
            records: Records::new(alloc, test),
            orders: Orders::new(alloc),
        }
    }
}
