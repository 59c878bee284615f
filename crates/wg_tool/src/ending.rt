ghost use Rattle.std.specs.Prelude.{◌≡◌};
ghost use Rattle.wg_tool.specs.Ending.{done_by};

use wg_engine::Report;
use wg_machine::Done;

/// The last line of a complete run's report.
pub fn done_of(report: &Report) -> Done
    ensures { result ≡ done_by report.now }
{
    Done {
        launches: report.journal.entries.len() as u64,
        records: report.records,
        denied: report.denied,
        peak: report.peak,
        bytes: report.bytes,
    }
}
