// The report of a compaction: four bytes that its caller lends.
ghost use Rattle.std.specs.Prelude.{◌≡◌, ◌<◌};
ghost use Rattle.front.specs.Front.{ending_number, reported};
ghost use Rattle.front.specs.Code.Tallies.{tallied};

use compaction::Ending;
use desk::{Answer, Report};
use lists::parts::put_word;

/// Bytes of a report.
pub const REPORT_BYTES: usize = 4;

fn ending_number(e: Ending) -> u8
    ensures { result ≡ ending_number e }
{
    match e {
        Ending::Settled => 1,
        Ending::QuotaUsed => 2,
        Ending::SegmentNeeded => 3,
    }
}

/// Writes what an answer tells of a compaction, if it was carried out and the report has four bytes.
pub(crate) fn write_report(a: Answer, report: &mut [u8])
    requires { tallied a < 65536 }
    ensures { report.new ≡ reported a report.old }
{
    if let Ok(Report::Compacted { moved, ending }) = a {
        if report.len() == REPORT_BYTES {
            report[0] = ending_number(ending);
            report[1] = 0;
            // Stays: `as`: usize has no From<u32>, and it holds them all.
            put_word(report, 2, moved as usize);
        }
    }
}
