// The mender: from a lent file to the mended file and a report of what was mended, in two lent outputs.
#![tactic(auto)]

ghost use Rattle.std.specs.Prelude.{◌≡◌};
ghost use Rattle.b3d_mend_spec.specs.Answers.{mend_answer, mend_output, mend_report};
ghost use Rattle.b3d_mend.specs.Accepted.{Accepted};

use b3d_mend_spec::WrittenBoth;
use b3d_spec::Mode;

// Copies an accepted file as it is, where `out` has room for it; nothing is put into the report.
fn copy_accepted(file: &[u8], out: &mut [u8], report: &mut [u8]) -> WrittenBoth
    requires { Accepted file.now }
    ensures value { result ≡ mend_answer file.now out.old report.old }
    ensures out_after { out.new ≡ mend_output file.now out.old report.old }
    ensures report_after { report.new ≡ mend_report file.now out.old report.old }
{
    let n = file.len();
    let answer = b3d_mend_write_both::answer_of_both(n, 0, out.len(), report.len());
    if answer.number != 0 {
        return answer;
    }
    shared_output::copy_bytes(file, 0, n, out);
    answer
}

// Judges a file by the faults that are not mended, and mends it where it has none of them.
fn mend_faults(file: &[u8], out: &mut [u8], report: &mut [u8]) -> WrittenBoth
    ensures value { result ≡ mend_answer file.now out.old report.old }
    ensures out_after { out.new ≡ mend_output file.now out.old report.old }
    ensures report_after { report.new ≡ mend_report file.now out.old report.old }
{
    match b3d_mend_judge::judge_mended(file) {
        Err(e) => WrittenBoth {
            number: e.number,
            place: shared_table_words::cell(e.place),
            size: 0,
            report_size: 0,
        },
        Ok(_) => {
            b3d_judge::are_bytes(file);
            b3d_mend_write_both::put_both(file, out, report)
        }
    }
}

// Writes the mended file into `out` and the report into `report`, and says how long they are; what stood behind them stays. A file that is accepted is
// copied, with an empty report. Where the file has a fault that is not mended (1 to 10), or an output is too short (11 and the size that is needed, for
// the file first), both outputs stay as they were.
pub fn mend(file: &[u8], out: &mut [u8], report: &mut [u8]) -> WrittenBoth
    ensures value { result ≡ mend_answer file.now out.old report.old }
    ensures out_after { out.new ≡ mend_output file.now out.old report.old }
    ensures report_after { report.new ≡ mend_report file.now out.old report.old }
{
    match b3d_judge::judge(Mode::Lenient, file) {
        Ok(_) => {
            b3d_judge::are_bytes(file);
            copy_accepted(file, out, report)
        }
        Err(_) => mend_faults(file, out, report),
    }
}
