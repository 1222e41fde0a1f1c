// The mended file and the report of a file that can be mended: how long both are, whether both have room, and both written.
#![tactic(auto)]

ghost use Rattle.std.specs.Prelude.{◌≡◌, ◌<◌};
ghost use Rattle.b3d_mend_spec.specs.Answers.{mend_answer, mend_output, mend_report};
ghost use Rattle.b3d_mend_write_both.specs.BothSizes.{OfSizes};
ghost use Rattle.b3d_mend_write_both.specs.Mendable.{CanMend, HaveRoom, SizesAre};

use b3d_mend_spec::WrittenBoth;
use b3d_mend_write_file::walk_file;
use layout::refusals;

// Returns the answer for a mended file of `size` bytes and a report of `report_size` bytes that are put into outputs of `room` and `report_room` bytes:
// 0 and both sizes, or 11 and the size that is needed, for the file first. Only numbers are looked at.
pub fn answer_of_both(
    size: usize,
    report_size: usize,
    room: usize,
    report_room: usize,
) -> WrittenBoth
    requires size_bound { size < 0x100000000 }
    requires report_size_bound { report_size < 0x100000000 }
    ensures { OfSizes size report_size room report_room result }
{
    if room < size {
        return WrittenBoth {
            number: refusals::TOO_SHORT,
            place: shared_table_words::cell(size),
            size: 0,
            report_size: 0,
        };
    }
    if report_room < report_size {
        return WrittenBoth {
            number: refusals::TOO_SHORT,
            place: shared_table_words::cell(report_size),
            size: 0,
            report_size: 0,
        };
    }
    WrittenBoth {
        number: 0,
        place: 0,
        size: shared_table_words::cell(size),
        report_size: shared_table_words::cell(report_size),
    }
}

// The sizes of a mended file and of its report.
#[derive(Clone, Copy)]
pub struct MendedSizes {
    pub file: usize,
    pub report: usize,
}

// Returns how long the mended file and the report are, for a file that can be mended. Nothing is written.
fn sizes_of(file: &[u8], out: &mut [u8], report: &mut [u8]) -> MendedSizes
    requires { CanMend file.now }
    ensures sizes_are { SizesAre file.now result }
    ensures out_unchanged { out.new ≡ out.old }
    ensures report_unchanged { report.new ≡ report.old }
{
    let size = walk_file(file, 0, false, false, out, 0);
    let report_size = walk_file(file, size - 12, true, false, report, 0);
    MendedSizes {
        file: size,
        report: report_size,
    }
}

// Writes the mended file, which has `size` bytes, and the report, both of which have room.
fn write_both(file: &[u8], size: usize, out: &mut [u8], report: &mut [u8])
    requires { HaveRoom file.now out.old report.old size }
    ensures out_after { out.new ≡ mend_output file.now out.old report.old }
    ensures report_after { report.new ≡ mend_report file.now out.old report.old }
{
    walk_file(file, size - 12, false, true, out, 0);
    walk_file(file, size - 12, true, true, report, 0);
}

// Writes the mended file and the report of a file that can be mended, where both have room, and returns the answer.
pub fn put_both(file: &[u8], out: &mut [u8], report: &mut [u8]) -> WrittenBoth
    requires { CanMend file.now }
    ensures value { result ≡ mend_answer file.now out.old report.old }
    ensures out_after { out.new ≡ mend_output file.now out.old report.old }
    ensures report_after { report.new ≡ mend_report file.now out.old report.old }
{
    let n = sizes_of(file, out, report);
    let answer = answer_of_both(n.file, n.report, out.len(), report.len());
    if answer.number != 0 {
        return answer;
    }
    write_both(file, n.file, out, report);
    answer
}
