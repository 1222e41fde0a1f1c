// What terminals call to mend a file, as a C function. `rust/build-lib` puts it beside those of kelompuris_c into the one archive, include/kelompuris.h
// declares it. It promises what the function that it calls does, for every input.
#![tactic(auto)]

ghost use Rattle.std.specs.Prelude.{◌≡◌};
ghost use Rattle.b3d_mend_spec.specs.Answers.{mend_answer, mend_output, mend_report};

use b3d_mend_spec::WrittenBoth;

// Writes the mended file into `out` and the report of what was mended into `report`; the answer and both outputs are those of `b3d_mend::mend`.
#[unsafe(no_mangle)]
pub extern "C" fn kelompuris_b3d_mend(file: &[u8], out: &mut [u8], report: &mut [u8]) -> WrittenBoth
    ensures value { result ≡ mend_answer file.now out.old report.old }
    ensures out_after { out.new ≡ mend_output file.now out.old report.old }
    ensures report_after { report.new ≡ mend_report file.now out.old report.old }
{
    b3d_mend::mend(file, out, report)
}
