// Mending a file: what becomes of each of its bytes, the report and the mender's answers (definitions in specs/), and the laws of the
// mended file and of its report (proofs/). The code that judges and writes stands in crates above; no function here.

// What the mender answers: refusal number and place, or 0 and 0 with the sizes of the mended file and of the report.
#[repr(C)]
#[derive(Clone, Copy)]
pub struct WrittenBoth {
    pub number: u32,
    pub place: u32,
    pub size: u32,
    pub report_size: u32,
}
