// The slip of a file (E1): its version, n_texs and ten row counts, as the reader has them, in a lent output. No table is needed.
#![tactic(auto)]

ghost use Rattle.std.specs.Prelude.{◌≡◌, ◌∷◌};
ghost use Rattle.slip_of_b3d.specs.FileSlips.{file_slip_answer, file_slip_output};

use b3d_spec::{Answer, Mode, Written};

// Returns the twelve numbers of the answer `a`: version, n_texs, ten row counts.
pub fn numbers_of(a: Answer) -> [u32; 12]
    ensures { result ≡ a.version ∷ a.n_texs ∷ a.counts }
{
    let c = a.counts;
    [
        a.version, a.n_texs, c[0], c[1], c[2], c[3], c[4], c[5], c[6], c[7], c[8], c[9],
    ]
}

// Writes the slip of `file`, judged in lenient mode, into `out` and returns its size; the output past it stays as found. If the file is refused (1 to 10), or
// the output is too short (11, and the size of the slip), the output stays as found.
pub fn slip_of(file: &[u8], out: &mut [u8]) -> Written
    ensures value { result ≡ file_slip_answer file.now out.old }
    ensures out_after { out.new ≡ file_slip_output file.now out.old }
{
    let a = b3d_read_answer::judge_answer(Mode::Lenient, file);
    if a.number != 0 {
        return Written {
            number: a.number,
            place: a.place,
            size: 0,
        };
    }
    slip::write_slip(numbers_of(a), out)
}
