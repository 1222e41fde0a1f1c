// The clearer: writes the copy of a lent file without names to a lent output, with no tables.
#![tactic(auto)]

ghost use Rattle.std.specs.Prelude.{◌≡◌};
ghost use Rattle.b3d_spec.specs.Answers.{clear_answer, clear_output};

use b3d_spec::{Mode, Written};

// Writes the copy without names of `file` to the start of `out`; the bytes behind it stay as they were. Returns 0 and its size. Where the lenient mode
// refuses the file (1 to 10), or `out` is too short (11, with the size of the copy as place), `out` stays as it was and the size is 0.
pub fn clear(file: &[u8], out: &mut [u8]) -> Written
    ensures value { result ≡ clear_answer file.now out.old }
    ensures out_after { out.new ≡ clear_output file.now out.old }
{
    match b3d_judge::judge(Mode::Lenient, file) {
        Err(e) => Written {
            number: e.number,
            place: shared_table_words::cell(e.place),
            size: 0,
        },
        Ok(x) => {
            b3d_judge::are_bytes(file);
            let answer = b3d_spec_output_answer::answer_of(x.tally.copy, out.len());
            if answer.number != 0 {
                return answer;
            }
            b3d_clear_file::clear_file(file, out);
            answer
        }
    }
}
