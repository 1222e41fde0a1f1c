// The reader's answers, with no table touched: for a file alone (`judge_answer`), and for a file and tables of given lengths.
#![tactic(auto)]

ghost use Rattle.std.specs.Prelude.{◌≡◌, [], ◌∷◌};
ghost use Rattle.b3d_spec.specs.Answers.{judge, answer, read_answer};
ghost use Rattle.shared_room.specs.Rooms.{number_of};

use b3d_spec::{Answer, Mode};

// Returns the reader's answer for `file` in `mode` with ample tables: refusals 1 to 10, or 0 with version, n_texs and counts.
pub fn judge_answer(mode: Mode, file: &[u8]) -> Answer
    ensures { result ≡ answer (judge mode file.now) }
{
    match b3d_judge::judge(mode, file) {
        Err(r) => b3d_read_answer_numbers::refused(r.number, r.place),
        Ok(x) => b3d_read_answer_numbers::accepted(x.version, x.n_texs, x.tally),
    }
}

// Returns the reader's answer for `file` in `mode` and ten tables of `l1` to `l10` words: refusals 1 to 11, or 0 with version, n_texs and counts.
pub fn answer_for(
    mode: Mode,
    file: &[u8],
    l1: usize,
    l2: usize,
    l3: usize,
    l4: usize,
    l5: usize,
    l6: usize,
    l7: usize,
    l8: usize,
    l9: usize,
    l10: usize,
) -> Answer
    ensures { result ≡ read_answer mode (number_of (l1 ∷ l2 ∷ l3 ∷ l4 ∷ l5 ∷ l6 ∷ l7 ∷ l8 ∷ l9 ∷ l10 ∷ [])) file.now }
{
    match b3d_judge::judge(mode, file) {
        Err(e) => b3d_read_answer_numbers::refused(e.number, e.place),
        Ok(x) => b3d_read_answer_numbers::with_room(
            x.version, x.n_texs, x.tally, l1, l2, l3, l4, l5, l6, l7, l8, l9, l10,
        ),
    }
}
