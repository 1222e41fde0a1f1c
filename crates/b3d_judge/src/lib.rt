// The judge: one walk over a file, which answers its refusal, 1 to 10, or what it says without its tables. That is version, n_texs, the ten row counts and
// the size of the cleared copy. Nothing is written; reader, clearer and lister start from it.
#![tactic(auto)]

ghost use Rattle.std.specs.Prelude.{◌≡◌};
ghost use Rattle.b3d_judge.specs.Answers.{verdict_of};
ghost use Rattle.wire.specs.Bytes.{AllBytes};
ghost use Rattle.b3d_spec.specs.Answers.{judge};

use b3d_judge_file_body::Summary;
use b3d_spec::{Mode, letters};
use layout::{FEWEST_BYTES, MOST_BYTES, Refusal, refusals};

// Does nothing: called for its promise alone, that the elements of the slice `s` are bytes. It has no result.
pub fn are_bytes(s: &[u8])
    ensures { AllBytes s.now }
{
    if 0 < s.len() {
        let _first = s[0];
    }
}

// Judges `file` in a `mode`, without any table: checks 1 to 10. Returns its refusal and place, or version, n_texs, row counts and the size of its cleared
// copy.
pub fn judge(mode: Mode, file: &[u8]) -> Result<Summary, Refusal>
    ensures { result ≡ verdict_of (judge mode file.now) }
{
    let n = file.len();
    if n < FEWEST_BYTES {
        return Err(Refusal {
            number: refusals::FILE_SIZE,
            place: 0,
        });
    }
    if MOST_BYTES < n {
        return Err(Refusal {
            number: refusals::FILE_SIZE,
            place: 0,
        });
    }
    if wire::number_at(file, 0) != letters::BB3D {
        return Err(Refusal {
            number: refusals::FIRST_TAG,
            place: 0,
        });
    }
    if wire::size(wire::number_at(file, 4)) != n - 8 {
        return Err(Refusal {
            number: refusals::FIRST_TAG,
            place: 4,
        });
    }
    let x = b3d_judge_file_body::judge_body(file, mode)?;
    are_bytes(file);
    let over = b3d_judge_limits::over_limit(x.tally);
    if over != 0 {
        return Err(Refusal {
            number: refusals::TOO_MANY_ROWS,
            place: over,
        });
    }
    Ok(x)
}
