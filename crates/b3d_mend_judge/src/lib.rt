// The judge of the mender: one walk over a file, which answers the first fault of a kind that is not mended, or version, n_texs and the row counts of
// the mended file. Nothing is written.
#![tactic(auto)]

ghost use Rattle.std.specs.Prelude.{◌≤◌, ◌≡◌, length, drop};
ghost use Rattle.b3d_spec.specs.declared.Tag.TheVariants.{BB3D};
ghost use Rattle.b3d_spec.specs.Nesting.{start};
ghost use Rattle.b3d_spec_chunk_places.specs.Places.{rest_in, Among};
ghost use Rattle.b3d_judge_file_body.specs.Bodies.{Walks};
ghost use Rattle.layout.specs.Rows.{most_bytes};
ghost use Rattle.b3d_mend_judge_items.specs.Lax.{lax_body};
ghost use Rattle.b3d_mend_judge.specs.Bodies.{lax_chunks};
ghost use Rattle.b3d_mend_spec.specs.Report.{mend_judged};
ghost use Rattle.b3d_mend_judge.specs.Answers.{mended_verdict, PlaceValid};

use b3d_judge_file_body::Summary;
use b3d_spec::{HIGHEST_VERSION, letters};
use layout::{FEWEST_BYTES, MOST_BYTES, Refusal, refusals};
use wire::Cursor;

// Judges TEXS, BRUS and NODE, from the first chunk of a file on.
fn lax_chunks(s: &[u8], version: u32, from: Cursor) -> Result<Summary, Refusal>
    requires { Among 0 from (length s.now) × (from.at ≡ 12) }
    ensures { Walks (lax_chunks version (rest_in s.now BB3D 0 start from)) from.end result }
{
    let (t, c) = b3d_judge_file_chunks::judge_texs_chunk(s, from)?;
    let (slots, r) = b3d_mend_judge_file::lax_rest(s, c)?;
    Ok(Summary {
        version,
        n_texs: slots,
        tally: b3d_judge_file_body::file_rows(t, r),
    })
}

// Judges all that follows the header of a file: its version, then its chunks without spare bytes.
fn lax_body(s: &[u8]) -> Result<Summary, Refusal>
    requires { (8 ≤ length s.now) × (length s.now ≤ most_bytes) }
    ensures { Walks (lax_body 8 (drop 8 s.now)) (length s.now) result }
{
    let behind = Cursor {
        at: 8,
        end: s.len(),
    };
    let Some((version, c)) = behind.number(s) else {
        return Err(Refusal {
            number: refusals::CUT_ITEM,
            place: 8,
        });
    };
    if HIGHEST_VERSION < version {
        return Err(Refusal {
            number: refusals::RANGE,
            place: 8,
        });
    }
    let d = b3d_mend_judge_items::trimmed(s, c);
    lax_chunks(s, version, d)
}

// Returns what a file says as it is mended, or the first fault that is not mended. BB3D ends where the file does, whatever its length says.
pub fn judge_mended(file: &[u8]) -> Result<Summary, Refusal>
    ensures value { result ≡ mended_verdict (mend_judged file.now) }
    ensures place_valid { PlaceValid result }
{
    let n = file.len();
    if n < FEWEST_BYTES {
        return Err(Refusal {
            number: refusals::FILE_SIZE,
            place: 0,
        });
    }
    if MOST_BYTES < n {
        return Err(Refusal {
            number: refusals::FILE_SIZE,
            place: 0,
        });
    }
    if wire::number_at(file, 0) != letters::BB3D {
        return Err(Refusal {
            number: refusals::FIRST_TAG,
            place: 0,
        });
    }
    b3d_judge::are_bytes(file);
    let x = lax_body(file)?;
    let over = b3d_judge_limits::over_limit(x.tally);
    if over != 0 {
        return Err(Refusal {
            number: refusals::TOO_MANY_ROWS,
            place: over,
        });
    }
    Ok(x)
}
