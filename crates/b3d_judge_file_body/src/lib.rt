// Judges all that follows the header of a file, its version and its chunks, and counts their rows.
#![tactic(auto)]

ghost use Rattle.std.specs.Prelude.{◌≤◌, ◌≡◌, length, drop};
ghost use Rattle.b3d_spec.specs.declared.Tag.TheVariants.{BB3D};
ghost use Rattle.b3d_spec.specs.Nesting.{start};
ghost use Rattle.b3d_spec.specs.Parse.{read_body};
ghost use Rattle.b3d_judge_tally.specs.Tally.{bytes_tally, plus, Within};
ghost use Rattle.b3d_spec_chunk_places.specs.Places.{rest_in, Among};
ghost use Rattle.b3d_judge_file_body.specs.Bodies.{read_chunks, Walks};
ghost use Rattle.layout.specs.Rows.{most_bytes};

use b3d_judge_tally::Tally;
use b3d_spec::{HIGHEST_VERSION, Mode};
use layout::{Refusal, refusals};
use wire::Cursor;

// What a file says without its tables: version, n_texs, and the tally of its rows with the size of its cleared copy.
#[derive(Clone, Copy)]
pub struct Summary {
    pub version: u32,
    pub n_texs: u32,
    pub tally: Tally,
}

// Returns the tally of a file: BB3D's header and version, its `textures`, and the `rest`.
pub fn file_rows(textures: Tally, rest: Tally) -> Tally
    requires { Within textures most_bytes × Within (plus (bytes_tally 12) textures) most_bytes × Within rest most_bytes }
    ensures { result ≡ plus (plus (bytes_tally 12) textures) rest }
{
    b3d_judge_tally::plus(
        b3d_judge_tally::plus(b3d_judge_tally::bytes(12), textures),
        rest,
    )
}

// Judges the chunks of a file of this `version` from the cursor `from` on: TEXS, BRUS and NODE. Returns what the file says, or the first refusal.
fn judge_chunks(s: &[u8], version: u32, from: Cursor, mode: Mode) -> Result<Summary, Refusal>
    requires { Among 0 from (length s.now) × (from.at ≡ 12) }
    ensures { Walks (read_chunks mode version (rest_in s.now BB3D 0 start from)) from.end result }
{
    let (t, c) = b3d_judge_file_chunks::judge_texs_chunk(s, from)?;
    let (slots, r) = b3d_judge_file_chunks::judge_rest(s, c, t.textures, mode)?;
    Ok(Summary {
        version,
        n_texs: slots,
        tally: file_rows(t, r),
    })
}

// Judges all that follows the header of the file `s`, in a `mode`. Returns what the file says, or the first refusal: 5 at 8 where the version is cut, 6 at 8
// where it is over 99. The row limit is not looked at.
pub fn judge_body(s: &[u8], mode: Mode) -> Result<Summary, Refusal>
    requires { (8 ≤ length s.now) × (length s.now ≤ most_bytes) }
    ensures { Walks (read_body mode 8 (drop 8 s.now)) (length s.now) result }
{
    let behind = Cursor {
        at: 8,
        end: s.len(),
    };
    let Some((version, c)) = behind.number(s) else {
        return Err(Refusal {
            number: refusals::CUT_ITEM,
            place: 8,
        });
    };
    if HIGHEST_VERSION < version {
        return Err(Refusal {
            number: refusals::RANGE,
            place: 8,
        });
    }
    judge_chunks(s, version, c, mode)
}
