// Judges the two lists of a file, TEXS and BRUS, whose items begin with a name.
#![tactic(auto)]

ghost use Rattle.std.specs.Prelude.{length};
ghost use Rattle.wire.specs.Cursors.{left};
ghost use Rattle.b3d_spec.specs.Parse.{read_textures, read_brushes};
ghost use Rattle.b3d_judge_materials.specs.Answers.{SlotsAre};
ghost use Rattle.b3d_judge_tally.specs.Tally.{texs_tally};
ghost use Rattle.b3d_spec_chunk_places.specs.Places.{Body};
ghost use Rattle.b3d_judge_tally.specs.Answers.{Judges};

use b3d_chunk_cursor::Named;
use b3d_judge_tally::Tally;
use b3d_spec::{MOST_SLOTS, Mode};
use layout::{Refusal, refusals};
use wire::Cursor;

// Judges the `body` of a TEXS whose header is at `at`: textures to the end. Returns its tally, that of no TEXS without a texture; 5 at a texture that is cut.
pub fn judge_textures(s: &[u8], at: usize, body: Cursor) -> Result<Tally, Refusal>
    requires { Body at body (length s.now) }
    ensures { Judges texs_tally (read_textures at (left body s.now)) at body.end result }
{
    let mut c = body;
    let mut count: usize = 0;
    while c.at < c.end {
        let Some(Named { next, .. }) = b3d_chunk_cursor::named_row(s, c, 7) else {
            return Err(Refusal {
                number: refusals::CUT_ITEM,
                place: c.at,
            });
        };
        count += 1;
        c = next;
    }
    Ok(b3d_judge_tally::texs(count))
}

// Judges the `body` of a BRUS whose header is at `at`: n_texs, then brushes to the end, whose texture ids are -1 or below `textures`. Returns n_texs, 0
// without a brush, and its tally; 5 at n_texs or a brush that is cut, 6 at n_texs over 8 or a colour that does not pass in the `mode`, 7 at an id that names
// nothing.
pub fn judge_brushes(
    s: &[u8],
    at: usize,
    body: Cursor,
    textures: usize,
    mode: Mode,
) -> Result<(u32, Tally), Refusal>
    requires { Body at body (length s.now) }
    ensures { SlotsAre (read_brushes mode textures at (left body s.now)) at body.end result }
{
    let Some((slots, items)) = body.number(s) else {
        return Err(Refusal {
            number: refusals::CUT_ITEM,
            place: body.at,
        });
    };
    if MOST_SLOTS < slots {
        return Err(Refusal {
            number: refusals::RANGE,
            place: body.at,
        });
    }
    let n = wire::size(slots);
    let count = b3d_judge_brush_items::brush_items(s, items, n, textures, mode)?;
    if count == 0 {
        return Ok((0, b3d_judge_tally::none()));
    }
    Ok((slots, b3d_judge_tally::brus(n, count)))
}
