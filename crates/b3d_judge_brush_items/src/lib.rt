// Counts the items of a BRUS, and looks at the colours and the texture ids of each brush.
#![tactic(auto)]

ghost use Rattle.std.specs.Prelude.{◌≤◌, ◌≡◌, length};
ghost use Rattle.wire.specs.Cursors.{Inside, left};
ghost use Rattle.layout.specs.Parts.{items};
ghost use Rattle.b3d_spec.specs.Parse.{read_brush};
ghost use Rattle.b3d_spec.specs.Rules.{most_slots};
ghost use Rattle.b3d_judge_brush_items.specs.Brushes.{brush_colours, counted_brushes, BrushesIn};

use b3d_chunk_cursor::Named;
use b3d_spec::Mode;
use layout::{Refusal, refusals};
use wire::Cursor;

// Returns how many of the first words of a brush are colours that the `mode` looks at: 4 or 0.
fn brush_colours(mode: Mode) -> usize
    ensures { (result ≡ brush_colours mode) × (result ≤ 4) }
{
    match mode {
        Mode::Strict => 4,
        Mode::Lenient => 0,
    }
}

// Counts the brushes that `from` has left, each with `slots` texture ids that are -1 or below `textures`. Answers 5 at a brush that is cut, 6 at a colour
// that does not pass in the `mode`, 7 at an id that names nothing.
pub fn brush_items(
    s: &[u8],
    from: Cursor,
    slots: usize,
    textures: usize,
    mode: Mode,
) -> Result<usize, Refusal>
    requires { Inside from (length s.now) × (slots ≤ most_slots) }
    ensures { (result ≡ counted_brushes (items (read_brush mode slots textures) from.at (left from s.now))) × BrushesIn from slots result }
{
    let mut c = from;
    let mut count: usize = 0;
    while c.at < c.end {
        let Some(Named { row, next, .. }) = b3d_chunk_cursor::named_row(s, c, 7 + slots) else {
            return Err(Refusal {
                number: refusals::CUT_ITEM,
                place: c.at,
            });
        };
        let colours = brush_colours(mode);
        let passed = b3d_judge_colour_items::first_bad_colour(s, row, colours);
        if passed < colours {
            return Err(Refusal {
                number: refusals::RANGE,
                place: row.at + 4 * passed,
            });
        }
        let ids = Cursor {
            at: row.at + 28,
            end: row.end,
        };
        let good = shared_ids::first_invalid(s, ids, slots, textures, true);
        if good < slots {
            return Err(Refusal {
                number: refusals::NO_SUCH_ID,
                place: ids.at + 4 * good,
            });
        }
        count += 1;
        c = next;
    }
    Ok(count)
}
