// Judges the bodies of chunks that hold items only: VRTS, TRIS, BONE and KEYS. An answer is a refusal with its place, or what the body adds to the row counts
// and to the size of the cleared copy.
#![tactic(auto)]

ghost use Rattle.std.specs.Prelude.{◌≤◌, ◌<◌, ◌+◌, ◌-◌, ◌≡◌, length};
ghost use Rattle.wire.specs.Cursors.{Inside, left};
ghost use Rattle.layout.specs.Parts.{items};
ghost use Rattle.b3d_spec.specs.Parse.{read_vertices, read_triangles, read_bone, read_keys};
ghost use Rattle.b3d_spec.specs.Rules.{highest_vertex_flags};
ghost use Rattle.b3d_judge_items.specs.Items.{colour_items, counted, CountedIn};
ghost use Rattle.b3d_judge_bodies.specs.Colours.{before_colour, colours_of};
ghost use Rattle.b3d_judge_tally.specs.Tally.{list_tally, bone_tally, set_tally};
ghost use Rattle.b3d_spec_chunk_places.specs.Places.{Body};
ghost use Rattle.b3d_judge_tally.specs.Answers.{Judges};
ghost use Rattle.b3d_judge_bodies.specs.Answers.{Shapes};

use b3d_judge_tally::Tally;
use b3d_spec::{HIGHEST_KEY_FLAGS, HIGHEST_VERTEX_FLAGS, LARGEST_SET, MOST_SETS, Mode};
use layout::{Refusal, refusals};
use wire::Cursor;

// Judges the `body` of a KEYS whose header is at `at`: its flags, then keys to the end, none at all being allowed. Returns its tally; 5 where flags or a key
// is cut, 6 at flags over 7.
pub fn judge_keys(s: &[u8], at: usize, body: Cursor) -> Result<Tally, Refusal>
    requires { Body at body (length s.now) }
    ensures { Judges list_tally (read_keys at (left body s.now)) at body.end result }
{
    let Some((flags, items)) = body.number(s) else {
        return Err(Refusal {
            number: refusals::CUT_ITEM,
            place: body.at,
        });
    };
    if HIGHEST_KEY_FLAGS < flags {
        return Err(Refusal {
            number: refusals::RANGE,
            place: body.at,
        });
    }
    let words = b3d_rule_widths::key_words(flags);
    let count = b3d_judge_items::whole_items(items, words)?;
    Ok(b3d_judge_tally::keys(count, words))
}

// Judges the `body` of a BONE whose header is at `at`: weights to the end. Returns its tally; 5 at a weight that is cut, 7 at a vertex id that is not below
// `vertices`.
pub fn judge_bone(s: &[u8], at: usize, body: Cursor, vertices: usize) -> Result<Tally, Refusal>
    requires { Body at body (length s.now) }
    ensures { Judges bone_tally (read_bone vertices at (left body s.now)) at body.end result }
{
    let count = b3d_judge_items::id_items(s, body, 2, 1, vertices)?;
    Ok(b3d_judge_tally::weights(count))
}

// Returns how many words of a vertex with these `flags` are colours that the `mode` looks at: 4 or 0.
fn colours_of(mode: Mode, flags: u32) -> usize
    requires { flags ≤ highest_vertex_flags }
    ensures { result ≡ colours_of mode flags }
{
    match mode {
        Mode::Strict => wire::size(flags / 2 % 2 * 4),
        Mode::Lenient => 0,
    }
}

// Counts the vertices of `words` words that `items` has left, by one division where no colour is looked at. Answers 5 at a vertex that is cut, 6 at a colour
// that does not pass.
fn vertex_items(
    s: &[u8],
    items: Cursor,
    words: usize,
    flags: u32,
    mode: Mode,
) -> Result<usize, Refusal>
    requires { Inside items (length s.now) × (flags ≤ highest_vertex_flags) × (0 < words) × (words ≤ 64)
        × (before_colour flags + colours_of mode flags ≤ words) }
    ensures { (result ≡ counted (colour_items (before_colour flags) (colours_of mode flags) (words - (before_colour flags + colours_of mode flags)) items.at
        (left items s.now))) × CountedIn items words result }
{
    let n = colours_of(mode, flags);
    if n == 0 {
        return b3d_judge_items::whole_items(items, words);
    }
    let before = wire::size(3 + flags / 1 % 2 * 3);
    b3d_judge_colour_items::colour_items(s, items, words, before, n)
}

// Judges the `body` of a VRTS whose header is at `at`: flags, sets and set size, then vertices to the end. Returns how many vertices and words of each; 5
// where these numbers or a vertex is cut, 6 at a number out of its range or, in strict `mode`, a colour that does not pass.
pub fn judge_vertices(
    s: &[u8],
    at: usize,
    body: Cursor,
    mode: Mode,
) -> Result<(usize, usize), Refusal>
    requires { Body at body (length s.now) }
    ensures { Shapes (read_vertices mode at (left body s.now)) body result }
{
    let start = body.at;
    let end = body.end;
    if end - start < 12 {
        return Err(Refusal {
            number: refusals::CUT_ITEM,
            place: start,
        });
    }
    let flags = wire::number_at(s, start);
    let sets = wire::number_at(s, start + 4);
    let size = wire::number_at(s, start + 8);
    if HIGHEST_VERTEX_FLAGS < flags {
        return Err(Refusal {
            number: refusals::RANGE,
            place: start,
        });
    }
    if MOST_SETS < sets {
        return Err(Refusal {
            number: refusals::RANGE,
            place: start + 4,
        });
    }
    if LARGEST_SET < size {
        return Err(Refusal {
            number: refusals::RANGE,
            place: start + 8,
        });
    }
    let words = b3d_rule_widths::vertex_words(flags, sets, size);
    let items = Cursor {
        at: start + 12,
        end,
    };
    let count = vertex_items(s, items, words, flags, mode)?;
    Ok((count, words))
}

// Judges the `body` of a TRIS whose header is at `at`: its brush id, -1 or below `brushes`, then triangles to the end. Returns its tally; 5 where the id or a
// triangle is cut, 7 at a brush id that names nothing or a vertex id that is not below `vertices`.
pub fn judge_triangles(
    s: &[u8],
    at: usize,
    body: Cursor,
    brushes: usize,
    vertices: usize,
) -> Result<Tally, Refusal>
    requires { Body at body (length s.now) }
    ensures { Judges set_tally (read_triangles brushes vertices at (left body s.now)) at body.end result }
{
    let Some((brush, items)) = body.number(s) else {
        return Err(Refusal {
            number: refusals::CUT_ITEM,
            place: body.at,
        });
    };
    if !shared_ids::id_valid(brush, brushes, true) {
        return Err(Refusal {
            number: refusals::NO_SUCH_ID,
            place: body.at,
        });
    }
    let count = b3d_judge_items::id_items(s, items, 3, 3, vertices)?;
    Ok(b3d_judge_tally::triangles(count))
}
