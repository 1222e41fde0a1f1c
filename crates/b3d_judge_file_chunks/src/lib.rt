// Judges the chunks of a file: at most one each of TEXS, BRUS and NODE, in that order.
#![tactic(auto)]

ghost use Rattle.std.specs.Prelude.{true, [], length};
ghost use Rattle.b3d_spec.specs.declared.Tag.TheVariants.{BB3D, TEXS, BRUS, NODE};
ghost use Rattle.b3d_spec.specs.Scene.{no_nodes};
ghost use Rattle.b3d_spec.specs.Nesting.{start, reached_at};
ghost use Rattle.b3d_spec.specs.Parse.{read_one, read_textures, read_brushes, read_root};
ghost use Rattle.b3d_judge_tally.specs.Tally.{texs_tally, forest_tally};
ghost use Rattle.b3d_judge_tally.specs.Answers.{Judges};
ghost use Rattle.b3d_spec_chunk_places.specs.Places.{rest_in, Among};
ghost use Rattle.b3d_judge_file_chunks.specs.Answers.{read_last, read_rest, Phases, Brushes, Rests};

use b3d_chunk_next_allowed::Enclosed;
use b3d_judge_tally::Tally;
use b3d_rule_nesting_order::Reached;
use b3d_spec::{ALL_LEVELS, Mode, Tag};
use layout::Refusal;
use wire::Cursor;

// How far the chunks of a file have come after its TEXS, or without one.
const TEXS_READ: Reached = Reached {
    turn: 1,
    spent: true,
};

// How far the chunks of a file have come after its BRUS, or without one.
const BRUS_READ: Reached = Reached {
    turn: 2,
    spent: true,
};

// How far the chunks of a file have come after its root, or without one.
const ROOT_READ: Reached = Reached {
    turn: 3,
    spent: true,
};

// Judges the TEXS of a file, if it comes first from the cursor `from` on. Returns its tally and the cursor after it, or the first refusal; without a TEXS no
// rows, and `from`.
pub fn judge_texs_chunk(s: &[u8], from: Cursor) -> Result<(Tally, Cursor), Refusal>
    requires { Among 0 from (length s.now) }
    ensures { Phases texs_tally (read_one TEXS [] read_textures (rest_in s.now BB3D 0 start from))
        (rest_in s.now BB3D 0 (reached_at 1 true)) from result }
{
    let found = b3d_chunk_cursor::next_chunk(s, from);
    let Some(
        Enclosed {
            tag,
            at,
            body,
            next,
            ..
        },
    ) = b3d_chunk_next_allowed::first_inside(s, from, found, Tag::BB3D, 0)?
    else {
        return Ok((b3d_judge_tally::none(), from));
    };
    match tag {
        Tag::TEXS => {
            let t = b3d_judge_materials::judge_textures(s, at, body)?;
            Ok((t, next))
        }
        _ => Ok((b3d_judge_tally::none(), from)),
    }
}

// Judges the BRUS of a file with this number of `textures`, if it comes first from the cursor `from` on. Returns n_texs, its tally and the cursor after it,
// or the first refusal; without a BRUS 0, no rows, and `from`.
pub fn judge_brus_chunk(
    s: &[u8],
    from: Cursor,
    textures: usize,
    mode: Mode,
) -> Result<(u32, Tally, Cursor), Refusal>
    requires { Among 0 from (length s.now) }
    ensures { Brushes (read_one BRUS (0, []) (read_brushes mode textures) (rest_in s.now BB3D 0 (reached_at 1 true) from))
        (rest_in s.now BB3D 0 (reached_at 2 true)) from result }
{
    let found = b3d_chunk_cursor::next_chunk(s, from);
    let Some(
        Enclosed {
            tag,
            at,
            body,
            next,
            ..
        },
    ) = b3d_chunk_next_allowed::next_inside(s, from, found, Tag::BB3D, 0, TEXS_READ)?
    else {
        return Ok((0, b3d_judge_tally::none(), from));
    };
    match tag {
        Tag::BRUS => {
            let (slots, t) = b3d_judge_materials::judge_brushes(s, at, body, textures, mode)?;
            Ok((slots, t, next))
        }
        _ => Ok((0, b3d_judge_tally::none(), from)),
    }
}

// Judges the root NODE of a file with this number of `brushes`, if it comes first from the cursor `from` on. Returns the tally of the nodes and the cursor
// after it, or the first refusal; without a NODE no rows, and `from`.
fn judge_root(
    s: &[u8],
    from: Cursor,
    brushes: usize,
    mode: Mode,
) -> Result<(Tally, Cursor), Refusal>
    requires { Among 0 from (length s.now) }
    ensures { Phases forest_tally (read_one NODE no_nodes (read_root mode brushes) (rest_in s.now BB3D 0 (reached_at 2 true) from))
        (rest_in s.now BB3D 0 (reached_at 3 true)) from result }
{
    let found = b3d_chunk_cursor::next_chunk(s, from);
    let Some(Enclosed { at, body, next, .. }) = b3d_chunk_next_allowed::next_inside(
        s,
        from,
        found,
        Tag::BB3D,
        0,
        BRUS_READ,
    )?
    else {
        return Ok((b3d_judge_tally::none(), from));
    };
    let t = b3d_judge_nodes::judge_node(s, at, body, ALL_LEVELS, brushes, None, mode)?;
    Ok((t, next))
}

// Judges the root NODE of a file, if it comes first from the cursor `from` on, and that no known chunk follows it. Returns the tally of the nodes, or the
// first refusal.
fn judge_last(s: &[u8], from: Cursor, brushes: usize, mode: Mode) -> Result<Tally, Refusal>
    requires { Among 0 from (length s.now) }
    ensures { Judges forest_tally (read_last mode brushes (rest_in s.now BB3D 0 (reached_at 2 true) from)) from.at from.end result }
{
    let (t, end) = judge_root(s, from, brushes, mode)?;
    let found = b3d_chunk_cursor::next_chunk(s, end);
    // Nothing known may stand here.
    b3d_chunk_next_allowed::next_inside(s, end, found, Tag::BB3D, 0, ROOT_READ)?;
    Ok(t)
}

// Judges the chunks of a file with this number of `textures` behind its TEXS, from the cursor `from` on: BRUS and NODE. Returns n_texs and their tally, or
// the first refusal.
pub fn judge_rest(
    s: &[u8],
    from: Cursor,
    textures: usize,
    mode: Mode,
) -> Result<(u32, Tally), Refusal>
    requires { Among 0 from (length s.now) }
    ensures { Rests (read_rest mode textures (rest_in s.now BB3D 0 (reached_at 1 true) from)) from.at from.end result }
{
    let (slots, b, c) = judge_brus_chunk(s, from, textures, mode)?;
    let f = judge_last(s, c, b.brushes, mode)?;
    Ok((slots, b3d_judge_tally::plus(b, f)))
}
