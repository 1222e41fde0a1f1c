// Judges the chunks of a file after its textures as they are mended: at most one BRUS, at most one NODE.
#![tactic(auto)]

ghost use Rattle.std.specs.Prelude.{true, length};
ghost use Rattle.b3d_spec.specs.declared.Tag.TheVariants.{BB3D, NODE};
ghost use Rattle.b3d_spec.specs.Scene.{no_nodes};
ghost use Rattle.b3d_spec.specs.Nesting.{reached_at};
ghost use Rattle.b3d_spec.specs.Parse.{read_one};
ghost use Rattle.b3d_judge_tally.specs.Tally.{forest_tally};
ghost use Rattle.b3d_judge_tally.specs.Answers.{Judges};
ghost use Rattle.b3d_spec_chunk_places.specs.Places.{rest_in, Among};
ghost use Rattle.b3d_judge_file_chunks.specs.Answers.{Phases, Rests};
ghost use Rattle.b3d_mend_judge_items.specs.Lax.{lax_root};
ghost use Rattle.b3d_mend_judge_file.specs.Phases.{lax_last, lax_rest};

use b3d_chunk_next_allowed::Enclosed;
use b3d_judge_tally::Tally;
use b3d_rule_nesting_order::Reached;
use b3d_spec::{ALL_LEVELS, Mode, Tag};
use layout::Refusal;
use wire::Cursor;

// How far the chunks of a file have come after its brushes and its root, with them or without.
const BRUS_READ: Reached = Reached {
    turn: 2,
    spent: true,
};

const ROOT_READ: Reached = Reached {
    turn: 3,
    spent: true,
};

// More things than an id can be: every id names one.
const EVERY: usize = 4294967296;

// Judges the root with the nodes below it, if NODE comes first.
fn lax_root(s: &[u8], from: Cursor) -> Result<(Tally, Cursor), Refusal>
    requires { Among 0 from (length s.now) }
    ensures { Phases forest_tally (read_one NODE no_nodes lax_root (rest_in s.now BB3D 0 (reached_at 2 true) from))
        (rest_in s.now BB3D 0 (reached_at 3 true)) from result }
{
    let found = b3d_chunk_cursor::next_chunk(s, from);
    let Some(Enclosed { at, body, next, .. }) = b3d_chunk_next_allowed::next_inside(
        s,
        from,
        found,
        Tag::BB3D,
        0,
        BRUS_READ,
    )?
    else {
        return Ok((b3d_judge_tally::none(), from));
    };
    let t = b3d_mend_judge_tree::lax_node(s, at, body, ALL_LEVELS, None)?;
    Ok((t, next))
}

// Judges the root, if NODE comes first; nothing known may follow it.
fn lax_last(s: &[u8], from: Cursor) -> Result<Tally, Refusal>
    requires { Among 0 from (length s.now) }
    ensures { Judges forest_tally (lax_last (rest_in s.now BB3D 0 (reached_at 2 true) from)) from.at from.end result }
{
    let (t, end) = lax_root(s, from)?;
    let found = b3d_chunk_cursor::next_chunk(s, end);
    // Nothing known may stand here.
    b3d_chunk_next_allowed::next_inside(s, end, found, Tag::BB3D, 0, ROOT_READ)?;
    Ok(t)
}

// Judges BRUS, whatever its texture ids, and NODE.
pub fn lax_rest(s: &[u8], from: Cursor) -> Result<(u32, Tally), Refusal>
    requires { Among 0 from (length s.now) }
    ensures { Rests (lax_rest (rest_in s.now BB3D 0 (reached_at 1 true) from)) from.at from.end result }
{
    let (slots, b, c) = b3d_judge_file_chunks::judge_brus_chunk(s, from, EVERY, Mode::Lenient)?;
    let f = lax_last(s, c)?;
    Ok((slots, b3d_judge_tally::plus(b, f)))
}
