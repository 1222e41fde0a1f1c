// Judges a NODE as it is mended, with the nodes below it, a node and its list of children calling each other: at most 16 levels.
#![tactic(auto)]

ghost use Rattle.std.specs.Prelude.{false, length};
ghost use Rattle.wire.specs.Cursors.{left};
ghost use Rattle.b3d_spec.specs.declared.Tag.TheVariants.{NODE};
ghost use Rattle.b3d_spec.specs.Parse.{read_nodes};
ghost use Rattle.b3d_judge_tally.specs.Tally.{forest_tally, inner_tally};
ghost use Rattle.b3d_spec.specs.Nesting.{reached_at};
ghost use Rattle.b3d_spec_chunk_places.specs.Places.{Body, rest_in, Among};
ghost use Rattle.b3d_judge_tally.specs.Answers.{Judges};
ghost use Rattle.b3d_judge_node.specs.Answers.{above_of};
ghost use Rattle.b3d_mend_judge_items.specs.Lax.{lax_node};

use b3d_chunk_next_allowed::Enclosed;
use b3d_judge_tally::Tally;
use b3d_rule_nesting_order::Reached;
use b3d_spec::Tag;
use layout::{Refusal, refusals};
use wire::Cursor;

// How far the chunks of a node have come after its KEYS and ANIM.
const MOVES_READ: Reached = Reached {
    turn: 3,
    spent: false,
};

// Judges a NODE whose header is at `at`, with the nodes below it; 9 where no level is left.
#[cycle(lax_node_lax_nodes)]
pub fn lax_node(
    s: &[u8],
    at: usize,
    body: Cursor,
    levels: u32,
    above: Option<usize>,
) -> Result<Tally, Refusal>
    requires { Body at body (length s.now) }
    ensures { Judges inner_tally (lax_node levels (above_of above) at (left body s.now)) at body.end result }
{
    if levels == 0 {
        return Err(Refusal {
            number: refusals::TOO_DEEP,
            place: at,
        });
    }
    let (below, t, c) = b3d_mend_judge_node::lax_own(s, at, body, above)?;
    let f = lax_nodes(s, at, c, levels - 1, below)?;
    Ok(b3d_judge_tally::plus(t, f))
}

// Judges the nodes from `from` on inside a node whose header is at `at`, with `levels` levels left for each.
#[cycle(lax_node_lax_nodes)]
fn lax_nodes(
    s: &[u8],
    at: usize,
    from: Cursor,
    levels: u32,
    above: Option<usize>,
) -> Result<Tally, Refusal>
    requires { Among at from (length s.now) }
    ensures { Judges forest_tally (read_nodes (lax_node levels (above_of above)) (rest_in s.now NODE at (reached_at 3 false) from))
        from.at from.end result }
{
    let mut c = from;
    let mut q = MOVES_READ;
    let mut m = b3d_judge_tally::none();
    loop {
        let found = b3d_chunk_cursor::next_chunk(s, c);
        let Some(
            Enclosed {
                at: p,
                body,
                next,
                reached,
                ..
            },
        ) = b3d_chunk_next_allowed::next_inside(s, c, found, Tag::NODE, at, q)?
        else {
            return Ok(m);
        };
        let t = lax_node(s, p, body, levels, above)?;
        m = b3d_judge_tally::plus(m, t);
        q = reached;
        c = next;
    }
}
