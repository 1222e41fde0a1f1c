// The KEYS and the ANIM of a node, written from rows of lent tables: t3 the nodes, t9 the key lists, t10 the keys.
#![tactic(auto)]

ghost use Rattle.std.specs.Prelude.{◌≡◌, ◌+◌, ◌*◌, ◌/◌, ◌<◌, ◌≤◌, length, drop};
ghost use Rattle.shared_output.specs.Writing.{Room, Put};
ghost use Rattle.b3d_spec.specs.Rebuild.{owned_by};
ghost use Rattle.b3d_spec.specs.Tables.{node_width, key_list_width};
ghost use Rattle.b3d_write_row_runs.specs.Lent.{rows_in};
ghost use Rattle.b3d_write_animation.specs.Animation.{anim_part, moves_bytes, MovesThere};

use b3d_spec::{Counts, KEY_LIST_WIDTH, columns};
use b3d_write_item_lists::put_runs;
use b3d_write_items::{number, put_values};

// Writes the ANIM that the four words of `nodes` from word `at` on say. Returns its size; 0 where they say there is none.
fn put_anim(nodes: &[u32], at: usize, out: &mut [u8]) -> usize
    requires at_in_bounds { at + 4 ≤ length nodes.now }
    requires room { Room (anim_part nodes.now at) out.old }
    ensures { Put (anim_part nodes.now at) out.old out.new result }
{
    if nodes[at] == 1 {
        return put_values(nodes, at + 1, out);
    }
    0
}

// Returns how many rows of `lists` from row `first` on belong to `node`, up to the first that does not.
fn count_lists(lists: &[u32], first: usize, node: usize) -> usize
    ensures { result ≡ length (owned_by node (drop first (rows_in key_list_width lists.now))) }
{
    let rows = lists.len() / KEY_LIST_WIDTH;
    for i in first..rows {
        if number(lists, KEY_LIST_WIDTH * i) != node {
            return i - first;
        }
    }
    rows.saturating_sub(first)
}

// Writes the KEYS and the ANIM of the node whose row begins at word `row` of `t3` and which comes after the counts `n`. Returns their size.
pub fn write_animation(
    t3: &[u32],
    row: usize,
    t9: &[u32],
    t10: &[u32],
    n: Counts,
    out: &mut [u8],
) -> usize
    requires node_width_in_bounds { row + node_width ≤ length t3.now }
    requires moves_there { MovesThere t9.now t10.now n }
    requires room { Room (moves_bytes t3.now row t9.now t10.now n) out.old }
    ensures { Put (moves_bytes t3.now row t9.now t10.now n) out.old out.new result }
{
    let count = count_lists(t9, n.lists, n.nodes);
    let a = put_runs(true, t9, n.lists, count, t10, n.keys, out);
    let b = put_anim(t3, row + columns::NODE_ANIM, &mut out[a..]);
    a + b
}
