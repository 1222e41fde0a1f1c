// Whether one node of lent tables is sound, with all rows that are its own.
#![tactic(auto)]

ghost use Rattle.std.specs.Prelude.{◌≡◌, [], ◌+◌, ◌-◌, ◌*◌, ◌<◌, ◌≤◌, length, take, drop};
ghost use Rattle.b3d_spec.specs.Rebuild.{owned_by};
ghost use Rattle.b3d_spec.specs.Tables.{node_width, key_list_width, key_width};
ghost use Rattle.b3d_spec.specs.Columns as columns;
ghost use Rattle.b3d_check_spec.specs.Check.{groups_valid, key_list_valid, kind_valid, anim_valid, node_valid};
ghost use Rattle.b3d_check_rows.specs.Rows.{row_at, rows_at};
ghost use Rattle.b3d_check_spec.specs.Rooms.{KindRoom, ListRoom};
ghost use Rattle.b3d_check_node_counts.specs.Parts.{part_rows, Below};

use b3d_check_row_runs::Run;
use b3d_spec::{Counts, NODE_WIDTH, columns};

// Returns whether kind, first and count of the node that comes after the counts `n` are sound, with its mesh or weights; a weight may name a vertex below
// `most`. `all` counts the rows of the tables.
fn kind_valid(
    brushes: u32,
    most: u32,
    n: Counts,
    all: Counts,
    t3: &[u32],
    t4: &[u32],
    t5: &[u32],
    t6: &[u32],
    t7: &[u32],
    t8: &[u32],
) -> bool
    requires below { Below n all × KindRoom all (length t4.now) (length t5.now) (length t6.now) (length t7.now) (length t8.now) }
    requires nodes_lt_nodes { (n.nodes < all.nodes) × (node_width * all.nodes ≤ length t3.now) }
    ensures { result ≡ kind_valid brushes most (part_rows all t4.now t5.now t6.now t7.now t8.now [] []) n
        (drop columns.node_kind (row_at node_width n.nodes t3.now)) }
{
    let o = NODE_WIDTH * n.nodes;
    let kind = t3[o + columns::NODE_KIND];
    let first = b3d_check_rows::cell(t3, o + columns::NODE_FIRST);
    let count = b3d_check_rows::cell(t3, o + columns::NODE_COUNT);
    if kind == 1 {
        if !((first == n.meshes) & (count == 1)) {
            return false;
        }
        if all.meshes <= n.meshes {
            return false;
        }
        return b3d_check_mesh::mesh_valid(brushes, n, all, t4, t5, t6, t7);
    }
    if kind == 2 {
        if !(first == n.weights) {
            return false;
        }
        return b3d_check_mesh::weights_left(t8, most, count, n.weights, all.weights);
    }
    (kind == 0) & ((first == 0) & (count == 0))
}

// Returns whether the key lists of the node that comes after the counts `n` are sound, with their keys.
fn own_lists(n: Counts, all: Counts, t9: &[u32], t10: &[u32]) -> bool
    requires { Below n all × ListRoom all (length t9.now) (length t10.now) }
    ensures { result ≡ groups_valid key_list_valid n.keys (owned_by n.nodes (rows_at key_list_width n.lists (all.lists - n.lists) t9.now))
        (rows_at key_width n.keys (all.keys - n.keys) t10.now) }
{
    let end = b3d_check_row_runs::lists_of(n.nodes, t9, n.lists, all.lists);
    b3d_check_row_runs::groups_valid(Run::Keys, t9, n.lists, end - n.lists, t10, n.keys, all.keys)
}

// Returns whether row `i` of table 3, `t`, has 1 for an ANIM, or 0 and three values of 0.
fn anim_valid(t: &[u32], i: usize) -> bool
    requires { node_width * i + node_width ≤ length t.now }
    ensures { result ≡ anim_valid (take 4 (drop 3 (drop columns.node_kind (row_at node_width i t.now)))) }
{
    let o = NODE_WIDTH * i;
    let there = t[o + columns::NODE_ANIM];
    if there == 1 {
        return true;
    }
    (there == 0)
        & ((t[o + columns::NODE_ANIM_FLAGS] == 0)
            & ((t[o + columns::NODE_ANIM_FRAMES] == 0) & (t[o + columns::NODE_ANIM_FPS] == 0)))
}

// Returns whether the node that comes after the counts `n` is sound, with all that is its own in tables 3 to 10. The names are in `text`; a weight may name a
// vertex below `most`; `all` counts the rows of the tables.
pub fn node_valid(
    text: &[u8],
    brushes: u32,
    most: u32,
    n: Counts,
    all: Counts,
    t3: &[u32],
    t4: &[u32],
    t5: &[u32],
    t6: &[u32],
    t7: &[u32],
    t8: &[u32],
    t9: &[u32],
    t10: &[u32],
) -> bool
    requires below { Below n all × KindRoom all (length t4.now) (length t5.now) (length t6.now) (length t7.now) (length t8.now) }
    requires nodes_lt_nodes { (n.nodes < all.nodes) × (node_width * all.nodes ≤ length t3.now) × ListRoom all (length t9.now) (length t10.now) }
    ensures { result ≡ node_valid text.now brushes most
        (part_rows all t4.now t5.now t6.now t7.now t8.now t9.now t10.now)
        (row_at node_width n.nodes t3.now) n }
{
    let i = n.nodes;
    let o = NODE_WIDTH * i;
    if !b3d_check_rows::name_valid(text, t3[o], t3[o + columns::NAME_LENGTH]) {
        return false;
    }
    if !kind_valid(brushes, most, n, all, t3, t4, t5, t6, t7, t8) {
        return false;
    }
    if !own_lists(n, all, t9, t10) {
        return false;
    }
    anim_valid(t3, i)
}
