// Whether the nodes of lent tables are sound: the root, and those below it.
#![tactic(auto)]

ghost use Rattle.std.specs.Prelude.{◌≡◌, ◌*◌, ◌≤◌, length};
ghost use Rattle.b3d_spec.specs.Rebuild.{cut};
ghost use Rattle.b3d_spec.specs.Tables.{node_width};
ghost use Rattle.b3d_check_spec.specs.Check.{tree_valid};
ghost use Rattle.b3d_check_spec.specs.Rooms.{Limited, KindRoom, ListRoom};
ghost use Rattle.b3d_check_node_counts.specs.Parts.{part_rows};

use b3d_check_node::node_valid;
use b3d_spec::{Counts, START};

// Returns whether all nodes are sound in tables 3 to 10, whose rows `all` counts: the root, whose parent is NONE, and those below it. The names are in
// `text`. Without a node no row of tables 4 to 10 may be left.
pub fn tree_valid(
    text: &[u8],
    brushes: u32,
    all: Counts,
    t3: &[u32],
    t4: &[u32],
    t5: &[u32],
    t6: &[u32],
    t7: &[u32],
    t8: &[u32],
    t9: &[u32],
    t10: &[u32],
) -> bool
    requires limited { Limited all × KindRoom all (length t4.now) (length t5.now) (length t6.now) (length t7.now) (length t8.now) }
    requires nodes_in_bounds { (node_width * all.nodes ≤ length t3.now) × ListRoom all (length t9.now) (length t10.now) }
    ensures { result ≡ tree_valid text.now brushes
        (part_rows all t4.now t5.now t6.now t7.now t8.now t9.now t10.now)
        (cut node_width all.nodes t3.now) }
{
    let n = START;
    if all.nodes <= 0 {
        return b3d_check_node_counts::ended(n, all);
    }
    if !(t3[2] == 0xFFFFFFFF) {
        return false;
    }
    if !node_valid(text, brushes, 0, n, all, t3, t4, t5, t6, t7, t8, t9, t10) {
        return false;
    }
    let m = b3d_check_node_counts::node_counts(n, all, t3, t4, t6, t9);
    let end = b3d_check_parents::branch_end(t3, 0);
    b3d_check_nodes::nodes_valid(text, brushes, end, m, all, t3, t4, t5, t6, t7, t8, t9, t10)
}
