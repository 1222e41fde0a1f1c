// Whether the nodes of lent tables below the root are sound: their own rows, parents, branch words and bone limits; and that no row is left over.
#![tactic(auto)]

ghost use Rattle.std.specs.Prelude.{◌≡◌, [], ◌∷◌, ◌-◌, ◌*◌, ◌≤◌, length};
ghost use Rattle.b3d_spec.specs.Tables.{node_width};
ghost use Rattle.b3d_check_spec.specs.Check.{nodes_valid};
ghost use Rattle.b3d_check_rows.specs.Rows.{rows_at};
ghost use Rattle.b3d_check_spec.specs.Rooms.{Limited, KindRoom, ListRoom};
ghost use Rattle.b3d_check_node_counts.specs.Parts.{part_rows, Below};

use b3d_check_node::node_valid;
use b3d_spec::{Counts, LEVELS};

// Returns whether the nodes after the root are sound in tables 3 to 10, whose rows `all` counts; `from` are the counts after the root, whose branch ends at
// row `end` and whose bone limit is its vertices. The names are in `text`. A path of 16 levels holds the open nodes, where each ends and its bone limit.
pub fn nodes_valid(
    text: &[u8],
    brushes: u32,
    end: usize,
    from: Counts,
    all: Counts,
    t3: &[u32],
    t4: &[u32],
    t5: &[u32],
    t6: &[u32],
    t7: &[u32],
    t8: &[u32],
    t9: &[u32],
    t10: &[u32],
) -> bool
    requires below { Below from all × KindRoom all (length t4.now) (length t5.now) (length t6.now) (length t7.now) (length t8.now) }
    requires limited { Limited all × (node_width * all.nodes ≤ length t3.now) × ListRoom all (length t9.now) (length t10.now) }
    ensures { result ≡ nodes_valid text.now brushes
        (part_rows all t4.now t5.now t6.now t7.now t8.now t9.now t10.now)
        (record { node = 0; end = end; bones = from.vertices } ∷ []) (rows_at node_width from.nodes (all.nodes - from.nodes) t3.now) from }
{
    let mut path: [usize; LEVELS] = [0; LEVELS];
    let mut ends: [usize; LEVELS] = [0; LEVELS];
    ends[0] = end;
    let mut bones: [u32; LEVELS] = [0; LEVELS];
    bones[0] = shared_table_words::cell(from.vertices);
    let mut depth: usize = 1;
    let mut n = from;
    while n.nodes < all.nodes {
        let p = b3d_check_parents::parent(t3, n.nodes);
        let d = b3d_check_parents::up_to(&path, &ends, depth, n.nodes, p);
        if d <= 0 {
            return false;
        }
        if LEVELS <= d {
            return false;
        }
        let told = bones[d - 1];
        if !node_valid(text, brushes, told, n, all, t3, t4, t5, t6, t7, t8, t9, t10) {
            return false;
        }
        let m = b3d_check_node_counts::node_counts(n, all, t3, t4, t6, t9);
        path[d] = n.nodes;
        ends[d] = b3d_check_parents::branch_end(t3, n.nodes);
        bones[d] = b3d_check_parents::bones_below(told, n, m, t3);
        depth = d + 1;
        n = m;
    }
    if !b3d_check_parents::all_end(&ends, depth, n.nodes) {
        return false;
    }
    b3d_check_node_counts::ended(n, all)
}
