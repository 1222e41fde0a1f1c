// The path from a node of lent tables up to the root: its parent on it, where its nodes end, and the bone limit that a node hands down. The bone limit is how
// many vertices a weight below the node may name.
#![tactic(auto)]

ghost use Rattle.std.specs.Prelude.{◌≡◌, ◌+◌, ◌-◌, ◌*◌, ◌<◌, ◌≤◌, length, get_or, eqb};
ghost use Rattle.wire.specs.Test.{if};
ghost use Rattle.b3d_spec.specs.Tables.{node_width};
ghost use Rattle.b3d_spec.specs.Columns as columns;
ghost use Rattle.b3d_check_parents.specs.Path.{CutTo, Ending};

use b3d_spec::{Counts, NODE_WIDTH, columns};

// Returns how many of the first `depth` levels of the path are left when it ends in node `p` at row `i`; 0 where `p` is not on it, or a node that is left
// does not end at row `i`.
pub fn up_to(path: &[usize], ends: &[usize], depth: usize, i: usize, p: usize) -> usize
    requires { (depth ≤ length path.now) × (depth ≤ length ends.now) }
    ensures { CutTo path.now ends.now depth i p result }
{
    for d in (0..depth).rev() {
        if path[d] == p {
            return d + 1;
        }
        if ends[d] != i {
            return 0;
        }
    }
    0
}

// Returns whether each of the first `depth` levels ends at row `i`.
pub fn all_end(ends: &[usize], depth: usize, i: usize) -> bool
    requires { depth ≤ length ends.now }
    ensures { Ending ends.now depth i result }
{
    ends[..depth].iter().all(|end| *end == i)
}

// Returns the parent cell of node `i`.
pub fn parent(t3: &[u32], i: usize) -> usize
    requires { node_width * i + columns.node_parent < length t3.now }
    ensures { result ≡ get_or t3.now (node_width * i + columns.node_parent) 0 }
{
    wire::size(t3[NODE_WIDTH * i + columns::NODE_PARENT])
}

// Returns the row behind node `i` and the nodes below it, by its branch word.
pub fn branch_end(t3: &[u32], i: usize) -> usize
    requires { (i < 0x100000000) × (node_width * i + columns.node_below < length t3.now) }
    ensures { result ≡ i + 1 + get_or t3.now (node_width * i + columns.node_below) 0 }
{
    i + 1 + wire::size(t3[NODE_WIDTH * i + columns::NODE_BELOW])
}

// Returns the bone limit that a node hands down: the vertices counted between `before` and `after` it if it has an ANIM, else the limit `told` that it got.
pub fn bones_below(told: u32, before: Counts, after: Counts, t3: &[u32]) -> u32
    requires { (node_width * before.nodes + columns.node_anim < length t3.now) × (before.vertices ≤ after.vertices) × (after.vertices < 0x100000000) }
    ensures { result ≡ if (eqb (get_or t3.now (node_width * before.nodes + columns.node_anim) 0) 1) (after.vertices - before.vertices) told }
{
    if t3[NODE_WIDTH * before.nodes + columns::NODE_ANIM] == 1 {
        return shared_table_words::cell(after.vertices - before.vertices);
    }
    told
}
