// The branch words of table 3, the numbers of nodes below each node, stored in one pass backward over the rows, which are whole but for these words.
#![tactic(auto)]

ghost use Rattle.std.specs.Prelude.{◌≡◌, ◌+◌, ◌-◌};
ghost use Rattle.wire.specs.Bytes.{word_at};
ghost use Rattle.b3d_read_branch_words.specs.Marks.{NameAt, Halfway, BranchIs, Branchless, Branched};

use b3d_spec::{NODE_WIDTH, columns};

// Returns the place behind the last byte of the node whose name is at `name`, by the length before it.
fn end_of(file: &[u8], name: usize) -> usize
    requires { NameAt file.now name }
    ensures { result ≡ name + word_at file.now (name - 4) }
{
    name + wire::size(wire::number_at(file, name - 4))
}

// Returns how many nodes are below node `i` of the `nodes` nodes whose rows stand in `rows`; those behind it have their branch words. Nodes behind `i` are
// passed while they begin before its end: one that ends there or before together with those below it, any other by itself.
fn below(file: &[u8], rows: &[u32], nodes: usize, i: usize) -> usize
    requires { Halfway file.now rows.now nodes i }
    ensures { BranchIs file.now rows.now nodes i result }
{
    let end = end_of(file, wire::size(rows[NODE_WIDTH * i]));
    let mut j = i + 1;
    // Stays a `while`: a node is passed together with those below it, so that no index counts.
    while j < nodes {
        let row = NODE_WIDTH * j;
        let name = wire::size(rows[row]);
        if end + 8 <= name {
            return j - (i + 1);
        }
        let word = wire::size(rows[row + columns::NODE_BELOW]);
        if word == 0 {
            j += 1;
        } else if end < end_of(file, name) {
            j += 1;
        } else {
            j += 1 + word;
        }
    }
    j - (i + 1)
}

// Stores the branch words of the `nodes` nodes of `file` whose rows stand in `out`, from the last node to the first. All other cells stay as they were.
pub fn store_branch_words(file: &[u8], nodes: usize, out: &mut [u32])
    requires { Branchless file.now out.old nodes }
    ensures { Branched file.now out.old nodes out.new }
{
    for node in (0..nodes).rev() {
        let word = shared_table_words::cell(below(file, out, nodes, node));
        let o = NODE_WIDTH * node + columns::NODE_BELOW;
        out[o] = word;
    }
}
