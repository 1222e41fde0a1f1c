// A node's parent, found in the rows of the nodes before it: from the last of them up, the first that has not ended.
#![tactic(auto)]

ghost use Rattle.b3d_read_node_parents.specs.Links.{Climbable, ParentIs};

use b3d_spec::{NODE_WIDTH, columns};

// Returns the number of the node that the NODE at `p` stands in, or NONE. It is found in the rows of the `nodes` nodes before it: a row holds the place of
// the name, which stands behind the header with the length, and the parent.
pub fn parent_at(file: &[u8], rows: &[u32], nodes: usize, p: usize) -> u32
    requires { Climbable file.now rows.now nodes p }
    ensures { ParentIs file.now rows.now nodes p result }
{
    let mut i = nodes;
    while 0 < i {
        let row = NODE_WIDTH * (i - 1);
        let name = wire::size(rows[row]);
        let long = wire::size(wire::number_at(file, name - 4));
        if p < name + long {
            return shared_table_words::cell(i - 1);
        }
        let above = rows[row + columns::NODE_PARENT];
        if above == 0xFFFFFFFF {
            return 0xFFFFFFFF;
        }
        i = wire::size(above) + 1;
    }
    0xFFFFFFFF
}
