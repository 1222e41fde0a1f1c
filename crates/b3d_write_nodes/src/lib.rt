// The NODE chunks of lent tables, written into an output: a node's own part, those below it, those after it.
#![tactic(auto)]

ghost use Rattle.b3d_write_node.specs.Own.{table_rows};
ghost use Rattle.b3d_write_nodes.specs.Walk.{TablesSized, Writable, WritesNodes, WritableFirst, WritesFirst};

use b3d_spec::{Counts, NODE_WIDTH, columns, letters};

// How many bytes were written, and the counts after the nodes that were written.
#[derive(Clone, Copy)]
pub struct NodesWritten {
    pub size: usize,
    pub counts: Counts,
}

// Writes the NODE that comes after the counts `n`, with `levels` levels left: what is its own, the nodes below it, then the header before them. Returns its
// size and the counts after it.
#[cycle(write_node_write_nodes)]
pub fn write_node(
    names: &[u8],
    t3: &[u32],
    t4: &[u32],
    t5: &[u32],
    t6: &[u32],
    t7: &[u32],
    t8: &[u32],
    t9: &[u32],
    t10: &[u32],
    all: Counts,
    levels: u32,
    n: Counts,
    out: &mut [u8],
) -> NodesWritten
    requires tables_sized { TablesSized all t3.now t4.now t5.now t6.now t7.now t8.now t9.now t10.now }
    requires writable_first { WritableFirst names.now (table_rows t3.now t4.now t5.now t6.now t7.now t8.now t9.now t10.now) levels n out.old }
    ensures { WritesFirst names.now
        (table_rows t3.now t4.now t5.now t6.now t7.now
        t8.now t9.now t10.now) levels n out.old out.new result.size result.counts }
{
    let body = &mut out[8..];
    let own = b3d_write_node::write_own_chunks(names, t3, t4, t5, t6, t7, t8, t9, t10, n, body);
    let m = b3d_check_node_counts::node_counts(n, all, t3, t4, t6, t9);
    let i = n.nodes;
    let l = levels - 1;
    let rest = &mut out[own + 8..];
    let below = write_nodes(names, t3, t4, t5, t6, t7, t8, t9, t10, all, i, l, m, rest);
    let long = own + below.size;
    shared_output::put_header(out, letters::NODE, long);
    let size = long + 8;
    let counts = below.counts;
    NodesWritten { size, counts }
}

// Writes the nodes after the counts `n` whose parent is `parent`, with `levels` levels left, up to the first that has another. Returns their size and the
// counts after them.
#[cycle(write_node_write_nodes)]
pub fn write_nodes(
    names: &[u8],
    t3: &[u32],
    t4: &[u32],
    t5: &[u32],
    t6: &[u32],
    t7: &[u32],
    t8: &[u32],
    t9: &[u32],
    t10: &[u32],
    all: Counts,
    parent: usize,
    levels: u32,
    n: Counts,
    out: &mut [u8],
) -> NodesWritten
    requires tables_sized { TablesSized all t3.now t4.now t5.now t6.now t7.now t8.now t9.now t10.now }
    requires writable { Writable names.now (table_rows t3.now t4.now t5.now t6.now t7.now t8.now t9.now t10.now) levels parent n out.old }
    ensures { WritesNodes names.now
        (table_rows t3.now t4.now t5.now t6.now t7.now
        t8.now t9.now t10.now) levels parent n out.old out.new result.size result.counts }
{
    let mut size: usize = 0;
    let mut m = n;
    while m.nodes < all.nodes {
        if b3d_write_items::number(t3, NODE_WIDTH * m.nodes + columns::NODE_PARENT) != parent {
            return NodesWritten { size, counts: m };
        }
        let rest = &mut out[size..];
        let r = write_node(names, t3, t4, t5, t6, t7, t8, t9, t10, all, levels, m, rest);
        size += r.size;
        m = r.counts;
    }
    NodesWritten { size, counts: m }
}
