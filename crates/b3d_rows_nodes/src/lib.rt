// The next row of table 3, the nodes, and the nodes that are open at a place of a file, by value: at most 16. A node that is entered finds its parent there.
#![tactic(auto)]

ghost use Rattle.std.specs.Prelude.{◌≡◌, ◌<◌, ◌≤◌, length, leb};
ghost use Rattle.b3d_spec.specs.Tables.{vertex_width};
ghost use Rattle.b3d_spec.specs.Rules.{levels};
ghost use Rattle.b3d_rows_nodes.specs.NodeStack.{stack_of, open_at, top_of, OpenNodesAt, NodesOpenAt, Enters};
ghost use Rattle.b3d_rows_nodes.specs.NextNode.{NodeFinds, NodePosition, NodeNexts};

use b3d_rows_positions::Position;
use b3d_spec::{LEVELS, Tag};
use wire::Cursor;

// The nodes that are open at a place: `depth` of them, the root first, with their ends and their row numbers. The cells from `depth` on say nothing.
#[derive(Clone, Copy)]
pub struct OpenNodes {
    pub depth: usize,
    pub ends: [usize; LEVELS],
    pub nodes: [u32; LEVELS],
}

// Returns how many of the first `depth` nodes with these `ends` are open at the place `p`: those that ended there or before are taken off at the end.
fn close(ends: [usize; LEVELS], depth: usize, p: usize) -> usize
    requires { depth ≤ levels }
    ensures { NodesOpenAt ends depth p result }
{
    for d in (0..depth).rev() {
        if p < ends[d] {
            return d + 1;
        }
    }
    0
}

// Returns the row number of the last of the first `d` nodes, NONE where `d` is 0.
fn top(nodes: [u32; LEVELS], d: usize) -> u32
    requires { d ≤ levels }
    ensures { result ≡ top_of nodes d }
{
    if d == 0 {
        return 0xFFFFFFFF;
    }
    nodes[d - 1]
}

// An entered node's `parent`, and the open nodes with it.
#[derive(Clone, Copy)]
pub struct EnteredNode {
    pub parent: u32,
    pub path: OpenNodes,
}

// Enters a node with its header at `p`, its end at `end` and the row number `index`: returns its parent, NONE where no node is open at `p`, and the open nodes
// with it.
fn enter(path: OpenNodes, p: usize, end: usize, index: u32) -> EnteredNode
    requires { OpenNodesAt path × (length (open_at p (stack_of path)) < levels) }
    ensures { Enters path p end index result }
{
    let mut ends = path.ends;
    let mut nodes = path.nodes;
    let d = close(ends, path.depth, p);
    let parent = top(nodes, d);
    ends[d] = end;
    nodes[d] = index;
    EnteredNode {
        parent,
        path: OpenNodes {
            depth: d + 1,
            ends,
            nodes,
        },
    }
}

// Returns whether 16 of the nodes of `path` are open at the place `p`.
fn is_full(path: OpenNodes, p: usize) -> bool
    requires { OpenNodesAt path }
    ensures { result ≡ leb levels (length (open_at p (stack_of path))) }
{
    let ends = path.ends;
    let d = close(ends, path.depth, p);
    if LEVELS <= d {
        return true;
    }
    false
}

// The next NODE: its header is at `at`, its own chunks begin at `next`, and `meshes` meshes and `weights` weights came before it.
#[derive(Clone, Copy)]
pub struct FoundNode {
    pub at: usize,
    pub body: Cursor,
    pub next: usize,
    pub meshes: usize,
    pub weights: usize,
}

// Returns the first NODE from the place `from` of the flat run on, before which `meshes` meshes and `weights` weights came; `None` where
// there is none.
fn find_node(file: &[u8], from: usize, meshes: usize, weights: usize) -> Option<FoundNode>
    requires { (from ≤ length file.now) × (length file.now < 0x100000000) × (meshes ≤ from) × (weights ≤ from) }
    ensures { NodeFinds file.now from meshes weights result }
{
    let mut at = from;
    let mut m = meshes;
    let mut w = weights;
    loop {
        let chunk = b3d_chunk_walk::flat_next(file, at)?;
        if b3d_chunk_cursor::same(chunk.tag, Tag::NODE) {
            return Some(FoundNode {
                at: chunk.at,
                body: chunk.body,
                next: chunk.next,
                meshes: m,
                weights: w,
            });
        }
        if b3d_chunk_cursor::same(chunk.tag, Tag::MESH) {
            m += 1;
        } else if b3d_chunk_cursor::same(chunk.tag, Tag::BONE) {
            w += (chunk.body.end - chunk.body.at) / 8;
        }
        at = chunk.next;
    }
}

// A cursor over the rows of a table: the position, and for table 3 the nodes that are open there, which the other tables do not look at.
#[derive(Clone, Copy)]
pub struct RowCursor {
    pub position: Position,
    pub path: OpenNodes,
}

// The `cursor` behind a row, which is `given`; where no row is to come, `given` is false, and `cursor` is the one before. No `Option`: what reads rows promises
// the cursor in both cases.
#[derive(Clone, Copy)]
pub struct NextCursor {
    pub given: bool,
    pub cursor: RowCursor,
}

// Writes the next row of table 3 into the start of `row` and returns the cursor behind it. The cells behind the row stay. Where no row is to come, `row` and
// the cursor stay; a node that stands in 16 others ends the rows.
pub fn next_node(file: &[u8], x: Position, path: OpenNodes, row: &mut [u32]) -> NextCursor
    requires { NodePosition file.now x path × (vertex_width ≤ length row.old) }
    ensures { NodeNexts file.now x path row.old row.new result }
{
    let here = RowCursor { position: x, path };
    let mut counts = x.counts;
    let Some(node) = find_node(file, x.at, counts.meshes, counts.weights) else {
        return NextCursor {
            given: false,
            cursor: here,
        };
    };
    if is_full(path, node.at) {
        return NextCursor {
            given: false,
            cursor: here,
        };
    }
    let i = shared_table_words::cell(counts.nodes);
    let e = enter(path, node.at, node.body.end, i);
    b3d_read_nodes::store_node(
        file,
        node.at,
        node.body,
        node.next,
        e.parent,
        node.meshes,
        node.weights,
        0,
        row,
    );
    counts.nodes = counts.nodes + 1;
    counts.meshes = node.meshes;
    counts.weights = node.weights;
    let inner = x.inner;
    let items = x.items;
    let entered = e.path;
    NextCursor {
        given: true,
        cursor: RowCursor {
            position: Position {
                at: node.next,
                inner,
                items,
                counts,
            },
            path: entered,
        },
    }
}
