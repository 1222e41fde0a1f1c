// Table 3, the nodes, filled by one walk over the flat run and one pass backward for the branch words. A node's parent is found in the rows that are filled
// already.
#![tactic(auto)]

ghost use Rattle.std.specs.Prelude.{◌≡◌, ◌<◌, ◌≤◌, length};
ghost use Rattle.std.proofs.lemmas.List.Edits.{sets as stored};
ghost use Rattle.layout.specs.Rows.{joined};
ghost use Rattle.b3d_spec_plain_rows.specs.Rows.{file_rows};
ghost use Rattle.b3d_read_node_table.specs.Bare.{Bare};

use b3d_chunk_cursor::Next;
use b3d_spec::{NODE_WIDTH, Tag};
use wire::Cursor;

// Stores the rows of table 3 of `file` in `out`, each with 0 for its branch word. The cells behind them stay as they were. Returns how many rows there are.
fn store_bare_rows(file: &[u8], out: &mut [u32]) -> usize
    requires { (length file.now < 0x100000000) × (length (joined (file_rows 3 file.now)) ≤ length out.old) }
    ensures { Bare file.now out.old out.new result }
{
    let end = file.len();
    if end < 12 {
        return 0;
    }
    let mut at: usize = 12;
    let mut nodes: usize = 0;
    let mut meshes: usize = 0;
    let mut weights: usize = 0;
    loop {
        match b3d_chunk_cursor::next_chunk(file, Cursor { at, end }) {
            Next::Done => {
                return nodes;
            }
            Next::Cut(_) => {
                return nodes;
            }
            Next::Chunk {
                tag,
                at: p,
                body,
                next,
            } => {
                if b3d_chunk_cursor::same(tag, Tag::NODE) {
                    let Some(named) = b3d_chunk_cursor::named_row(file, body, 10) else {
                        return nodes;
                    };
                    let parent = b3d_read_node_parents::parent_at(file, out, nodes, p);
                    let base = NODE_WIDTH * nodes;
                    at = named.next.at;
                    b3d_read_nodes::store_row(
                        file,
                        p,
                        body,
                        named.length,
                        named.row,
                        at,
                        parent,
                        0,
                        meshes,
                        weights,
                        base,
                        out,
                    );
                    nodes += 1;
                } else {
                    if b3d_chunk_cursor::same(tag, Tag::MESH) {
                        meshes += 1;
                    } else if b3d_chunk_cursor::same(tag, Tag::BONE) {
                        weights += (body.end - body.at) / 8;
                    }
                    at = next.at;
                }
            }
        }
    }
}

// Stores the rows of table 3 of `file` in `out`. The cells behind them stay as they were.
pub fn store_nodes(file: &[u8], out: &mut [u32])
    requires { (length file.now < 0x100000000) × (length (joined (file_rows 3 file.now)) ≤ length out.old) }
    ensures { out.new ≡ stored out.old 0 (joined (file_rows 3 file.now)) }
{
    let nodes = store_bare_rows(file, out);
    b3d_read_branch_words::store_branch_words(file, nodes, out);
}
