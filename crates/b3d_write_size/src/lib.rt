// The size of the shortest file that has lent tables: what their rows add, and the chunks around them.
#![tactic(auto)]

ghost use Rattle.std.specs.Prelude.{◌≡◌, ◌+◌, ◌*◌, ◌≤◌, length};
ghost use Rattle.b3d_spec.specs.Rebuild.{cut};
ghost use Rattle.b3d_spec.specs.Rules.{row_limit, most_slots};
ghost use Rattle.b3d_spec.specs.Tables.{node_width, texture_width, brush_width, mesh_width, key_list_width};
ghost use Rattle.b3d_write_row_size.specs.RowSize.{RowsAdd};
ghost use Rattle.b3d_write_size.specs.LentSize.{part_most, around, lists_bytes, nodes_bytes, file_bytes, NodesSizable};

use b3d_spec::{BRUSH_WIDTH, Counts, KEY_LIST_WIDTH, MESH_WIDTH, NODE_WIDTH, TEXTURE_WIDTH};
use b3d_write_row_size::rows_bytes;

// Returns `bytes`, the header and fixed data of a chunk around `rows` rows; 0 without a row.
fn chunk_around(rows: usize, bytes: usize) -> usize
    ensures { result ≡ around rows bytes }
{
    if rows == 0 {
        return 0;
    }
    bytes
}

// Returns the size of TEXS and BRUS, of `textures` rows of `t1` and `brushes` rows of `t2` with `slots` ids each; 0 where both have no row.
fn lists_bytes(slots: u32, textures: usize, brushes: usize, t1: &[u32], t2: &[u32]) -> usize
    requires { (slots ≤ most_slots) × (texture_width * textures ≤ length t1.now) × (brush_width * brushes ≤ length t2.now) × (textures ≤ row_limit)
        × (brushes ≤ row_limit) }
    ensures { RowsAdd part_most (lists_bytes slots textures brushes (cut texture_width textures t1.now)
        (cut brush_width brushes t2.now)) result }
{
    let texs = rows_bytes(t1, 1, TEXTURE_WIDTH, textures, 29);
    let brus = rows_bytes(t2, 2, BRUSH_WIDTH, brushes, 29 + 4 * wire::size(slots));
    chunk_around(textures, 8) + texs + (chunk_around(brushes, 12) + brus)
}

// Returns the size of what the rows of nodes, meshes and key lists add; `all` counts them.
fn nodes_bytes(all: Counts, t3: &[u32], t4: &[u32], t9: &[u32]) -> usize
    requires { NodesSizable all t3.now t4.now t9.now }
    ensures { RowsAdd part_most (nodes_bytes (cut node_width all.nodes t3.now) (cut mesh_width all.meshes t4.now)
        (cut key_list_width all.lists t9.now)) result }
{
    let nodes = rows_bytes(t3, 3, NODE_WIDTH, all.nodes, 0);
    let meshes = rows_bytes(t4, 4, MESH_WIDTH, all.meshes, 0);
    let lists = rows_bytes(t9, 9, KEY_LIST_WIDTH, all.lists, 0);
    nodes + meshes + lists
}

// Returns the size of the shortest file that has these sound tables: `textures`, `brushes` and the rows that `all` counts. Only the tables whose rows differ
// in size are lent.
pub fn file_bytes(
    slots: u32,
    textures: usize,
    brushes: usize,
    all: Counts,
    t1: &[u32],
    t2: &[u32],
    t3: &[u32],
    t4: &[u32],
    t9: &[u32],
) -> usize
    requires slots_le_most_slots { (slots ≤ most_slots) × (texture_width * textures ≤ length t1.now) × (brush_width * brushes ≤ length t2.now) × (textures ≤ row_limit)
        × (brushes ≤ row_limit) }
    requires nodes_sizable { NodesSizable all t3.now t4.now t9.now }
    ensures { result ≡ file_bytes slots textures brushes all t1.now t2.now t3.now t4.now t9.now }
{
    let lists = lists_bytes(slots, textures, brushes, t1, t2);
    let nodes = nodes_bytes(all, t3, t4, t9);
    12 + lists + nodes + 12 * all.sets + 12 * all.triangles + 8 * all.weights
}
