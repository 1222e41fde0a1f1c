// Whether the counted rows of each lent table are there, and no more than the row limit.
#![tactic(auto)]

ghost use Rattle.std.specs.Prelude.{◌≡◌, ◌*◌, ◌≤◌, length};
ghost use Rattle.b3d_spec.specs.Tables.{vertex_width};
ghost use Rattle.b3d_check_table_lengths.specs.LentRooms.{part_counts, fits_in, rooms};

use b3d_spec::{
    BRUSH_WIDTH, Counts, KEY_LIST_WIDTH, KEY_WIDTH, MESH_WIDTH, NODE_WIDTH, TEXTURE_WIDTH,
    TRIANGLE_SET_WIDTH, TRIANGLE_WIDTH, VERTEX_WIDTH, WEIGHT_WIDTH,
};

// Returns whether `n` rows are no more than the row limit, and their words, `width` each, no more than `words`.
fn fits_in(n: usize, width: usize, words: usize) -> bool
    requires { width ≤ vertex_width }
    ensures { result ≡ fits_in n width words }
{
    if b3d_spec::ROW_LIMIT < n {
        return false;
    }
    width * n <= words
}

// Returns whether the counted rows of each table are there and within the row limit: `textures`, `brushes`, and those that `all` counts.
pub fn tables_have_rows(
    textures: usize,
    brushes: usize,
    all: Counts,
    t1: &[u32],
    t2: &[u32],
    t3: &[u32],
    t4: &[u32],
    t5: &[u32],
    t6: &[u32],
    t7: &[u32],
    t8: &[u32],
    t9: &[u32],
    t10: &[u32],
) -> bool
    ensures { result ≡ rooms textures brushes all
        (length t1.now) (length t2.now) (length t3.now) (length t4.now) (length t5.now)
        (length t6.now) (length t7.now) (length t8.now) (length t9.now) (length t10.now) }
{
    let b1 = fits_in(textures, TEXTURE_WIDTH, t1.len());
    let b2 = fits_in(brushes, BRUSH_WIDTH, t2.len());
    let b3 = fits_in(all.nodes, NODE_WIDTH, t3.len());
    let b4 = fits_in(all.meshes, MESH_WIDTH, t4.len());
    let b5 = fits_in(all.vertices, VERTEX_WIDTH, t5.len());
    let b6 = fits_in(all.sets, TRIANGLE_SET_WIDTH, t6.len());
    let b7 = fits_in(all.triangles, TRIANGLE_WIDTH, t7.len());
    let b8 = fits_in(all.weights, WEIGHT_WIDTH, t8.len());
    let b9 = fits_in(all.lists, KEY_LIST_WIDTH, t9.len());
    let b10 = fits_in(all.keys, KEY_WIDTH, t10.len());
    let last = b6 & (b7 & (b8 & (b9 & b10)));
    b1 & (b2 & (b3 & (b4 & (b5 & last))))
}

// Returns the counts of tables 3 to 10 out of the ten `counts`.
pub fn sizes(counts: &[u32; 10]) -> Counts
    ensures { result ≡ part_counts counts.now }
{
    Counts {
        nodes: wire::size(counts[2]),
        meshes: wire::size(counts[3]),
        vertices: wire::size(counts[4]),
        sets: wire::size(counts[5]),
        triangles: wire::size(counts[6]),
        weights: wire::size(counts[7]),
        lists: wire::size(counts[8]),
        keys: wire::size(counts[9]),
    }
}
