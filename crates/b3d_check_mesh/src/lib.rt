// Whether meshes with their triangle sets, and weights, are sound in lent tables. Each function is a test of b3d_check_spec's specs/Check on rows that are given
// by their number.
#![tactic(auto)]

ghost use Rattle.std.specs.Prelude.{◌≡◌, ◌+◌, ◌-◌, ◌*◌, ◌<◌, ◌≤◌, length};
ghost use Rattle.b3d_spec.specs.Mask.{vertex_mask};
ghost use Rattle.b3d_spec.specs.Rules.{weight_row};
ghost use Rattle.b3d_spec.specs.Tables.{mesh_width, vertex_width, triangle_set_width, triangle_width, weight_width};
ghost use Rattle.b3d_check_spec.specs.Check.{keeps, clean, rows_valid, mesh_valid};
ghost use Rattle.b3d_check_rows.specs.Rows.{row_at, rows_at};
ghost use Rattle.b3d_check_mesh.specs.Parts.{mesh_row_here, mesh_sets, MeshAfter};

use b3d_check_row_runs::Run;
use b3d_check_rows::Ids;
use b3d_spec::{Counts, HIGHEST_VERTEX_FLAGS, LARGEST_SET, MESH_WIDTH, MOST_SETS, columns};

// ---- vertices and weights

// Returns whether `count` vertices are there from row `first` on, of `total` in all, with 0 in the cells that `flags`, `sets` and `size` leave out.
fn vertices_left(
    t: &[u32],
    flags: u32,
    sets: u32,
    size: u32,
    count: usize,
    first: usize,
    total: usize,
) -> bool
    requires { (first ≤ total) × (vertex_width * total ≤ length t.now) }
    ensures { result ≡ rows_valid (clean (vertex_mask flags sets size)) count (rows_at vertex_width first (total - first) t.now) }
{
    if total - first < count {
        return false;
    }
    b3d_check_absent_words::vertices_valid(t, flags, sets, size, first, count)
}

// Returns whether `count` weights are there from row `first` on, of `total` in all, and each names a vertex below `bones`.
pub fn weights_left(t: &[u32], bones: u32, count: usize, first: usize, total: usize) -> bool
    requires { (first ≤ total) × (weight_width * total ≤ length t.now) }
    ensures { result ≡ rows_valid (keeps (weight_row bones)) count (rows_at weight_width first (total - first) t.now) }
{
    if total - first < count {
        return false;
    }
    b3d_check_rows::id_rows_valid(Ids::Weights, t, bones, first, count)
}

// ---- meshes

// Returns whether row `i` of table 4, `t`, is sound by its cells alone: it belongs to `node`, its brush is NONE or below `brushes`, its numbers are in range,
// and its first vertex is `vertices`.
fn mesh_head(brushes: u32, node: usize, vertices: usize, t: &[u32], i: usize) -> bool
    requires { mesh_width * i + mesh_width ≤ length t.now }
    ensures { result ≡ mesh_row_here brushes node vertices (row_at mesh_width i t.now) }
{
    let o = MESH_WIDTH * i;
    let own = b3d_check_rows::cell(t, o);
    let from = b3d_check_rows::cell(t, o + columns::MESH_FIRST_VERTEX);
    let brush = t[o + columns::MESH_BRUSH];
    let some = (brush == 0xFFFFFFFF) | (brush < brushes);
    let ranges = (t[o + columns::MESH_FLAGS] <= HIGHEST_VERTEX_FLAGS)
        & ((t[o + columns::MESH_SETS] <= MOST_SETS)
            & ((t[o + columns::MESH_SET_SIZE] <= LARGEST_SET) & (from == vertices)));
    (own == node) & (some & ranges)
}

// Returns whether the triangle sets of row `i` of table 4, `t`, are sound: at least one, from row `first` of `sets` on, of `total` in all; their triangles
// follow each other from number `from` on, of `all` in all.
fn mesh_sets(
    brushes: u32,
    t: &[u32],
    i: usize,
    sets: &[u32],
    first: usize,
    total: usize,
    triangles: &[u32],
    from: usize,
    all: usize,
) -> bool
    requires mesh_width_in_bounds { (mesh_width * i + mesh_width ≤ length t.now) × (first ≤ total) × (triangle_set_width * total ≤ length sets.now) }
    requires from_le_all { (from ≤ all) × (triangle_width * all ≤ length triangles.now) }
    ensures { result ≡ mesh_sets brushes i first from (row_at mesh_width i t.now) (rows_at triangle_set_width first (total - first) sets.now)
        (rows_at triangle_width from (all - from) triangles.now) }
{
    let o = MESH_WIDTH * i;
    let to = b3d_check_rows::cell(t, o + columns::MESH_FIRST_TRIANGLE_SET);
    let count = b3d_check_rows::cell(t, o + columns::MESH_TRIANGLE_SETS);
    if !(to == first) {
        return false;
    }
    if count <= 0 {
        return false;
    }
    if total - first < count {
        return false;
    }
    let v = t[o + columns::MESH_VERTICES];
    let run = Run::Triangles(brushes, v, i);
    b3d_check_row_runs::groups_valid(run, sets, first, count, triangles, from, all)
}

// Returns whether the mesh that comes after the counts `n` is sound in tables 4 to 7, whose rows `all` counts.
pub fn mesh_valid(
    brushes: u32,
    n: Counts,
    all: Counts,
    t4: &[u32],
    t5: &[u32],
    t6: &[u32],
    t7: &[u32],
) -> bool
    requires { MeshAfter n all (length t4.now) (length t5.now) (length t6.now) (length t7.now) }
    ensures { result ≡ mesh_valid brushes n (row_at mesh_width n.meshes t4.now)
        (rows_at vertex_width n.vertices (all.vertices - n.vertices) t5.now)
        (rows_at triangle_set_width n.sets (all.sets - n.sets) t6.now)
        (rows_at triangle_width n.triangles (all.triangles - n.triangles) t7.now) }
{
    let i = n.meshes;
    let o = MESH_WIDTH * i;
    let count = b3d_check_rows::cell(t4, o + columns::MESH_VERTICES);
    let from = n.vertices;
    let end = all.vertices;
    if !mesh_head(brushes, n.nodes, n.vertices, t4, i) {
        return false;
    }
    if !vertices_left(
        t5,
        t4[o + columns::MESH_FLAGS],
        t4[o + columns::MESH_SETS],
        t4[o + columns::MESH_SET_SIZE],
        count,
        from,
        end,
    ) {
        return false;
    }
    let first = n.triangles;
    let total = all.triangles;
    mesh_sets(brushes, t4, i, t6, n.sets, all.sets, t7, first, total)
}
