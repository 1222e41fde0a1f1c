// A MESH written from rows of lent tables: its brush, its VRTS and its TRIS.
#![tactic(auto)]

ghost use Rattle.std.specs.Prelude.{◌+◌, ◌/◌, ◌≤◌, length};
ghost use Rattle.shared_output.specs.Writing.{Room, Put};
ghost use Rattle.b3d_spec.specs.Tables.{vertex_width};
ghost use Rattle.b3d_write_row_runs.specs.Lent.{rows_from};
ghost use Rattle.b3d_write_mesh.specs.Mesh.{vertices_bytes, MeshThere, mesh_bytes};

use b3d_spec::{columns, letters};
use b3d_write_item_lists::put_runs;
use b3d_write_items::number;
use b3d_write_vertices::put_vertex_rows;

// Writes a VRTS of the three words of `t4` from word `from` on (flags, sets, set size) and the `n` vertices of `t5` from row `v` on. Returns its size.
fn write_vertices(t4: &[u32], from: usize, t5: &[u32], v: usize, n: usize, out: &mut [u8]) -> usize
    requires from_in_bounds { from + 3 ≤ length t4.now }
    requires n_in_bounds { v + n ≤ length t5.now / vertex_width }
    requires room { Room (vertices_bytes t4.now from (rows_from vertex_width t5.now v n)) out.old }
    ensures { Put (vertices_bytes t4.now from (rows_from vertex_width t5.now v n)) out.old out.new result }
{
    let flags = t4[from];
    let sets = t4[from + 1];
    let size = t4[from + 2];
    let a = shared_output::put_words(t4, from, 3, &mut out[8..]);
    let rest = &mut out[a + 8..];
    let b = put_vertex_rows(flags, sets, size, t5, v, n, rest);
    shared_output::put_header(out, letters::VRTS, a + b);
    a + b + 8
}

// Writes the MESH whose row begins at word `row` of `meshes`: its brush, the VRTS, the TRIS. Its vertices, triangle sets and triangles are those from rows
// `v`, `s` and `t` on. Returns its size.
pub fn write_mesh(
    meshes: &[u32],
    row: usize,
    vertices: &[u32],
    v: usize,
    sets: &[u32],
    s: usize,
    triangles: &[u32],
    t: usize,
    out: &mut [u8],
) -> usize
    requires mesh_there { MeshThere meshes.now row vertices.now v sets.now s triangles.now t }
    requires room { Room (mesh_bytes meshes.now row vertices.now v sets.now s triangles.now t) out.old }
    ensures { Put (mesh_bytes meshes.now row vertices.now v sets.now s triangles.now t) out.old
        out.new result }
{
    let brush = meshes[row + columns::MESH_BRUSH];
    let count = number(meshes, row + columns::MESH_VERTICES);
    let many = number(meshes, row + columns::MESH_TRIANGLE_SETS);
    let n = write_vertices(
        meshes,
        row + columns::MESH_FLAGS,
        vertices,
        v,
        count,
        &mut out[12..],
    );
    let m = put_runs(false, sets, s, many, triangles, t, &mut out[n + 12..]);
    shared_output::put_opening(out, letters::MESH, n + m, brush);
    n + m + 12
}
