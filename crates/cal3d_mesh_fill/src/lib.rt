// Fills the six tables of a mesh in one walk over the bytes of a file that was judged. Where entries stand is told by the numbers in the file; no rule is
// looked at.
#![tactic(auto)]

ghost use Rattle.std.specs.Prelude.{◌≡◌, [], ◌∷◌, ◌+◌, ◌*◌, ◌<◌, ◌≤◌, length};
ghost use Rattle.std.proofs.lemmas.List.Edits.{sets as stored};
ghost use Rattle.layout.specs.Rows.{joined};
ghost use Rattle.cal3d_spec.specs.Tables.{submesh_rows};
ghost use Rattle.cal3d_mesh_plain_spec.specs.Plain.{shape_at, submesh_at};
ghost use Rattle.cal3d_mesh_fill.specs.Fills.{PlaceFit, MeshFit, MeshFilled};

use cal3d_mesh_plain_spec::Shape;
use cal3d_mesh_vertex_rows::VertexMarks;

// A place in the file, and how many rows of tables 2 to 6 come before it.
#[derive(Clone, Copy)]
pub struct Place {
    pub at: usize,
    pub vertices: usize,
    pub maps: usize,
    pub influences: usize,
    pub springs: usize,
    pub faces: usize,
}

// Returns the counts of the submesh at place `at`.
fn shape_at(s: &[u8], at: usize) -> Shape
    requires { at + 24 ≤ length s.now }
    ensures { result ≡ shape_at s.now at }
{
    Shape {
        vertices: wire::size(wire::number_at(s, at + 4)),
        faces: wire::size(wire::number_at(s, at + 8)),
        springs: wire::size(wire::number_at(s, at + 16)),
        maps: wire::size(wire::number_at(s, at + 20)),
    }
}

// Stores the row of the submesh at the place `m` in `out` from word `base` on.
fn put_submesh(s: &[u8], m: Place, base: usize, out: &mut [u32])
    requires { (m.at + 24 ≤ length s.now) × (length s.now < 0x100000000) × PlaceFit m × (base + 9 ≤ length out.old) }
    ensures { out.new ≡ stored out.old base
        (joined (submesh_rows m.vertices m.springs m.faces (submesh_at s.now m.at ∷ []))) }
{
    cal3d_mesh_vertex_rows::put_words(s, m.at, 6, base, out);
    let rest = [m.vertices as u32, m.springs as u32, m.faces as u32];
    shared_table_words::put_cells(out, base + 6, &rest);
}

// Returns the place after a submesh of the shape `x` at `m`, whose vertices end at `v`.
fn pass_submesh(m: Place, x: Shape, v: VertexMarks) -> Place
    requires { (v.at + 16 * x.springs + 12 * x.faces < 0x100000000) × (m.vertices + x.vertices ≤ v.at) × (m.springs ≤ v.at) × (m.faces ≤ v.at) }
    ensures { result ≡ record {
      at = v.at + 16 * x.springs + 12 * x.faces;
      vertices = m.vertices + x.vertices;
      maps = v.maps;
      influences = v.influences;
      springs = m.springs + x.springs;
      faces = m.faces + x.faces;
    } }
{
    Place {
        at: v.at + 16 * x.springs + 12 * x.faces,
        vertices: m.vertices + x.vertices,
        maps: v.maps,
        influences: v.influences,
        springs: m.springs + x.springs,
        faces: m.faces + x.faces,
    }
}

// Stores the rows of a mesh that stands whole in the file `s` in six lent tables; words past a table's last row stay as found.
pub fn fill_mesh(
    s: &[u8],
    submeshes: &mut [u32],
    vertices: &mut [u32],
    maps: &mut [u32],
    influences: &mut [u32],
    springs: &mut [u32],
    faces: &mut [u32],
)
    requires { MeshFit s.now (length submeshes.old) (length vertices.old) (length maps.old) (length influences.old) (length springs.old)
        (length faces.old) }
    ensures { MeshFilled s.now submeshes.old vertices.old maps.old influences.old
        springs.old faces.old
        submeshes.new vertices.new maps.new influences.new springs.new faces.new }
{
    let count = wire::size(wire::number_at(s, 8));
    let mut m = Place {
        at: 12,
        vertices: 0,
        maps: 0,
        influences: 0,
        springs: 0,
        faces: 0,
    };
    for i in 0..count {
        let x = shape_at(s, m.at);
        put_submesh(s, m, 9 * i, submeshes);
        let from = VertexMarks {
            at: m.at + 24,
            maps: m.maps,
            influences: m.influences,
        };
        let v = cal3d_mesh_vertex_rows::put_vertices(
            s, x, from, m.vertices, vertices, maps, influences,
        );
        cal3d_mesh_vertex_rows::put_rows(s, v.at, x.springs, 4, m.springs, springs);
        cal3d_mesh_vertex_rows::put_rows(s, v.at + 16 * x.springs, x.faces, 3, m.faces, faces);
        m = pass_submesh(m, x, v);
    }
}
