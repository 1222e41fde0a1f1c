// Stores the rows of a mesh's vertices, with their maps and influences, in lent tables from the bytes of a file that was judged. Where entries stand is told
// by the numbers in the file; no rule is looked at.
#![tactic(auto)]

ghost use Rattle.std.specs.Prelude.{◌≡◌, [], ◌∷◌, ◌+◌, ◌*◌, ◌<◌, ◌≤◌, length};
ghost use Rattle.std.proofs.lemmas.List.Edits.{sets as stored};
ghost use Rattle.shared_table_words.specs.Words.{words_at};
ghost use Rattle.layout.specs.Rows.{joined};
ghost use Rattle.cal3d_spec.specs.Tables.{vertex_rows};
ghost use Rattle.cal3d_mesh_plain_spec.specs.Plain.{word_rows, influences_of, cloth_at, cloth_bytes, cloth_place, vertex_at};
ghost use Rattle.cal3d_mesh_vertex_rows.specs.Vertices.{VerticesFit, VerticesPut};

use cal3d_mesh_plain_spec::Shape;
use wire::Cursor;

// A place in the file, and how many maps and influences come before it.
#[derive(Clone, Copy)]
pub struct VertexMarks {
    pub at: usize,
    pub maps: usize,
    pub influences: usize,
}

// Stores the `n` words of the file `s` at place `at` in `out` from word `base` on.
pub fn put_words(s: &[u8], at: usize, n: usize, base: usize, out: &mut [u32])
    requires { (at + 4 * n ≤ length s.now) × (base + n ≤ length out.old) }
    ensures { out.new ≡ stored out.old base (words_at n s.now at) }
{
    let end = s.len();
    shared_table_words::copy_words(s, Cursor { at, end }, n, base, out);
}

// Stores `n` rows of `width` words, as they stand at place `at` of the file `s`, in `out` from row `first` on.
pub fn put_rows(s: &[u8], at: usize, n: usize, width: usize, first: usize, out: &mut [u32])
    requires { (at + 4 * (width * n) ≤ length s.now) × (width * first + width * n ≤ length out.old) }
    ensures { out.new ≡ stored out.old (width * first) (joined (word_rows width s.now n at)) }
{
    put_words(s, at, width * n, width * first, out);
}

// Returns a vertex's cloth weight, at place `at`; 0 if the submesh has no springs.
fn cloth_weight(s: &[u8], springs: usize, at: usize) -> u32
    requires { at + cloth_bytes springs ≤ length s.now }
    ensures { result ≡ cloth_at s.now springs at }
{
    if springs == 0 {
        return 0;
    }
    wire::number_at(s, at)
}

// Returns how many bytes a vertex's cloth weight has: 0 if the submesh has no springs, else 4.
fn cloth_bytes(springs: usize) -> usize
    ensures { result ≡ cloth_bytes springs }
{
    if springs == 0 {
        return 0;
    }
    4
}

// Stores the row of the vertex at the marks `m`, which has `n` influences, in `out` from word `base` on.
fn put_vertex(
    s: &[u8],
    springs: usize,
    maps: usize,
    m: VertexMarks,
    n: u32,
    base: usize,
    out: &mut [u32],
)
    requires springs_in_bounds { (cloth_place s.now maps m.at + cloth_bytes springs ≤ length s.now) × (length s.now < 0x100000000) × (m.maps ≤ m.at)
        × (m.influences ≤ m.at) }
    requires n_value { (n ≡ influences_of s.now maps m.at) × (base + 12 ≤ length out.old) }
    ensures { out.new ≡ stored out.old base
        (joined (vertex_rows m.maps m.influences (vertex_at s.now springs maps m.at ∷ []))) }
{
    let at = m.at;
    let cloth = cloth_weight(s, springs, at + 32 + 8 * maps + 4 + 8 * wire::size(n));
    put_words(s, at, 8, base, out);
    let rest = [n, cloth, m.maps as u32, m.influences as u32];
    shared_table_words::put_cells(out, base + 8, &rest);
}

// Returns the marks after the vertex at the marks `m`, which has `n` influences.
fn pass_vertex(springs: usize, maps: usize, m: VertexMarks, n: usize) -> VertexMarks
    requires { (m.at + 32 + 8 * maps + 4 + 8 * n + cloth_bytes springs < 0x100000000) × (m.maps ≤ m.at) × (m.influences ≤ m.at) }
    ensures { result ≡ record { at = m.at + 32 + 8 * maps + 4 + 8 * n + cloth_bytes springs; maps = m.maps + maps; influences = m.influences + n } }
{
    VertexMarks {
        at: m.at + 32 + 8 * maps + 4 + 8 * n + cloth_bytes(springs),
        maps: m.maps + maps,
        influences: m.influences + n,
    }
}

// Stores the vertices of a submesh of the shape `x` at the marks `from`: their rows from row `first` on, their maps and influences after those that come
// before. Returns the marks after them.
pub fn put_vertices(
    s: &[u8],
    x: Shape,
    from: VertexMarks,
    first: usize,
    vertices: &mut [u32],
    maps: &mut [u32],
    influences: &mut [u32],
) -> VertexMarks
    requires { VerticesFit s.now x from first (length vertices.old) (length maps.old) (length influences.old) }
    ensures { VerticesPut s.now x from first vertices.old maps.old influences.old vertices.new
        maps.new influences.new result }
{
    let mut m = from;
    for i in 0..x.vertices {
        let at = m.at + 32;
        let head = at + 8 * x.maps;
        let stored = wire::number_at(s, head);
        let n = wire::size(stored);
        put_vertex(s, x.springs, x.maps, m, stored, 12 * (first + i), vertices);
        put_rows(s, at, x.maps, 2, m.maps, maps);
        put_rows(s, head + 4, n, 2, m.influences, influences);
        m = pass_vertex(x.springs, x.maps, m, n);
    }
    m
}
