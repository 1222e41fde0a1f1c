// Tallies: what a chunk adds to the ten row counts and to the size of the cleared copy, and an answer that holds a tally or a refusal. The sum over a scene
// is the rows of its tables and the size of its copy (proofs/TotalLaws).
#![tactic(auto)]

ghost use Rattle.std.specs.Prelude.{◌≤◌, ◌≡◌};
ghost use Rattle.layout.specs.Rows.{most_bytes};
ghost use Rattle.b3d_spec.specs.Tables.{vertex_width, key_width};
ghost use Rattle.b3d_spec.specs.Rules.{most_slots};
ghost use Rattle.b3d_judge_tally.specs.Tally.{no_tally, bytes_tally, head_tally, vertices_tally, triangles_tally, weights_tally, keys_tally, plus, Within, texs_of, brus_of};

// Rows of the ten tables, and bytes of the cleared copy.
#[derive(Clone, Copy)]
pub struct Tally {
    pub textures: usize,
    pub brushes: usize,
    pub nodes: usize,
    pub meshes: usize,
    pub vertices: usize,
    pub sets: usize,
    pub triangles: usize,
    pub weights: usize,
    pub lists: usize,
    pub keys: usize,
    pub copy: usize,
}

// Returns a tally of 0 rows and 0 bytes.
pub fn none() -> Tally
    ensures { result ≡ no_tally }
{
    Tally {
        textures: 0,
        brushes: 0,
        nodes: 0,
        meshes: 0,
        vertices: 0,
        sets: 0,
        triangles: 0,
        weights: 0,
        lists: 0,
        keys: 0,
        copy: 0,
    }
}

// Returns a tally of `n` bytes of the copy, and no row.
pub fn bytes(n: usize) -> Tally
    ensures { result ≡ bytes_tally n }
{
    let mut t = none();
    t.copy = n;
    t
}

// Returns the tally of a TEXS of `n` textures; where `n` is 0, of no TEXS.
pub fn texs(n: usize) -> Tally
    requires { n ≤ most_bytes }
    ensures { result ≡ texs_of n }
{
    if n == 0 {
        return none();
    }
    let mut t = bytes(8 + n * 29);
    t.textures = n;
    t
}

// Returns the tally of a BRUS of `n` brushes, each with `slots` texture ids; where `n` is 0, of no BRUS.
pub fn brus(slots: usize, n: usize) -> Tally
    requires { (n ≤ most_bytes) × (slots ≤ most_slots) }
    ensures { result ≡ brus_of slots n }
{
    if n == 0 {
        return none();
    }
    let mut t = bytes(12 + n * (29 + 4 * slots));
    t.brushes = n;
    t
}

// Returns the tally of a NODE without the chunks inside it.
pub fn head() -> Tally
    ensures { result ≡ head_tally }
{
    let mut t = bytes(49);
    t.nodes = 1;
    t
}

// Returns the tally of a MESH with a VRTS of `n` vertices of `words` words each, without its TRIS.
pub fn vertices(n: usize, words: usize) -> Tally
    requires { (n ≤ most_bytes) × (words ≤ vertex_width) }
    ensures { result ≡ vertices_tally n words }
{
    let mut t = bytes(32 + n * (4 * words));
    t.meshes = 1;
    t.vertices = n;
    t
}

// Returns the tally of a TRIS of `n` triangles.
pub fn triangles(n: usize) -> Tally
    requires { n ≤ most_bytes }
    ensures { result ≡ triangles_tally n }
{
    let mut t = bytes(12 + n * 12);
    t.sets = 1;
    t.triangles = n;
    t
}

// Returns the tally of a BONE of `n` weights.
pub fn weights(n: usize) -> Tally
    requires { n ≤ most_bytes }
    ensures { result ≡ weights_tally n }
{
    let mut t = bytes(8 + n * 8);
    t.weights = n;
    t
}

// Returns the tally of a KEYS of `n` keys of `words` words each.
pub fn keys(n: usize, words: usize) -> Tally
    requires { (n ≤ most_bytes) × (words ≤ key_width) }
    ensures { result ≡ keys_tally n words }
{
    let mut t = bytes(12 + n * (4 * words));
    t.lists = 1;
    t.keys = n;
    t
}

// Returns the sum of the tallies `a` and `b`, count by count.
pub fn plus(a: Tally, b: Tally) -> Tally
    requires { Within a most_bytes × Within b most_bytes }
    ensures { result ≡ plus a b }
{
    Tally {
        textures: a.textures + b.textures,
        brushes: a.brushes + b.brushes,
        nodes: a.nodes + b.nodes,
        meshes: a.meshes + b.meshes,
        vertices: a.vertices + b.vertices,
        sets: a.sets + b.sets,
        triangles: a.triangles + b.triangles,
        weights: a.weights + b.weights,
        lists: a.lists + b.lists,
        keys: a.keys + b.keys,
        copy: a.copy + b.copy,
    }
}
