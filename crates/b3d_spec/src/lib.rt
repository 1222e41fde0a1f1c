// The meaning of B3D files: what a file says and its tables hold, and what reader, writer and clearer answer. `parse` reads a file, `table` gives its tables,
// `encode` writes the shortest file, `rebuild` goes back from tables to the scene. Definitions in specs/, their laws in proofs/; no function.
#![tactic(auto)]

pub mod columns;
pub mod letters;

// The most rows of a table (E12), as `Rules.row_limit` has it: each function that cites this is held to that.
pub const ROW_LIMIT: usize = 2097151;

// The highest version, as `Rules.highest_version` has it; so below for the other ranges: each function that cites one is held to that.
pub const HIGHEST_VERSION: u32 = 99;

// The highest n_texs, and the texture slots that a brush's row has.
pub const MOST_SLOTS: u32 = 8;

// The highest VRTS flags.
pub const HIGHEST_VERTEX_FLAGS: u32 = 3;

// The most sets of coordinates of a vertex.
pub const MOST_SETS: u32 = 8;

// The most coordinates of a set.
pub const LARGEST_SET: u32 = 4;

// The highest KEYS flags.
pub const HIGHEST_KEY_FLAGS: u32 = 7;

// How deep nodes nest, the root being 1, as `Rules.levels` has it.
pub const LEVELS: usize = 16;

// The levels of nodes that are left where the root begins: all of them.
pub const ALL_LEVELS: u32 = LEVELS as u32;

// The ten known tags, in the order of 01.
#[derive(Clone, Copy)]
pub enum Tag {
    BB3D,
    TEXS,
    BRUS,
    NODE,
    MESH,
    VRTS,
    TRIS,
    BONE,
    KEYS,
    ANIM,
}

// Whether colours are held to the range 0 to 1: `Strict` refuses others, `Lenient` looks at no colour (E8).
#[derive(Clone, Copy)]
pub enum Mode {
    Strict,
    Lenient,
}

// How many words a texture's row has, as `Widths.texture_width` has it; so below for the other tables: each function that cites one is held to that.
pub const TEXTURE_WIDTH: usize = 9;

// How many words a brush's row has, its eight texture slots among them.
pub const BRUSH_WIDTH: usize = 17;

// How many words a node's row has: 01's 20, and the number of nodes below it (E4).
pub const NODE_WIDTH: usize = 21;

// How many words a mesh's row has.
pub const MESH_WIDTH: usize = 9;

// How many words a vertex's row has, eight sets of four coordinates among them. No row of another table has more.
pub const VERTEX_WIDTH: usize = 42;

// How many words a triangle set's row has.
pub const TRIANGLE_SET_WIDTH: usize = 4;

// How many words a triangle's row has: three vertex ids.
pub const TRIANGLE_WIDTH: usize = 3;

// How many words a weight's row has: a vertex id and a weight.
pub const WEIGHT_WIDTH: usize = 2;

// How many words a key list's row has.
pub const KEY_LIST_WIDTH: usize = 4;

// How many words a key's row has.
pub const KEY_WIDTH: usize = 11;

// How many rows of each of the tables 3 to 10 came before.
#[repr(C)]
#[derive(Clone, Copy)]
pub struct Counts {
    pub nodes: usize,
    pub meshes: usize,
    pub vertices: usize,
    pub sets: usize,
    pub triangles: usize,
    pub weights: usize,
    pub lists: usize,
    pub keys: usize,
}

// The counts at the beginning of a file: no row came before.
pub const START: Counts = Counts {
    nodes: 0,
    meshes: 0,
    vertices: 0,
    sets: 0,
    triangles: 0,
    weights: 0,
    lists: 0,
    keys: 0,
};

// What the reader answers: refusal number and place, or 0 and 0 with the version, the texture slots of a brush and the ten row counts.
#[repr(C)]
#[derive(Clone, Copy)]
pub struct Answer {
    // Refusal number, 0 if accepted.
    pub number: u32,
    // Place of the refusal, 0 if accepted.
    pub place: u32,
    // The file's version, 0 if refused.
    pub version: u32,
    // Texture slots of a brush, 0 if there is no brush or the file is refused.
    pub n_texs: u32,
    // Row counts of tables 1 to 10, all 0 if refused.
    pub counts: [u32; 10],
}

// What writer and clearer answer: refusal number and place, or 0 and 0 with the size written.
#[repr(C)]
#[derive(Clone, Copy)]
pub struct Written {
    // Refusal number, 0 if written.
    pub number: u32,
    // Place of the refusal, 0 if written.
    pub place: u32,
    // Size written, 0 if refused.
    pub size: u32,
}
