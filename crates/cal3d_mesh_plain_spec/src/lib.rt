// A mesh by its file's bytes, defined on any bytes without any rule; for an accepted file it is the mesh that was read. Each of its tables has rows of one
// width. Definitions in specs/, laws in proofs/; the crate has no function.

// The counts of a submesh that say which entries follow its numbers.
#[derive(Clone, Copy)]
pub struct Shape {
    pub vertices: usize,
    pub faces: usize,
    pub springs: usize,
    pub maps: usize,
}
