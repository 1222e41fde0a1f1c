// The letters of the ten known tags as numbers, the first letter lowest, as `Tags.code` has them: each function that cites one is held to that.
// BB3D, the file.
pub const BB3D: u32 = 0x44334242;

// TEXS, textures.
pub const TEXS: u32 = 0x53584554;

// BRUS, brushes.
pub const BRUS: u32 = 0x53555242;

// NODE, a node.
pub const NODE: u32 = 0x45444F4E;

// MESH, the mesh of a node.
pub const MESH: u32 = 0x4853454D;

// VRTS, the vertices of a mesh.
pub const VRTS: u32 = 0x53545256;

// TRIS, a triangle set of a mesh.
pub const TRIS: u32 = 0x53495254;

// BONE, the weights of a bone.
pub const BONE: u32 = 0x454E4F42;

// KEYS, a key list of a node.
pub const KEYS: u32 = 0x5359454B;

// ANIM, the animation of a node.
pub const ANIM: u32 = 0x4D494E41;
