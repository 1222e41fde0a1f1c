// The columns of the ten tables: at which word of a row a cell stands, as include/kelompuris.h names them. `Columns` has the same names for the definitions;
// each function that cites one here is held to that.
// The place of the name of a texture, a brush or a node stands here.
pub const NAME_PLACE: usize = 0;

// The length of that name stands here, without the zero that ends it.
pub const NAME_LENGTH: usize = 1;

// The flags of a texture stand here, the first word behind its name.
pub const TEXTURE_FLAGS: usize = 2;

// The blend of a texture stands here.
pub const TEXTURE_BLEND: usize = 3;

// The position of a texture begins here: x y.
pub const TEXTURE_POSITION: usize = 4;

// The scale of a texture begins here: x y.
pub const TEXTURE_SCALE: usize = 6;

// The rotation of a texture stands here.
pub const TEXTURE_ROTATION: usize = 8;

// The colour of a brush begins here, behind its name: red, green, blue, alpha.
pub const BRUSH_COLOUR: usize = 2;

// The shininess of a brush stands here.
pub const BRUSH_SHININESS: usize = 6;

// The blend of a brush stands here.
pub const BRUSH_BLEND: usize = 7;

// The fx of a brush stands here.
pub const BRUSH_FX: usize = 8;

// The eight texture slots of a brush begin here.
pub const BRUSH_TEXTURES: usize = 9;

// The parent of a node stands here.
pub const NODE_PARENT: usize = 2;

// The position of a node begins here: x y z.
pub const NODE_POSITION: usize = 3;

// The scale of a node begins here: x y z.
pub const NODE_SCALE: usize = 6;

// The rotation of a node begins here: w x y z.
pub const NODE_ROTATION: usize = 9;

// The kind of a node stands here: 0 pivot, 1 mesh, 2 bone.
pub const NODE_KIND: usize = 13;

// The mesh of a node stands here, or its first weight.
pub const NODE_FIRST: usize = 14;

// 1 stands here for a node with a mesh, for a bone how many weights it has.
pub const NODE_COUNT: usize = 15;

// 1 stands here if a node has an ANIM, whose three numbers follow.
pub const NODE_ANIM: usize = 16;

// The flags of the ANIM of a node stand here.
pub const NODE_ANIM_FLAGS: usize = 17;

// The frames of the ANIM of a node stand here.
pub const NODE_ANIM_FRAMES: usize = 18;

// The frames per second of the ANIM of a node stand here.
pub const NODE_ANIM_FPS: usize = 19;

// How many nodes are below a node, at all depths, stands here (E4).
pub const NODE_BELOW: usize = 20;

// The node of a mesh stands here.
pub const MESH_NODE: usize = 0;

// The brush of a mesh stands here.
pub const MESH_BRUSH: usize = 1;

// The VRTS flags of a mesh stand here.
pub const MESH_FLAGS: usize = 2;

// How many sets of coordinates a vertex of a mesh has stands here.
pub const MESH_SETS: usize = 3;

// How many coordinates a set of a mesh has stands here.
pub const MESH_SET_SIZE: usize = 4;

// The first vertex of a mesh stands here.
pub const MESH_FIRST_VERTEX: usize = 5;

// How many vertices a mesh has stands here.
pub const MESH_VERTICES: usize = 6;

// The first triangle set of a mesh stands here.
pub const MESH_FIRST_TRIANGLE_SET: usize = 7;

// How many triangle sets a mesh has stands here.
pub const MESH_TRIANGLE_SETS: usize = 8;

// The position of a vertex begins here: x y z.
pub const VERTEX_POSITION: usize = 0;

// The normal of a vertex begins here: x y z.
pub const VERTEX_NORMAL: usize = 3;

// The colour of a vertex begins here: red, green, blue, alpha.
pub const VERTEX_COLOUR: usize = 6;

// The coordinates of a vertex begin here: coordinate c of set s is 4 * s + c words further.
pub const VERTEX_COORDINATES: usize = 10;

// The mesh of a triangle set stands here.
pub const TRIANGLE_SET_MESH: usize = 0;

// The brush of a triangle set stands here.
pub const TRIANGLE_SET_BRUSH: usize = 1;

// The first triangle of a triangle set stands here.
pub const TRIANGLE_SET_FIRST_TRIANGLE: usize = 2;

// How many triangles a triangle set has stands here.
pub const TRIANGLE_SET_TRIANGLES: usize = 3;

// The vertex of a weight stands here.
pub const WEIGHT_VERTEX: usize = 0;

// The weight itself stands here.
pub const WEIGHT_WEIGHT: usize = 1;

// The node of a key list stands here.
pub const KEY_LIST_NODE: usize = 0;

// The KEYS flags of a key list stand here.
pub const KEY_LIST_FLAGS: usize = 1;

// The first key of a key list stands here.
pub const KEY_LIST_FIRST_KEY: usize = 2;

// How many keys a key list has stands here.
pub const KEY_LIST_KEYS: usize = 3;

// The first item of a triangle set or a key list stands here, for code that serves both tables.
pub const GROUP_FIRST: usize = 2;

// How many items a triangle set or a key list has stands here, for code that serves both tables.
pub const GROUP_COUNT: usize = 3;

// The frame of a key stands here.
pub const KEY_FRAME: usize = 0;

// The position of a key begins here: x y z.
pub const KEY_POSITION: usize = 1;

// The scale of a key begins here: x y z.
pub const KEY_SCALE: usize = 4;

// The rotation of a key begins here: w x y z.
pub const KEY_ROTATION: usize = 7;
