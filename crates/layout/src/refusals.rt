// The sixteen refusals by name, as include/kelompuris.h names them: 1 to 12 are those of paper 01, 13 to 16 came later. 0, accepted, is no refusal. `Refusals`
// has the same names for the definitions; each function that cites one here is held to that.
// The file's size is outside its limits.
pub const FILE_SIZE: u32 = 1;

// The first tag is not BB3D, or its length is not the file's size minus 8; of cal3d, the magic is not the one asked for.
pub const FIRST_TAG: u32 = 2;

// A chunk's header is cut, or its length passes the enclosing chunk.
pub const CUT_CHUNK: u32 = 3;

// A known tag is not allowed here, or stands once too often, or out of order.
pub const NESTING: u32 = 4;

// Fixed data or an item runs past its chunk, or the length of an ANIM is not 12; of cal3d, data runs past the file or stops before its end.
pub const CUT_ITEM: u32 = 5;

// A number is outside its range.
pub const RANGE: u32 = 6;

// An id names nothing.
pub const NO_SUCH_ID: u32 = 7;

// A MESH ends without VRTS or TRIS.
pub const NO_VRTS_OR_TRIS: u32 = 8;

// A node is nested deeper than `LEVELS`.
pub const TOO_DEEP: u32 = 9;

// A table has more rows than the limit.
pub const TOO_MANY_ROWS: u32 = 10;

// A lent table or an output is too short.
pub const TOO_SHORT: u32 = 11;

// No accepted file has the lent tables.
pub const NO_SUCH_TABLES: u32 = 12;

// A number of a slip is wrong, or the slip is cut or too long.
pub const NO_SLIP: u32 = 13;

// A label can not be read off the file.
pub const NO_LABEL: u32 = 14;

// A judge in pieces was closed, or its state is none that it can have.
pub const CLOSED: u32 = 15;

// The bones of a skeleton are no tree.
pub const NO_TREE: u32 = 16;
