// Files with a chunk out of order, or with two faults, of which 01 says which one counts.
use crate::case;
use std::io;

// Prints a line for each file with a chunk out of order or with two faults.
pub fn cases(rt: &impl Print) -> io::Result<()> {
    // NODE at 12, BRUS at 61. Then a root with a mesh without a vertex, of 32 + 12 bytes, at 61, and another at 105.
    case(
        rt,
        b"NODE before BRUS",
        b"BB3D\x41\0\0\0\x01\0\0\0\
          NODE\x29\0\0\0\0\0\0\0\0\0\0\0\0\0\0\0\0\0\0\0\0\0\0\0\0\0\0\0\0\0\0\0\0\0\0\0\0\0\0\0\0\0\0\0\0\
          BRUS\x04\0\0\0\0\0\0\0",
    )?;
    case(
        rt,
        b"second MESH",
        b"BB3D\x8d\0\0\0\x01\0\0\0\
          NODE\x81\0\0\0\0\0\0\0\0\0\0\0\0\0\0\0\0\0\0\0\0\0\0\0\0\0\0\0\0\0\0\0\0\0\0\0\0\0\0\0\0\0\0\0\0\
          MESH\x24\0\0\0\xff\xff\xff\xff\
          VRTS\x0c\0\0\0\0\0\0\0\0\0\0\0\0\0\0\0\
          TRIS\x04\0\0\0\xff\xff\xff\xff\
          MESH\x24\0\0\0\xff\xff\xff\xff\
          VRTS\x0c\0\0\0\0\0\0\0\0\0\0\0\0\0\0\0\
          TRIS\x04\0\0\0\xff\xff\xff\xff",
    )?;

    // A root whose mesh has one vertex (12 to 117), a child at 117 whose mesh at 166 has three (44 + 36 bytes), a child of that at 246 whose BONE at 295
    // names vertex 1, at 303: no vertex of the root's mesh.
    case(
        rt,
        b"vertex of a mesh between",
        b"BB3D\x2f\x01\0\0\x01\0\0\0\
          NODE\x23\x01\0\0\0\0\0\0\0\0\0\0\0\0\0\0\0\0\0\0\0\0\0\0\0\0\0\0\0\0\0\0\0\0\0\0\0\0\0\0\0\0\0\0\0\
          MESH\x30\0\0\0\xff\xff\xff\xff\
          VRTS\x18\0\0\0\0\0\0\0\0\0\0\0\0\0\0\0\
          \0\0\0\0\0\0\0\0\0\0\0\0\
          TRIS\x04\0\0\0\xff\xff\xff\xff\
          NODE\xba\0\0\0\0\0\0\0\0\0\0\0\0\0\0\0\0\0\0\0\0\0\0\0\0\0\0\0\0\0\0\0\0\0\0\0\0\0\0\0\0\0\0\0\0\
          MESH\x48\0\0\0\xff\xff\xff\xff\
          VRTS\x30\0\0\0\0\0\0\0\0\0\0\0\0\0\0\0\
          \0\0\0\0\0\0\0\0\0\0\0\0\
          \0\0\0\0\0\0\0\0\0\0\0\0\
          \0\0\0\0\0\0\0\0\0\0\0\0\
          TRIS\x04\0\0\0\xff\xff\xff\xff\
          NODE\x39\0\0\0\0\0\0\0\0\0\0\0\0\0\0\0\0\0\0\0\0\0\0\0\0\0\0\0\0\0\0\0\0\0\0\0\0\0\0\0\0\0\0\0\0\
          BONE\x08\0\0\0\x01\0\0\0\0\0\0\0",
    )?;

    // Twelve zero bytes: neither the tag nor the length is right, and the tag comes first. Then a MESH at 61 whose VRTS at 73 has no vertex, and four
    // bytes at 93: 3 comes before 8, which is given at the end of the MESH.
    case(rt, b"tag and length wrong", b"\0\0\0\0\0\0\0\0\0\0\0\0")?;
    case(
        rt,
        b"no TRIS and spare bytes",
        b"BB3D\x59\0\0\0\x01\0\0\0\
          NODE\x4d\0\0\0\0\0\0\0\0\0\0\0\0\0\0\0\0\0\0\0\0\0\0\0\0\0\0\0\0\0\0\0\0\0\0\0\0\0\0\0\0\0\0\0\0\
          MESH\x1c\0\0\0\xff\xff\xff\xff\
          VRTS\x0c\0\0\0\0\0\0\0\0\0\0\0\0\0\0\0\
          \0\0\0\0",
    )?;
    Ok(())
}
