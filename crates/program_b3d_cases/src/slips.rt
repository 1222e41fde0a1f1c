// One file for each slip of 01's "Slips that look right" that a judge can make: the slip would give another answer. Tables filled while checking are no slip
// of a judge, which writes nothing; the last file has rows before its fault, and the answer no count.
use crate::case;
use std::io;

// Prints a line for each file that tells a rule from a slip.
pub fn cases(rt: &impl Print) -> io::Result<()> {
    // Slip: a vertex id held to all vertices read so far. A root whose mesh has 3 vertices (49 + 92 bytes from 12 on, as in file T of 01), and a child
    // at 153 whose mesh at 202 has one vertex; its TRIS stands at 202 + 32 + 12 = 246 and its ids at 258, 262 and 266.
    let mut file = *b"BB3D\x06\x01\0\0\x01\0\0\0\
        NODE\xfa\0\0\0\0\0\0\0\0\0\0\0\0\0\0\0\0\0\0\0\0\0\0\0\0\0\0\0\0\0\0\0\0\0\0\0\0\0\0\0\0\0\0\0\0\
        MESH\x54\0\0\0\xff\xff\xff\xff\
        VRTS\x30\0\0\0\0\0\0\0\0\0\0\0\0\0\0\0\
        \0\0\0\0\0\0\0\0\0\0\0\0\
        \0\0\0\0\0\0\0\0\0\0\0\0\
        \0\0\0\0\0\0\0\0\0\0\0\0\
        TRIS\x10\0\0\0\xff\xff\xff\xff\
        \0\0\0\0\x01\0\0\0\x02\0\0\0\
        NODE\x6d\0\0\0\0\0\0\0\0\0\0\0\0\0\0\0\0\0\0\0\0\0\0\0\0\0\0\0\0\0\0\0\0\0\0\0\0\0\0\0\0\0\0\0\0\
        MESH\x3c\0\0\0\xff\xff\xff\xff\
        VRTS\x18\0\0\0\0\0\0\0\0\0\0\0\0\0\0\0\
        \0\0\0\0\0\0\0\0\0\0\0\0\
        TRIS\x10\0\0\0\xff\xff\xff\xff\
        \0\0\0\0\0\0\0\0\0\0\0\0";
    case(rt, b"vertices of two meshes", &file)?;
    file[266] = 1;
    case(rt, b"vertex of another mesh", &file)?;

    // Slip: a list ended where less than an item is left. File T of 01 with one more id in its TRIS: the second item starts at 153. The same in TEXS,
    // whose items are no multiple of 4 bytes: the first has 29 bytes from 20 on, the second stands at 49 and lacks its last number.
    case(
        rt,
        b"cut triangle",
        b"BB3D\x95\0\0\0\x01\0\0\0\
          NODE\x89\0\0\0\0\0\0\0\0\0\0\0\0\0\0\0\0\0\0\0\0\0\0\0\0\0\0\0\0\0\0\0\0\0\0\0\0\0\0\0\0\0\0\0\0\
          MESH\x58\0\0\0\xff\xff\xff\xff\
          VRTS\x30\0\0\0\0\0\0\0\0\0\0\0\0\0\0\0\
          \0\0\0\0\0\0\0\0\0\0\0\0\
          \0\0\0\0\0\0\0\0\0\0\0\0\
          \0\0\0\0\0\0\0\0\0\0\0\0\
          TRIS\x14\0\0\0\xff\xff\xff\xff\
          \0\0\0\0\x01\0\0\0\x02\0\0\0\
          \0\0\0\0",
    )?;
    case(
        rt,
        b"cut texture",
        b"BB3D\x42\0\0\0\x01\0\0\0\
          TEXS\x36\0\0\0\0\0\0\0\0\0\0\0\0\0\0\0\0\0\0\0\0\0\0\0\0\0\0\0\0\0\0\0\0\
          \0\0\0\0\0\0\0\0\0\0\0\0\0\0\0\0\0\0\0\0\0\0\0\0\0",
    )?;

    // Slip: lengths rounded up to even. TEXS has length 29, XTRA 3, BRUS 4 + 29 + 4 = 37 and NODE 41; the copy leaves out XTRA and has
    // 12 + 37 + 45 + 49 bytes.
    case(
        rt,
        b"odd lengths",
        b"BB3D\x92\0\0\0\x01\0\0\0\
          TEXS\x1d\0\0\0\0\0\0\0\0\0\0\0\0\0\0\0\0\0\0\0\0\0\0\0\0\0\0\0\0\0\0\0\0\
          XTRA\x03\0\0\0abc\
          BRUS\x25\0\0\0\x01\0\0\0\
          \0\0\0\0\0\0\0\0\0\0\0\0\0\0\0\0\0\0\0\0\0\0\0\0\0\0\0\0\0\
          \0\0\0\0\
          NODE\x29\0\0\0\0\0\0\0\0\0\0\0\0\0\0\0\0\0\0\0\0\0\0\0\0\0\0\0\0\0\0\0\0\0\0\0\0\0\0\0\0\0\0\0\0",
    )?;

    // Slip: place and length added in 32 bits. The length of XTRA at 12 is 0xFFFFFFFC: 12 + 8 + that is 16 in 32 bits, where those four bytes and four
    // zero bytes would make the header of an empty chunk that ends with the file.
    case(
        rt,
        b"length that wraps",
        b"BB3D\x10\0\0\0\x01\0\0\0\
          XTRA\xfc\xff\xff\xff\0\0\0\0",
    )?;

    // A root at 12 with a child at 61, then five bytes at 110 where a chunk may stand.
    case(
        rt,
        b"rows, then a fault",
        b"BB3D\x6b\0\0\0\x01\0\0\0\
          NODE\x5a\0\0\0\0\0\0\0\0\0\0\0\0\0\0\0\0\0\0\0\0\0\0\0\0\0\0\0\0\0\0\0\0\0\0\0\0\0\0\0\0\0\0\0\0\
          NODE\x29\0\0\0\0\0\0\0\0\0\0\0\0\0\0\0\0\0\0\0\0\0\0\0\0\0\0\0\0\0\0\0\0\0\0\0\0\0\0\0\0\0\0\0\0\
          \0\0\0\0\0",
    )?;
    Ok(())
}
