// A MESH in the copy without names, and a chunk by its tag: made anew where it holds names or unknown chunks, else as it is.
#![tactic(auto)]

ghost use Rattle.std.specs.Prelude.{◌≤◌, length};
ghost use Rattle.wire.specs.Bytes.{bytes, AllBytes};
ghost use Rattle.wire.specs.Cursors.{Inside, left};
ghost use Rattle.layout.specs.Rows.{most_bytes};
ghost use Rattle.shared_output.specs.Writing.{Room, Put};
ghost use Rattle.b3d_spec.specs.Tags.{code};
ghost use Rattle.b3d_spec.specs.declared.Tag.TheVariants.{MESH};
ghost use Rattle.b3d_spec_chunk_places.specs.Places.{Body};
ghost use Rattle.b3d_clear_spec.specs.Copies.{chunk_of, each, chunks_at, in_mesh, mesh_copy, part_copy};

use b3d_chunk_walk::Sought;
use b3d_spec::{Tag, letters};
use wire::Cursor;

// Writes a MESH of `brush` and of each VRTS, then each TRIS, from the cursor `from` on. Returns its size.
fn mesh_chunk(file: &[u8], from: Cursor, brush: u32, out: &mut [u8]) -> usize
    requires inside { Inside from (length file.now) × (length file.now ≤ most_bytes) }
    requires room { Room (chunk_of (code MESH) (bytes brush (in_mesh (chunks_at file.now from)))) out.old }
    ensures { Put (chunk_of (code MESH) (bytes brush (in_mesh (chunks_at file.now from)))) out.old out.new result }
{
    let n = b3d_clear_copied_chunks::copy_two(file, from, Tag::VRTS, Tag::TRIS, &mut out[12..]);
    shared_output::put_opening(out, letters::MESH, n, brush);
    n + 12
}

// Writes what the MESH at `at` with this `body` becomes. Returns its size; 0 where its brush is cut.
fn clear_mesh(file: &[u8], at: usize, body: Cursor, out: &mut [u8]) -> usize
    requires body { Body at body (length file.now) }
    requires room { Room (mesh_copy at (left body file.now)) out.old }
    ensures { Put (mesh_copy at (left body file.now)) out.old out.new result }
{
    let Some((brush, from)) = body.number(file) else {
        return 0;
    };
    mesh_chunk(file, from, brush, out)
}

// Writes what the chunk of `tag` at `at` with this `body` becomes; a NODE is taken as it is. Returns its size.
fn clear_chunk(file: &[u8], at: usize, body: Cursor, tag: Tag, out: &mut [u8]) -> usize
    requires body { Body at body (length file.now) × AllBytes file.now }
    requires room { Room (part_copy tag at (left body file.now)) out.old }
    ensures { Put (part_copy tag at (left body file.now)) out.old out.new result }
{
    match tag {
        Tag::TEXS => b3d_clear_materials::clear_textures(file, at, body, out),
        Tag::BRUS => b3d_clear_materials::clear_brushes(file, at, body, out),
        Tag::MESH => clear_mesh(file, at, body, out),
        _ => b3d_clear_copied_chunks::copy_chunk(file, body, tag, out),
    }
}

// Writes what each chunk of `tag` from the cursor `from` on becomes; a NODE is taken as it is. Returns their size; 0 where there is none.
pub fn clear_each(file: &[u8], from: Cursor, tag: Tag, out: &mut [u8]) -> usize
    requires inside { Inside from (length file.now) × (length file.now ≤ most_bytes) × AllBytes file.now }
    requires room { Room (each tag (part_copy tag) (chunks_at file.now from)) out.old }
    ensures { Put (each tag (part_copy tag) (chunks_at file.now from)) out.old out.new result }
{
    let mut c = from;
    let mut n: usize = 0;
    loop {
        let Some(Sought { at, body, next }) = b3d_chunk_walk::seek(file, c, tag) else {
            return n;
        };
        let m = clear_chunk(file, at, body, tag, &mut out[n..]);
        n += m;
        c = next;
    }
}
