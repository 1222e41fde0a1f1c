// The copy without names of a whole file, written into an output with room for it: BB3D's header, the version, then the chunks.
#![tactic(auto)]

ghost use Rattle.std.specs.Prelude.{◌++◌, ◌≤◌, length};
ghost use Rattle.wire.specs.Bytes.{AllBytes};
ghost use Rattle.wire.specs.Cursors.{Inside};
ghost use Rattle.layout.specs.Rows.{most_bytes};
ghost use Rattle.shared_output.specs.Writing.{Room, Put};
ghost use Rattle.b3d_spec.specs.Rules.{levels};
ghost use Rattle.b3d_spec.specs.declared.Tag.TheVariants.{BRUS, NODE};
ghost use Rattle.b3d_clear_spec.specs.Copies.{each, chunks_at, brus_copy, node_copy, in_file, file_copy};

use b3d_spec::{ALL_LEVELS, Tag, letters};
use wire::Cursor;

// Writes each BRUS, then each NODE, of those from the cursor `from` on, without names. Returns their size.
fn clear_rest(file: &[u8], from: Cursor, out: &mut [u8]) -> usize
    requires inside { Inside from (length file.now) × (length file.now ≤ most_bytes) × AllBytes file.now }
    requires room { Room (each BRUS brus_copy (chunks_at file.now from) ++ each NODE (node_copy levels) (chunks_at file.now from)) out.old }
    ensures { Put (each BRUS brus_copy (chunks_at file.now from) ++ each NODE (node_copy levels) (chunks_at file.now from))
        out.old out.new result }
{
    let n = b3d_clear_chunks::clear_each(file, from, Tag::BRUS, out);
    let m = b3d_clear_nodes::clear_nodes(file, from, ALL_LEVELS, &mut out[n..]);
    n + m
}

// Writes each TEXS, BRUS and NODE, in this order, of those from the cursor `from` on, without names. Returns their size.
fn clear_chunks(file: &[u8], from: Cursor, out: &mut [u8]) -> usize
    requires inside { Inside from (length file.now) × (length file.now ≤ most_bytes) × AllBytes file.now }
    requires room { Room (in_file (chunks_at file.now from)) out.old }
    ensures { Put (in_file (chunks_at file.now from)) out.old out.new result }
{
    let n = b3d_clear_chunks::clear_each(file, from, Tag::TEXS, out);
    let m = clear_rest(file, from, &mut out[n..]);
    n + m
}

// Writes the copy without names of `file`, of at least 12 bytes, to the start of `out`, which has room for it. Returns its size. The bytes behind it stay as
// they were.
pub fn clear_file(file: &[u8], out: &mut [u8]) -> usize
    requires in_bounds { (12 ≤ length file.now) × (length file.now ≤ most_bytes) × AllBytes file.now }
    requires room { Room (file_copy file.now) out.old }
    ensures { Put (file_copy file.now) out.old out.new result }
{
    let from = Cursor {
        at: 12,
        end: file.len(),
    };
    let version = wire::number_at(file, 8);
    let n = clear_chunks(file, from, &mut out[12..]);
    shared_output::put_opening(out, letters::BB3D, n, version);
    n + 12
}
