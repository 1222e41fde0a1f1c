// Chunks that stay as they are in the copy without names, written into a lent output. Each function is lent the output from where it is to write, and returns
// how many bytes it wrote; a chunk's header is written last, when the length of its body is known.
#![tactic(auto)]

ghost use Rattle.std.specs.Prelude.{◌≤◌, ◌++◌, length};
ghost use Rattle.wire.specs.Cursors.{Inside, left};
ghost use Rattle.layout.specs.Rows.{most_bytes};
ghost use Rattle.shared_output.specs.Writing.{Room, Put};
ghost use Rattle.b3d_spec.specs.Tags.{code};
ghost use Rattle.b3d_clear_spec.specs.Copies.{chunk_of, each, chunks_at, as_is};

use b3d_chunk_walk::Sought;
use b3d_spec::Tag;
use wire::Cursor;

// Writes a chunk of `tag` with the bytes of `body`. Returns its size.
pub fn copy_chunk(file: &[u8], body: Cursor, tag: Tag, out: &mut [u8]) -> usize
    requires inside { Inside body (length file.now) }
    requires room { Room (chunk_of (code tag) (left body file.now)) out.old }
    ensures { Put (chunk_of (code tag) (left body file.now)) out.old out.new result }
{
    let at = body.at;
    let count = body.end - at;
    shared_output::copy_bytes(file, at, count, &mut out[8..]);
    shared_output::put_header(out, b3d_chunk_cursor::letters(tag), count);
    count + 8
}

// Writes each chunk of `tag` that stands from the cursor `from` on, as it is. Returns their size; 0 where there is none.
pub fn copy_each(file: &[u8], from: Cursor, tag: Tag, out: &mut [u8]) -> usize
    requires inside { Inside from (length file.now) × (length file.now ≤ most_bytes) }
    requires room { Room (each tag (as_is tag) (chunks_at file.now from)) out.old }
    ensures { Put (each tag (as_is tag) (chunks_at file.now from)) out.old out.new result }
{
    let mut c = from;
    let mut n: usize = 0;
    loop {
        let Some(Sought { body, next, .. }) = b3d_chunk_walk::seek(file, c, tag) else {
            return n;
        };
        let m = copy_chunk(file, body, tag, &mut out[n..]);
        n += m;
        c = next;
    }
}

// Writes each chunk of tag `first` that stands from the cursor `from` on, then each of tag `second`. Returns their size.
pub fn copy_two(file: &[u8], from: Cursor, first: Tag, second: Tag, out: &mut [u8]) -> usize
    requires inside { Inside from (length file.now) × (length file.now ≤ most_bytes) }
    requires room { Room (each first (as_is first) (chunks_at file.now from) ++ each second (as_is second) (chunks_at file.now from)) out.old }
    ensures { Put (each first (as_is first) (chunks_at file.now from) ++ each second (as_is second) (chunks_at file.now from))
        out.old out.new result }
{
    let n = copy_each(file, from, first, out);
    let m = copy_each(file, from, second, &mut out[n..]);
    n + m
}
