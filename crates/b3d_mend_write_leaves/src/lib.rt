// A chunk that holds no chunks as it is mended, put into the output or only counted; how many textures, brushes or vertices it has.
#![tactic(auto)]

ghost use Rattle.std.specs.Prelude.{◌≡◌, length};
ghost use Rattle.wire.specs.Cursors.{left};
ghost use Rattle.b3d_spec_chunk_places.specs.Places.{Body};
ghost use Rattle.b3d_spec.specs.declared.Mode.TheVariants.{Lenient};
ghost use Rattle.b3d_spec.specs.Parse.{read_textures, read_brushes, read_vertices};
ghost use Rattle.b3d_mend_spec.specs.Trees.{textures_of, vertices_of};
ghost use Rattle.b3d_mend_judge_items.specs.Lax.{every};
ghost use Rattle.b3d_mend_write_scopes.specs.Shown.{brush_count, walk_leaf};
ghost use Rattle.wire.specs.Bytes.{AllBytes};
ghost use Rattle.shared_put_or_count.specs.Emits.{Emits, RoomFrom};
ghost use Rattle.b3d_mend_write_leaves.specs.Answers.{leaf_count, Walks};

use b3d_mend_write_scopes::Scope;
use b3d_spec::{Mode, Tag};
use wire::Cursor;

// More things than an id can be: every id names one.
const EVERY: usize = 4294967296;

// Returns how many textures a TEXS has whose header is at `p`; 0 where it is refused.
fn textures_in(file: &[u8], p: usize, body: Cursor) -> usize
    requires { Body p body (length file.now) }
    ensures { result ≡ textures_of (read_textures p (left body file.now)) }
{
    match b3d_judge_materials::judge_textures(file, p, body) {
        Err(_) => 0,
        Ok(t) => t.textures,
    }
}

// Returns how many brushes a BRUS has whose header is at `p`, whatever its ids; 0 where it is refused.
fn brushes_in(file: &[u8], p: usize, body: Cursor) -> usize
    requires { Body p body (length file.now) }
    ensures { result ≡ brush_count (read_brushes Lenient every p (left body file.now)) }
{
    match b3d_judge_materials::judge_brushes(file, p, body, EVERY, Mode::Lenient) {
        Err(_) => 0,
        Ok((_, t)) => t.brushes,
    }
}

// Returns how many vertices a VRTS has whose header is at `p`; 0 where it is refused.
fn vertices_in(file: &[u8], p: usize, body: Cursor) -> usize
    requires { Body p body (length file.now) }
    ensures { result ≡ vertices_of (read_vertices Lenient p (left body file.now)) }
{
    match b3d_judge_bodies::judge_vertices(file, p, body, Mode::Lenient) {
        Err(_) => 0,
        Ok((n, _)) => n,
    }
}

// The place after what was put, and the textures, brushes or vertices that were counted.
#[derive(Clone, Copy)]
pub struct Walk {
    pub at: usize,
    pub count: usize,
}

// Puts the body of a chunk of this tag whose header is at `p`.
fn put_leaf(
    file: &[u8],
    tag: Tag,
    p: usize,
    body: Cursor,
    scope: Scope,
    report: bool,
    wet: bool,
    out: &mut [u8],
    at: usize,
) -> usize
    requires body { Body p body (length file.now) × AllBytes file.now }
    requires room_from { RoomFrom wet (walk_leaf report scope tag p (left body file.now)).bytes at out.old }
    ensures { Emits wet (walk_leaf report scope tag p (left body file.now)).bytes out.old at out.new result }
{
    match tag {
        Tag::BRUS => b3d_mend_write_brushes::put_brus(
            file,
            p,
            body,
            scope.textures,
            report,
            wet,
            out,
            at,
        ),
        Tag::TRIS => b3d_mend_write_items::put_tris(
            file,
            body,
            scope.brushes,
            scope.own,
            report,
            wet,
            out,
            at,
        ),
        Tag::BONE => b3d_mend_write_items::put_bone(file, body, scope.bones, report, wet, out, at),
        _ => b3d_mend_write_edits::put_whole(file, body, report, wet, out, at),
    }
}

// Returns the textures of a TEXS, the brushes of a BRUS or the vertices of a VRTS; 0 for other tags.
fn count_leaf(file: &[u8], tag: Tag, p: usize, body: Cursor) -> usize
    requires { Body p body (length file.now) }
    ensures { result ≡ leaf_count tag p (left body file.now) }
{
    match tag {
        Tag::TEXS => textures_in(file, p, body),
        Tag::BRUS => brushes_in(file, p, body),
        Tag::VRTS => vertices_in(file, p, body),
        _ => 0,
    }
}

// Puts the body of a chunk of this tag whose header is at `p`, and counts its textures, brushes or vertices.
pub fn walk_leaf(
    file: &[u8],
    tag: Tag,
    p: usize,
    body: Cursor,
    scope: Scope,
    report: bool,
    wet: bool,
    out: &mut [u8],
    at: usize,
) -> Walk
    requires body { Body p body (length file.now) × AllBytes file.now }
    requires room_from { RoomFrom wet (walk_leaf report scope tag p (left body file.now)).bytes at out.old }
    ensures { Walks wet (walk_leaf report scope tag p (left body file.now)) out.old at out.new result }
{
    let count = count_leaf(file, tag, p, body);
    let next = put_leaf(file, tag, p, body, scope, report, wet, out, at);
    Walk { at: next, count }
}
