// The chunks of a file as they are mended, put into the output or only counted: a chunk, its body, the chunks inside it.
#![tactic(auto)]

ghost use Rattle.std.specs.Prelude.{◌≤◌, length};
ghost use Rattle.wire.specs.Bytes.{AllBytes};
ghost use Rattle.wire.specs.Cursors.{Inside, left};
ghost use Rattle.layout.specs.Rows.{most_bytes};
ghost use Rattle.b3d_spec_chunk_places.specs.Places.{Body};
ghost use Rattle.shared_put_or_count.specs.Emits.{RoomFrom};
ghost use Rattle.b3d_mend_write_scopes.specs.Shown.{walk_chunk};
ghost use Rattle.b3d_mend_write_leaves.specs.Answers.{Walks};
ghost use Rattle.b3d_mend_write_scopes.specs.Opens.{walk_from};

use b3d_mend_write_leaves::Walk;
use b3d_mend_write_scopes::{Opening, Scope};
use b3d_spec::Tag;
use wire::{Cursor, Header};

// Puts the body of a chunk of this tag whose header is at `p`; chunks inside it are looked into while `levels` is not 0.
#[cycle(walk_body_walk_inside)]
fn walk_body(
    file: &[u8],
    levels: u32,
    tag: Tag,
    p: usize,
    body: Cursor,
    scope: Scope,
    report: bool,
    wet: bool,
    out: &mut [u8],
    at: usize,
) -> Walk
    requires body { Body p body (length file.now) × AllBytes file.now }
    requires room_from { RoomFrom wet (walk_chunk report levels scope tag p (left body file.now)).bytes at out.old }
    ensures { Walks wet (walk_chunk report levels scope tag p (left body file.now)) out.old at out.new result }
{
    let first = body.at;
    match b3d_mend_write_scopes::find_chunks(file, levels, tag, body) {
        Opening::Flat => {
            b3d_mend_write_leaves::walk_leaf(file, tag, p, body, scope, report, wet, out, at)
        }
        Opening::Nothing => Walk { at, count: 0 },
        Opening::Node(from) => {
            let k = b3d_mend_write_scopes::node_scope(scope);
            let n = from.at - first;
            let m = b3d_mend_write_edits::put_kept(file, first, n, report, wet, out, at);
            let w = walk_inside(file, levels - 1, from, k, report, wet, out, m);
            Walk { at: w.at, count: 0 }
        }
        Opening::Mesh(from) => {
            let k = b3d_mend_write_scopes::mesh_scope(scope);
            let m = b3d_mend_write_items::put_id(file, first, scope.brushes, report, wet, out, at);
            walk_inside(file, levels - 1, from, k, report, wet, out, m)
        }
    }
}

// Puts the chunks from `from` on, each with `levels` levels left: known ones as they are mended, the header behind the body, others as they stand, and no
// spare bytes.
#[cycle(walk_body_walk_inside)]
pub fn walk_inside(
    file: &[u8],
    levels: u32,
    from: Cursor,
    scope: Scope,
    report: bool,
    wet: bool,
    out: &mut [u8],
    start: usize,
) -> Walk
    requires inside { Inside from (length file.now) × (length file.now ≤ most_bytes) × AllBytes file.now }
    requires room_from { RoomFrom wet (walk_from report levels scope file.now from).bytes start out.old }
    ensures { Walks wet (walk_from report levels scope file.now from) out.old start out.new result }
{
    let mut c = from;
    let mut k = scope;
    let mut at = start;
    loop {
        let here = c.at;
        match c.header(file) {
            Header::End => {
                return Walk { at, count: k.own };
            }
            Header::Cut => {
                let n = b3d_mend_write_edits::put_rest(file, c, report, wet, out, at);
                return Walk {
                    at: n,
                    count: k.own,
                };
            }
            Header::Whole { tag, body, next } => match b3d_chunk_cursor::tag_of(tag) {
                None => {
                    let n = next.at - here;
                    at = b3d_mend_write_edits::put_kept(file, here, n, report, wet, out, at);
                    c = next;
                }
                Some(t) => {
                    let m = b3d_mend_write_scopes::body_at(report, at);
                    let w = walk_body(file, levels, t, here, body, k, report, wet, out, m);
                    let size = w.at - m;
                    b3d_mend_write_scopes::put_head(t, size, report, wet, out, at);
                    at = w.at;
                    k = b3d_mend_write_scopes::next_scope(k, t, w.count);
                    c = next;
                }
            },
        }
    }
}
