// The tray label (E7): the name of a file's root and the vertices of its mesh, by a walk over headers that judges nothing else. Its cost is that of the
// headers stepped over and of the name.
#![tactic(auto)]

ghost use Rattle.std.specs.Prelude.{◌≡◌, ◌+◌, ◌≤◌, length};
ghost use Rattle.wire.specs.Cursors.{Inside, left};
ghost use Rattle.b3d_spec.specs.Tags.{split};
ghost use Rattle.b3d_label_spec.specs.Walk.{vrts_vertices, mesh_vertices, root_vertices, root_in, file_in, no_label, label_of, name_on};
ghost use Rattle.b3d_label.specs.Answers.{many_says, on_label, Labels};

use b3d_chunk_cursor::{Named, Next};
use b3d_chunk_walk::Sought;
use b3d_label_spec::TrayLabel;
use b3d_spec::{HIGHEST_VERTEX_FLAGS, LARGEST_SET, MOST_SETS, Tag, letters};
use layout::refusals;
use wire::{Cursor, Header};

// Returns how many vertices the VRTS with this `body` has; `None` if its fixed data is cut or out of range, or its items do not fill it.
fn vrts_vertices(s: &[u8], body: Cursor) -> Option<usize>
    requires { Inside body (length s.now) }
    ensures { many_says result ≡ on_label (vrts_vertices body.at (left body s.now)) }
{
    let start = body.at;
    let end = body.end;
    if end - start < 12 {
        return None;
    }
    let flags = wire::number_at(s, start);
    let sets = wire::number_at(s, start + 4);
    let size = wire::number_at(s, start + 8);
    if HIGHEST_VERTEX_FLAGS < flags {
        return None;
    }
    if MOST_SETS < sets {
        return None;
    }
    if LARGEST_SET < size {
        return None;
    }
    let words = b3d_rule_widths::vertex_words(flags, sets, size);
    let items = Cursor {
        at: start + 12,
        end,
    };
    let Ok(count) = b3d_judge_items::whole_items(items, words) else {
        return None;
    };
    Some(count)
}

// Returns how many vertices the first VRTS of the MESH with this `body` has; `None` if there is none or the walk is refused.
fn mesh_vertices(s: &[u8], body: Cursor) -> Option<usize>
    requires { Inside body (length s.now) }
    ensures { many_says result ≡ on_label (mesh_vertices body.at (left body s.now)) }
{
    let (_, inside) = body.number(s)?;
    let chunk = b3d_chunk_walk::seek(s, inside, Tag::VRTS)?;
    vrts_vertices(s, chunk.body)
}

// Returns how many vertices the mesh of a root has, `from` standing after its fixed data; 0 if its first known chunk is no MESH.
fn root_vertices(s: &[u8], from: Cursor) -> Option<usize>
    requires { Inside from (length s.now) }
    ensures { many_says result ≡ on_label (root_vertices (split from.at (left from s.now))) }
{
    match b3d_chunk_cursor::next_chunk(s, from) {
        Next::Done => Some(0),
        Next::Cut(_) => None,
        Next::Chunk { tag, body, .. } => {
            if b3d_chunk_cursor::letters(tag) == letters::MESH {
                return mesh_vertices(s, body);
            }
            Some(0)
        }
    }
}

// Returns the label of a refusal: 14 at place 0, an empty name and no vertex.
fn refused() -> TrayLabel
    ensures { result ≡ no_label }
{
    TrayLabel {
        number: refusals::NO_LABEL,
        place: 0,
        name_place: 0,
        name_length: 0,
        vertices: 0,
    }
}

// Returns the label of the root with this `body`.
fn root_label(s: &[u8], body: Cursor) -> TrayLabel
    requires { Inside body (length s.now) }
    ensures { Labels (root_in body.at (left body s.now)) (length s.now) result }
{
    let Some(Named { length, next, .. }) = b3d_chunk_cursor::named_row(s, body, 10) else {
        return refused();
    };
    let Some(vertices) = root_vertices(s, next) else {
        return refused();
    };
    TrayLabel {
        number: 0,
        place: 0,
        name_place: body.at,
        name_length: length,
        vertices,
    }
}

// Returns the label of the BB3D with this `body`: that of its first NODE, 14 if it has none.
fn file_label(s: &[u8], body: Cursor) -> TrayLabel
    requires { Inside body (length s.now) }
    ensures { Labels (file_in body.at (left body s.now)) (length s.now) result }
{
    let Some((_, inside)) = body.number(s) else {
        return refused();
    };
    let Some(Sought { body: root, .. }) = b3d_chunk_walk::seek(s, inside, Tag::NODE) else {
        return refused();
    };
    root_label(s, root)
}

// Returns the label of `file`: the place and length of the root's name, which lies in the file, and the vertices; or 14.
pub fn label(file: &[u8]) -> TrayLabel
    ensures value { result ≡ label_of file.now }
    ensures name_length_in_bounds { result.name_place + result.name_length ≤ length file.now }
{
    let all = Cursor {
        at: 0,
        end: file.len(),
    };
    match all.header(file) {
        Header::End => refused(),
        Header::Cut => refused(),
        Header::Whole { tag, body, next: _ } => {
            if tag != letters::BB3D {
                return refused();
            }
            file_label(file, body)
        }
    }
}

// Returns the name on the label of `file`, as a part of the file; the empty part if it is refused.
pub fn label_name(file: &[u8]) -> &[u8]
    ensures { result.now ≡ name_on (label_of file.now) file.now }
{
    let found = label(file);
    let place = found.name_place;
    let end = place + found.name_length;
    &file[place..end]
}
