// What a chunk needs to know of those before it and around it, where the chunks inside it begin, and its header, which is put behind its body.
// `specs/Shown` is what the writing walk shows of a file, chunk by chunk, from the bytes alone and without refusals; a law says that for a file that can
// be mended this is its mended file and its report.
#![tactic(auto)]

ghost use Rattle.std.specs.Prelude.{◌≡◌, ◌+◌, ◌-◌, ◌<◌, [], length};
ghost use Rattle.b3d_mend_write_scopes.specs.Shown.{next_scope, node_scope, mesh_scope};
ghost use Rattle.b3d_mend_write_scopes.specs.Heads.{body_at};
ghost use Rattle.wire.specs.Bytes.{AllBytes};
ghost use Rattle.wire.specs.Cursors.{Inside};
ghost use Rattle.b3d_mend_write_scopes.specs.Opens.{OpeningIs};
ghost use Rattle.b3d_spec.specs.Tags.{code};
ghost use Rattle.shared_output.specs.Writing.{head};
ghost use Rattle.shared_put_or_count.specs.Emits.{written};
ghost use Rattle.b3d_mend_write_scopes.specs.HeadRooms.{head_wet, HeadRoom};

use b3d_chunk_cursor::Named;
use b3d_spec::Tag;
use wire::Cursor;

// What a chunk needs to know of those before it and of those around it.
#[derive(Clone, Copy)]
pub struct Scope {
    // Textures and brushes of the file.
    pub textures: usize,
    pub brushes: usize,
    // Inside BB3D; inside the root.
    pub top: bool,
    pub root: bool,
    // The vertices that a BONE here may name, those of the mesh here, and those that the bones of a NODE inside may name.
    pub bones: usize,
    pub own: usize,
    pub told: usize,
}

// Returns where the body of a chunk goes that is put at `at`: in the file behind its header, in the report there.
pub fn body_at(report: bool, at: usize) -> usize
    requires { at < 4294967296 }
    ensures { result ≡ body_at report at }
{
    if report {
        return at;
    }
    at + 8
}

// Returns the scope behind a chunk of this tag that counted `count` textures, brushes or vertices.
pub fn next_scope(c: Scope, tag: Tag, count: usize) -> Scope
    ensures { result ≡ next_scope c tag count }
{
    let mut r = c;
    match tag {
        Tag::TEXS => {
            r.textures = count;
            r
        }
        Tag::BRUS => {
            r.brushes = count;
            r
        }
        Tag::VRTS => {
            r.own = count;
            r
        }
        Tag::MESH => {
            r.own = count;
            if c.root {
                r.told = count;
                return r;
            }
            r
        }
        Tag::ANIM => {
            r.told = c.own;
            r
        }
        Tag::BB3D => r,
        Tag::NODE => r,
        Tag::TRIS => r,
        Tag::BONE => r,
        Tag::KEYS => r,
    }
}

// Returns the scope inside a NODE that stands in `c`.
pub fn node_scope(c: Scope) -> Scope
    ensures { result ≡ node_scope c }
{
    Scope {
        textures: c.textures,
        brushes: c.brushes,
        top: false,
        root: c.top,
        bones: c.told,
        own: 0,
        told: c.told,
    }
}

// Returns the scope inside a MESH that stands in `c`.
pub fn mesh_scope(c: Scope) -> Scope
    ensures { result ≡ mesh_scope c }
{
    Scope {
        textures: c.textures,
        brushes: c.brushes,
        top: false,
        root: false,
        bones: c.bones,
        own: 0,
        told: c.told,
    }
}

// Puts the header of a chunk of this tag whose body has `size` bytes: its letters and that length. Nothing in the report, nor where `wet` is false.
pub fn put_head(tag: Tag, size: usize, report: bool, wet: bool, out: &mut [u8], at: usize)
    requires { HeadRoom report wet at size out.old }
    ensures { out.new ≡ written (head_wet report wet) (head (code tag) size []) at out.old }
{
    if report {
        return;
    }
    if !wet {
        return;
    }
    shared_output::put_header(&mut out[at..], b3d_chunk_cursor::letters(tag), size);
}

// How a chunk is walked: as one that holds no chunks (`Flat`), not at all (`Nothing`), or as a NODE or a MESH whose chunks begin at the cursor.
#[derive(Clone, Copy)]
pub enum Opening {
    Flat,
    Nothing,
    Node(Cursor),
    Mesh(Cursor),
}

// Finds where the chunks inside a chunk of this tag begin; no chunk is looked into where `levels` is 0.
pub fn find_chunks(file: &[u8], levels: u32, tag: Tag, body: Cursor) -> Opening
    requires { Inside body (length file.now) × AllBytes file.now }
    ensures { OpeningIs file.now levels tag body result }
{
    if levels == 0 {
        return Opening::Flat;
    }
    match tag {
        Tag::NODE => {
            let Some(Named { next, .. }) = b3d_chunk_cursor::named_row(file, body, 10) else {
                return Opening::Flat;
            };
            Opening::Node(next)
        }
        Tag::MESH => {
            let Some((_, next)) = body.number(file) else {
                return Opening::Nothing;
            };
            Opening::Mesh(next)
        }
        _ => Opening::Flat,
    }
}
