// A file as it is mended, or the report of it, put into a lent output or only counted.
#![tactic(auto)]

ghost use Rattle.std.specs.Prelude.{[], ◌+◌, ◌≤◌, ◌<◌, length};
ghost use Rattle.layout.specs.Rows.{most_bytes};
ghost use Rattle.wire.specs.Bytes.{bytes, AllBytes};
ghost use Rattle.shared_put_or_count.specs.Emits.{Emits, RoomFrom};
ghost use Rattle.b3d_mend_write_scopes.specs.Shown.{walk_file};
ghost use Rattle.b3d_mend_write_file.specs.Starts.{start_shown};

use b3d_mend_write_scopes::Scope;
use b3d_spec::letters;
use wire::Cursor;

// Inside BB3D, before all chunks.
const FILE_SCOPE: Scope = Scope {
    textures: 0,
    brushes: 0,
    top: true,
    root: false,
    bones: 0,
    own: 0,
    told: 0,
};

// BB3D, 16 levels of NODE, MESH.
const WALK_LEVELS: u32 = 17;

// Puts three numbers.
fn put_three(a: u32, b: u32, c: u32, wet: bool, out: &mut [u8], at: usize) -> usize
    requires { RoomFrom wet (bytes a (bytes b (bytes c []))) at out.old }
    ensures { Emits wet (bytes a (bytes b (bytes c []))) out.old at out.new result }
{
    let m = shared_put_or_count::put_word(a, wet, out, at);
    let n = shared_put_or_count::put_word(b, wet, out, m);
    shared_put_or_count::put_word(c, wet, out, n)
}

// Puts the letters, the length and the version of a file whose mended chunks have `size` bytes; in the report the length's entry, if it was wrong.
fn put_start(file: &[u8], size: usize, report: bool, wet: bool, out: &mut [u8], at: usize) -> usize
    requires in_bounds { (12 ≤ length file.now) × (length file.now ≤ most_bytes) × AllBytes file.now }
    requires size_bound { size + 4 < 4294967296 }
    requires room_from { RoomFrom wet (start_shown report size file.now) at out.old }
    ensures { Emits wet (start_shown report size file.now) out.old at out.new result }
{
    let long = (size + 4) as u32;
    if report {
        let behind = file.len() - 8;
        if wire::size(wire::number_at(file, 4)) == behind {
            return at;
        }
        return b3d_mend_write_edits::put_set(file, 4, 1, long, report, wet, out, at);
    }
    let version = wire::number_at(file, 8);
    put_three(letters::BB3D, long, version, wet, out, at)
}

// Puts the mended file, whose chunks have `size` bytes, or its report, and returns the place after it.
pub fn walk_file(
    file: &[u8],
    size: usize,
    report: bool,
    wet: bool,
    out: &mut [u8],
    at: usize,
) -> usize
    requires in_bounds { (12 ≤ length file.now) × (length file.now ≤ most_bytes) × AllBytes file.now }
    requires size_bound { size + 4 < 4294967296 }
    requires room_from { RoomFrom wet (walk_file report size file.now) at out.old }
    ensures { Emits wet (walk_file report size file.now) out.old at out.new result }
{
    let chunks = Cursor {
        at: 12,
        end: file.len(),
    };
    let m = put_start(file, size, report, wet, out, at);
    let w = b3d_mend_write_chunks::walk_inside(
        file,
        WALK_LEVELS,
        chunks,
        FILE_SCOPE,
        report,
        wet,
        out,
        m,
    );
    w.at
}
