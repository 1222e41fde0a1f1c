// The brushes of a BRUS as they are mended, put into the output or only counted: texture ids that name nothing are set to -1.
#![tactic(auto)]

ghost use Rattle.std.specs.Prelude.{◌+◌, ◌*◌, ◌≤◌, ◌<◌, length};
ghost use Rattle.wire.specs.Bytes.{AllBytes};
ghost use Rattle.shared_put_or_count.specs.Emits.{Emits, RoomFrom};
ghost use Rattle.b3d_mend_write_spec.specs.Shown.{shown};
ghost use Rattle.b3d_mend_write_brushes.specs.Ids.{id_edits};
ghost use Rattle.wire.specs.Cursors.{Inside, left};
ghost use Rattle.b3d_spec.specs.Rules.{most_slots};
ghost use Rattle.b3d_mend_write_brushes.specs.Brushes.{BrushAt, brush_edits};
ghost use Rattle.b3d_spec_chunk_places.specs.Places.{Body};
ghost use Rattle.b3d_mend_spec.specs.Walks.{brus_edits};
ghost use Rattle.b3d_mend_write_brushes.specs.Lists.{brushes_at};

use b3d_chunk_cursor::Named;
use b3d_spec::MOST_SLOTS;
use wire::Cursor;

// Puts `n` ids of the file from `from` on, each set to -1 where it is neither -1 nor below `limit`.
fn put_ids(
    file: &[u8],
    from: usize,
    n: usize,
    limit: usize,
    report: bool,
    wet: bool,
    out: &mut [u8],
    start: usize,
) -> usize
    requires n_in_bounds { (from + 4 * n ≤ length file.now) × (length file.now < 4294967296) × AllBytes file.now }
    requires room_from { RoomFrom wet (shown report from (id_edits limit n from file.now)) start out.old }
    ensures { Emits wet (shown report from (id_edits limit n from file.now)) out.old start out.new result }
{
    let mut at = start;
    for i in 0..n {
        at = b3d_mend_write_items::put_id(file, from + 4 * i, limit, report, wet, out, at);
    }
    at
}

// Puts the brush at `c`: its name and its seven words, which begin at `row`, as they stand, then its `slots` texture ids.
fn put_brush(
    file: &[u8],
    c: Cursor,
    row: Cursor,
    slots: usize,
    textures: usize,
    report: bool,
    wet: bool,
    out: &mut [u8],
    at: usize,
) -> usize
    requires brush_at { BrushAt file.now c row slots }
    requires file_len_bound { (length file.now < 4294967296) × AllBytes file.now }
    requires room_from { RoomFrom wet (shown report c.at (brush_edits slots textures c row file.now)) at out.old }
    ensures { Emits wet (shown report c.at (brush_edits slots textures c row file.now)) out.old at out.new result }
{
    let from = c.at;
    let ids = row.at + 28;
    let next = b3d_mend_write_edits::put_kept(file, from, ids - from, report, wet, out, at);
    put_ids(file, ids, slots, textures, report, wet, out, next)
}

// Puts the brushes of `slots` texture ids that `from` has left, up to the first that is cut.
fn put_brushes(
    file: &[u8],
    from: Cursor,
    slots: usize,
    textures: usize,
    report: bool,
    wet: bool,
    out: &mut [u8],
    start: usize,
) -> usize
    requires inside { Inside from (length file.now) × (slots ≤ most_slots) }
    requires file_len_bound { (length file.now < 4294967296) × AllBytes file.now }
    requires room_from { RoomFrom wet (shown report from.at (brushes_at slots textures file.now from)) start out.old }
    ensures { Emits wet (shown report from.at (brushes_at slots textures file.now from)) out.old start out.new result }
{
    let mut c = from;
    let mut at = start;
    while c.at < c.end {
        let Some(Named { row, next, .. }) = b3d_chunk_cursor::named_row(file, c, 7 + slots) else {
            return at;
        };
        at = put_brush(file, c, row, slots, textures, report, wet, out, at);
        c = next;
    }
    at
}

// Puts the body of a BRUS whose header is at `p`: its n_texs, then its brushes. Nothing where n_texs is cut or above 8.
pub fn put_brus(
    file: &[u8],
    p: usize,
    body: Cursor,
    textures: usize,
    report: bool,
    wet: bool,
    out: &mut [u8],
    at: usize,
) -> usize
    requires body { Body p body (length file.now) × AllBytes file.now }
    requires room_from { RoomFrom wet (shown report body.at (brus_edits textures p (left body file.now))) at out.old }
    ensures { Emits wet (shown report body.at (brus_edits textures p (left body file.now))) out.old at out.new result }
{
    let Some((slots, c)) = body.number(file) else {
        return at;
    };
    if MOST_SLOTS < slots {
        return at;
    }
    let n = wire::size(slots);
    let from = body.at;
    let next = b3d_mend_write_edits::put_kept(file, from, 4, report, wet, out, at);
    put_brushes(file, c, n, textures, report, wet, out, next)
}
