// Ids, items and the bodies of TRIS and BONE as they are mended, put into the output or only counted: an id that names nothing is set to -1, an item
// with one is taken out.
#![tactic(auto)]

ghost use Rattle.std.specs.Prelude.{◌+◌, ◌-◌, ◌*◌, ◌≤◌, ◌<◌, [], ◌∷◌, length};
ghost use Rattle.wire.specs.Bytes.{word_at, AllBytes};
ghost use Rattle.wire.specs.Cursors.{Inside, left};
ghost use Rattle.layout.specs.Rules.{names_or_none};
ghost use Rattle.shared_ids.specs.Ids.{id_row};
ghost use Rattle.b3d_mend_spec.specs.Walks.{word_edit, item_edits, tris_edits, bone_edits};
ghost use Rattle.shared_put_or_count.specs.Emits.{Emits, RoomFrom};
ghost use Rattle.b3d_mend_write_spec.specs.Shown.{shown};
ghost use Rattle.b3d_mend_write_items.specs.Runs.{AllStay};

use wire::Cursor;

// Puts the id of the file at `from`, set to -1 where it is neither -1 nor below `limit`.
pub fn put_id(
    file: &[u8],
    from: usize,
    limit: usize,
    report: bool,
    wet: bool,
    out: &mut [u8],
    at: usize,
) -> usize
    requires from_in_bounds { (from + 4 ≤ length file.now) × (length file.now < 4294967296) × AllBytes file.now }
    requires room_from { RoomFrom wet (shown report from (word_edit (names_or_none limit) (word_at file.now from) ∷ [])) at out.old }
    ensures { Emits wet (shown report from (word_edit (names_or_none limit) (word_at file.now from) ∷ [])) out.old at
        out.new result }
{
    let id = wire::number_at(file, from);
    if shared_ids::id_valid(id, limit, true) {
        return b3d_mend_write_edits::put_kept(file, from, 4, report, wet, out, at);
    }
    b3d_mend_write_edits::put_set(file, from, 2, 0xFFFFFFFF, report, wet, out, at)
}

// Returns how many bytes of the items that `c` has left stay, from its start up to the first item that does not or is cut: items of `words` words, the
// first `ids` of them ids below `limit`. 0 where the first item does not stay.
fn kept_bytes(file: &[u8], c: Cursor, words: usize, ids: usize, limit: usize) -> usize
    requires { Inside c (length file.now) × (0 < words) × (words ≤ 64) × (ids ≤ words) × AllBytes file.now }
    ensures { AllStay file.now words ids limit c result }
{
    let from = c.at;
    let end = c.end;
    let size = 4 * words;
    let mut n: usize = 0;
    while size <= end - from - n {
        let item = Cursor { at: from + n, end };
        let one = b3d_mend_judge_items::kept_one(file, item, words, ids, limit);
        if one == 0 {
            return n;
        }
        n += size;
    }
    n
}

// Puts the items that `from` has left up to the first that is cut: items of `words` words, the first `ids` of them ids below `limit`. Those that stay
// one after the other are put at once; an item with an id that names nothing is taken out.
pub fn put_items(
    file: &[u8],
    from: Cursor,
    words: usize,
    ids: usize,
    limit: usize,
    report: bool,
    wet: bool,
    out: &mut [u8],
    start: usize,
) -> usize
    requires inside { Inside from (length file.now) × (0 < words) × (words ≤ 64) × (ids ≤ words) }
    requires file_len_bound { (length file.now < 4294967296) × AllBytes file.now }
    requires room_from { RoomFrom wet (shown report from.at (item_edits (id_row ids (words - ids) limit) (left from file.now))) start out.old }
    ensures { Emits wet (shown report from.at (item_edits (id_row ids (words - ids) limit) (left from file.now)))
        out.old start out.new result }
{
    let end = from.end;
    let size = 4 * words;
    let mut p = from.at;
    let mut at = start;
    loop {
        let kept = kept_bytes(file, Cursor { at: p, end }, words, ids, limit);
        at = b3d_mend_write_edits::put_kept(file, p, kept, report, wet, out, at);
        p += kept;
        if end - p < size {
            return at;
        }
        at = b3d_mend_write_edits::put_taken(file, p, size, 3, report, wet, out, at);
        p += size;
    }
}

// Puts the body of a BONE without the weights that name none of `vertices` vertices.
pub fn put_bone(
    file: &[u8],
    body: Cursor,
    vertices: usize,
    report: bool,
    wet: bool,
    out: &mut [u8],
    at: usize,
) -> usize
    requires inside { Inside body (length file.now) × (length file.now < 4294967296) × AllBytes file.now }
    requires room_from { RoomFrom wet (shown report body.at (bone_edits vertices (left body file.now))) at out.old }
    ensures { Emits wet (shown report body.at (bone_edits vertices (left body file.now))) out.old at out.new result }
{
    put_items(file, body, 2, 1, vertices, report, wet, out, at)
}

// Puts the body of a TRIS: its brush id, set to -1 where it names none of `brushes` brushes, and its triangles without those that name none of
// `vertices` vertices. Nothing where the brush id is cut.
pub fn put_tris(
    file: &[u8],
    body: Cursor,
    brushes: usize,
    vertices: usize,
    report: bool,
    wet: bool,
    out: &mut [u8],
    at: usize,
) -> usize
    requires inside { Inside body (length file.now) × (length file.now < 4294967296) × AllBytes file.now }
    requires room_from { RoomFrom wet (shown report body.at (tris_edits brushes vertices (left body file.now))) at out.old }
    ensures { Emits wet (shown report body.at (tris_edits brushes vertices (left body file.now))) out.old at
        out.new result }
{
    let from = body.at;
    let end = body.end;
    if end - from < 4 {
        return at;
    }
    let next = put_id(file, from, brushes, report, wet, out, at);
    let items = Cursor { at: from + 4, end };
    put_items(file, items, 3, 3, vertices, report, wet, out, next)
}
