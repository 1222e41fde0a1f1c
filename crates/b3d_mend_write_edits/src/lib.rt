// One edit of the file, put into the output or only counted: in the mended file what it becomes, in the report its entry.
#![tactic(auto)]

ghost use Rattle.std.specs.Prelude.{◌+◌, ◌≤◌, ◌<◌, [], ◌∷◌, ◌++◌, length, take, drop};
ghost use Rattle.wire.specs.Bytes.{bytes};
ghost use Rattle.shared_seven_bit_groups.specs.Groups.{write_numbers};
ghost use Rattle.b3d_mend_spec.specs.Edits.{keep, mend};
ghost use Rattle.layout.specs.Rows.{most_bytes};
ghost use Rattle.wire.specs.Cursors.{Inside, left};
ghost use Rattle.shared_put_or_count.specs.Emits.{Emits, RoomFrom};
ghost use Rattle.b3d_mend_write_spec.specs.Shown.{shown};
ghost use Rattle.b3d_mend_write_edits.specs.Rests.{cut_shown};

use wire::Cursor;

// Puts `n` and `m` in groups.
fn put_two(n: u32, m: u32, wet: bool, out: &mut [u8], at: usize) -> usize
    requires { RoomFrom wet (write_numbers (n ∷ m ∷ []) []) at out.old }
    ensures { Emits wet (write_numbers (n ∷ m ∷ []) []) out.old at out.new result }
{
    let next = shared_put_or_count::put_grouped(n, wet, out, at);
    shared_put_or_count::put_grouped(m, wet, out, next)
}

// Puts the numbers of an entry: the place, which of the four, the byte counts before and after.
fn put_entry(
    place: u32,
    which: u32,
    before: u32,
    after: u32,
    wet: bool,
    out: &mut [u8],
    at: usize,
) -> usize
    requires { RoomFrom wet (write_numbers (place ∷ which ∷ before ∷ after ∷ []) []) at out.old }
    ensures { Emits wet (write_numbers (place ∷ which ∷ before ∷ after ∷ []) []) out.old at out.new result }
{
    let next = put_two(place, which, wet, out, at);
    put_two(before, after, wet, out, next)
}

// Puts `count` bytes of the file from `from` on, which stay; in the report nothing.
pub fn put_kept(
    file: &[u8],
    from: usize,
    count: usize,
    report: bool,
    wet: bool,
    out: &mut [u8],
    at: usize,
) -> usize
    requires count_in_bounds { from + count ≤ length file.now }
    requires room_from { RoomFrom wet (shown report from (keep (take count (drop from file.now)) ∷ [])) at out.old }
    ensures { Emits wet (shown report from (keep (take count (drop from file.now)) ∷ [])) out.old at out.new result }
{
    if report {
        return at;
    }
    shared_put_or_count::put_copy(file, from, count, wet, out, at)
}

// Puts nothing for `count` bytes of the file from `from` on, which are taken out; in the report their entry.
pub fn put_taken(
    file: &[u8],
    from: usize,
    count: usize,
    which: u32,
    report: bool,
    wet: bool,
    out: &mut [u8],
    at: usize,
) -> usize
    requires count_in_bounds { (from + count ≤ length file.now) × (length file.now < 4294967296) }
    requires room_from { RoomFrom wet (shown report from (mend which (take count (drop from file.now)) [] ∷ [])) at out.old }
    ensures { Emits wet (shown report from (mend which (take count (drop from file.now)) [] ∷ [])) out.old at
        out.new result }
{
    if report {
        let m = put_entry(from as u32, which, count as u32, 0, wet, out, at);
        return shared_put_or_count::put_copy(file, from, count, wet, out, m);
    }
    at
}

// Puts the number of the file at `from`, then `value`.
fn put_pair(file: &[u8], from: usize, value: u32, wet: bool, out: &mut [u8], at: usize) -> usize
    requires from_in_bounds { from + 4 ≤ length file.now }
    requires room_from { RoomFrom wet (take 4 (drop from file.now) ++ bytes value []) at out.old }
    ensures { Emits wet (take 4 (drop from file.now) ++ bytes value []) out.old at out.new result }
{
    let next = shared_put_or_count::put_copy(file, from, 4, wet, out, at);
    shared_put_or_count::put_word(value, wet, out, next)
}

// Puts `value` in place of the number of the file at `from`; in the report its entry.
pub fn put_set(
    file: &[u8],
    from: usize,
    which: u32,
    value: u32,
    report: bool,
    wet: bool,
    out: &mut [u8],
    at: usize,
) -> usize
    requires from_in_bounds { (from + 4 ≤ length file.now) × (length file.now < 4294967296) }
    requires room_from { RoomFrom wet (shown report from (mend which (take 4 (drop from file.now)) (bytes value []) ∷ [])) at out.old }
    ensures { Emits wet (shown report from (mend which (take 4 (drop from file.now)) (bytes value []) ∷ [])) out.old at
        out.new result }
{
    if report {
        let m = put_entry(from as u32, which, 4, 4, wet, out, at);
        return put_pair(file, from, value, wet, out, m);
    }
    shared_put_or_count::put_word(value, wet, out, at)
}

// Puts all that `c` has left, which stays.
pub fn put_whole(
    file: &[u8],
    c: Cursor,
    report: bool,
    wet: bool,
    out: &mut [u8],
    at: usize,
) -> usize
    requires inside { Inside c (length file.now) }
    requires room_from { RoomFrom wet (shown report c.at (keep (left c file.now) ∷ [])) at out.old }
    ensures { Emits wet (shown report c.at (keep (left c file.now) ∷ [])) out.old at out.new result }
{
    let from = c.at;
    let end = c.end;
    put_kept(file, from, end - from, report, wet, out, at)
}

// Puts what `c` has left where no chunk is: spare bytes are taken out, the bytes of a chunk whose length passes its end stay.
pub fn put_rest(file: &[u8], c: Cursor, report: bool, wet: bool, out: &mut [u8], at: usize) -> usize
    requires inside { Inside c (length file.now) × (length file.now ≤ most_bytes) }
    requires room_from { RoomFrom wet (cut_shown report file.now c) at out.old }
    ensures { Emits wet (cut_shown report file.now c) out.old at out.new result }
{
    let from = c.at;
    let end = c.end;
    if end - from < 8 {
        return put_taken(file, from, end - from, 4, report, wet, out, at);
    }
    put_whole(file, c, report, wet, out, at)
}
