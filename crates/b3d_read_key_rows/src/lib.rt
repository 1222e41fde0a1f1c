// Rows of table 10 from the words of a file: frame, position, scale and rotation of each key, absent parts as zeros.
#![tactic(auto)]

ghost use Rattle.std.specs.Prelude.{◌≡◌, ◌+◌, ◌*◌, ◌≤◌, length, map};
ghost use Rattle.std.proofs.lemmas.List.Edits.{sets as stored};
ghost use Rattle.wire.specs.Cursors.{Inside, left};
ghost use Rattle.layout.specs.Parts.{items_of};
ghost use Rattle.b3d_spec.specs.Mask.{ones, padded, key_mask};
ghost use Rattle.b3d_spec.specs.Tables.{key_width};
ghost use Rattle.layout.specs.Rows.{joined};
ghost use Rattle.b3d_read_key_rows.specs.Keys.{key_at};

use b3d_spec::{KEY_WIDTH, columns};
use wire::Cursor;

// Stores the row of one key in `out` from cell `base` on, from byte `at` of `file`: the frame, `a` words of a position, `b` of a scale, `c` of a rotation;
// absent parts are zeros.
fn store_key(file: &[u8], at: usize, a: usize, b: usize, c: usize, base: usize, out: &mut [u32])
    requires { (a ≤ 3) × (b ≤ 3) × (c ≤ 4) × (at + 4 * (1 + a + b + c) ≤ length file.now) × (base + key_width ≤ length out.old) }
    ensures { out.new ≡ stored out.old base (key_at a b c file.now at) }
{
    b3d_read_row_runs::put_piece(file, at, 1, 0, base, out);
    b3d_read_row_runs::put_three(file, at + 4, a, base + columns::KEY_POSITION, out);
    b3d_read_row_runs::put_three(file, at + 4 + 4 * a, b, base + columns::KEY_SCALE, out);
    b3d_read_row_runs::put_four(
        file,
        at + 4 + 4 * a + 4 * b,
        c,
        base + columns::KEY_ROTATION,
        out,
    );
}

// Stores `count` rows of 11 cells in `out` from cell `base` on, from the keys of `words` words of a KEYS of `flags` that stand at `c`. The other cells stay
// as they were.
pub fn fill_keys(
    file: &[u8],
    c: Cursor,
    flags: u32,
    words: usize,
    count: usize,
    base: usize,
    out: &mut [u32],
)
    requires { Inside c (length file.now) × (words ≡ ones (key_mask flags)) × (words ≤ key_width) × (c.at + count * (4 * words) ≤ c.end)
        × (base + count * key_width ≤ length out.old) }
    ensures { out.new ≡ stored out.old base
        (joined (map (padded (key_mask flags)) (items_of count words (left c file.now)))) }
{
    let position = wire::size(flags % 2 * 3);
    let scale = wire::size(flags / 2 % 2 * 3);
    let turn = wire::size(flags / 4 % 2 * 4);
    for i in 0..count {
        let at = c.at + i * (4 * words);
        store_key(file, at, position, scale, turn, base + i * KEY_WIDTH, out);
    }
}
