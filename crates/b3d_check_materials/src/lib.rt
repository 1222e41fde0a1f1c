// Whether the textures and brushes of lent tables keep their rules, and whether n_texs does.
#![tactic(auto)]

ghost use Rattle.std.specs.Prelude.{◌≡◌, ◌+◌, ◌*◌, ◌<◌, ◌≤◌, length, take, drop};
ghost use Rattle.layout.specs.WellFormed.{all};
ghost use Rattle.layout.specs.Rules.{holds};
ghost use Rattle.b3d_spec.specs.Rules.{texture_id, most_slots};
ghost use Rattle.b3d_spec.specs.Tables.{texture_width, brush_width};
ghost use Rattle.b3d_check_spec.specs.Check.{name_valid, brush_valid, slots_valid};
ghost use Rattle.b3d_check_rows.specs.Rows.{row_at, rows_at};

use b3d_spec::{BRUSH_WIDTH, MOST_SLOTS, TEXTURE_WIDTH, columns};

// Returns whether each of the first `count` rows of table 1, `t`, has its name in `names`.
pub fn textures_valid(names: &[u8], t: &[u32], count: usize) -> bool
    requires { texture_width * count ≤ length t.now }
    ensures { result ≡ all (name_valid names.now) (rows_at texture_width 0 count t.now) }
{
    for i in 0..count {
        let o = TEXTURE_WIDTH * i;
        if !b3d_check_rows::name_valid(names, t[o], t[o + columns::NAME_LENGTH]) {
            return false;
        }
    }
    true
}

// Returns whether each of the `count` cells of `t` from cell `place` on is NONE or below `textures`.
fn ids_valid(t: &[u32], textures: u32, place: usize, count: usize) -> bool
    requires { place + count ≤ length t.now }
    ensures { result ≡ all (holds (texture_id textures)) (take count (drop place t.now)) }
{
    for i in place..place + count {
        let one = t[i];
        if !((one == 0xFFFFFFFF) | (one < textures)) {
            return false;
        }
    }
    true
}

// Returns whether row `i` of table 2, `t`, is sound: its name is in `names`, its first `slots` ids are NONE or below `textures`, the unused ones NONE.
fn brush_valid(names: &[u8], slots: u32, textures: u32, t: &[u32], i: usize) -> bool
    requires { (slots ≤ most_slots) × (brush_width * i + brush_width ≤ length t.now) }
    ensures { result ≡ brush_valid names.now slots textures (row_at brush_width i t.now) }
{
    let many = wire::size(slots);
    let o = BRUSH_WIDTH * i;
    if !b3d_check_rows::name_valid(names, t[o], t[o + columns::NAME_LENGTH]) {
        return false;
    }
    if !ids_valid(t, textures, o + columns::BRUSH_TEXTURES, many) {
        return false;
    }
    ids_valid(t, 0, o + columns::BRUSH_TEXTURES + many, 8 - many)
}

// Returns whether each of the first `count` rows of table 2, `t`, is sound, with `slots` ids in use and `textures` textures.
pub fn brushes_valid(names: &[u8], slots: u32, textures: u32, t: &[u32], count: usize) -> bool
    requires { (slots ≤ most_slots) × (brush_width * count ≤ length t.now) }
    ensures { result ≡ all (brush_valid names.now slots textures) (rows_at brush_width 0 count t.now) }
{
    for i in 0..count {
        if !brush_valid(names, slots, textures, t, i) {
            return false;
        }
    }
    true
}

// Returns whether n_texs (`slots`) is sound: 0 without a brush, else at most eight.
pub fn slots_valid(slots: u32, brushes: u32) -> bool
    ensures { result ≡ slots_valid slots brushes }
{
    if brushes == 0 {
        return slots == 0;
    }
    slots <= MOST_SLOTS
}
