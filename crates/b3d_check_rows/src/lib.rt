// Whether names, triangles and weights of lent tables keep their rules. Each function is a test of b3d_check_spec's specs/Check on rows that are given by their
// number.
#![tactic(auto)]

ghost use Rattle.std.specs.Prelude.{◌≡◌, [], ◌∷◌, ◌+◌, ◌*◌, ◌<◌, ◌≤◌, length, get_or, take, drop, ltb};
ghost use Rattle.layout.specs.WellFormed.{all};
ghost use Rattle.b3d_spec.specs.Rules.{triangle_row, weight_row};
ghost use Rattle.b3d_spec.specs.Tables.{triangle_width, weight_width};
ghost use Rattle.b3d_check_spec.specs.Check.{keeps, name_valid};
ghost use Rattle.b3d_check_rows.specs.IdRows.{id_width, id_row};
ghost use Rattle.b3d_check_rows.specs.Rows.{row_at, rows_at};

use b3d_spec::{TRIANGLE_WIDTH, WEIGHT_WIDTH};

// Returns cell `at` of the table `t` as a number.
pub fn cell(t: &[u32], at: usize) -> usize
    requires { at < length t.now }
    ensures { result ≡ get_or t.now at 0 }
{
    wire::size(t[at])
}

// ---- names

// Returns whether none of the `count` bytes of `names` from `place` on is zero.
fn text_valid(names: &[u8], place: usize, count: usize) -> bool
    requires { place + count ≤ length names.now }
    ensures { result ≡ all (λ b. ltb 0 b) (take count (drop place names.now)) }
{
    names[place..place + count].iter().all(|b| 0 < *b)
}

// Returns whether the name of `count` bytes at `place` lies in `names`, with no zero inside.
pub fn name_valid(names: &[u8], place: u32, count: u32) -> bool
    ensures { result ≡ name_valid names.now (place ∷ count ∷ []) }
{
    let from = wire::size(place);
    let many = wire::size(count);
    if names.len() < from + many {
        return false;
    }
    text_valid(names, from, many)
}

// ---- ids

// Which rows name vertices.
#[derive(Clone, Copy)]
pub enum Ids {
    Triangles,
    Weights,
}

// Returns whether row `i` of table 7, `t`, names three vertices below `v`.
fn triangle_valid(t: &[u32], v: u32, i: usize) -> bool
    requires { triangle_width * i + triangle_width ≤ length t.now }
    ensures { result ≡ keeps (triangle_row v) (row_at triangle_width i t.now) }
{
    let o = TRIANGLE_WIDTH * i;
    (t[o] < v) & ((t[o + 1] < v) & (t[o + 2] < v))
}

// Returns whether row `i` of table 8, `t`, names a vertex below `bones`.
fn weight_valid(t: &[u32], bones: u32, i: usize) -> bool
    requires { weight_width * i + weight_width ≤ length t.now }
    ensures { result ≡ keeps (weight_row bones) (row_at weight_width i t.now) }
{
    t[WEIGHT_WIDTH * i] < bones
}

// Returns whether row `i` of `t`, a triangle or a weight as `ids` says, names vertices below `v`.
fn id_row_valid(ids: Ids, t: &[u32], v: u32, i: usize) -> bool
    requires { id_width ids * i + id_width ids ≤ length t.now }
    ensures { result ≡ keeps (id_row ids v) (row_at (id_width ids) i t.now) }
{
    match ids {
        Ids::Triangles => triangle_valid(t, v, i),
        Ids::Weights => weight_valid(t, v, i),
    }
}

// Returns whether each of the `count` rows of `t` from row `first` on, triangles or weights as `ids` says, names vertices below `v`.
pub fn id_rows_valid(ids: Ids, t: &[u32], v: u32, first: usize, count: usize) -> bool
    requires { id_width ids * (first + count) ≤ length t.now }
    ensures { result ≡ all (keeps (id_row ids v)) (rows_at (id_width ids) first count t.now) }
{
    for i in first..first + count {
        if !id_row_valid(ids, t, v, i) {
            return false;
        }
    }
    true
}
