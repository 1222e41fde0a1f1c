// What differs between two rows of one table, one of each file, as entries that are put into a lent output from a place on, or only counted. The twelve
// numbers are the one row of table 0.
#![tactic(auto)]

ghost use Rattle.std.specs.Prelude.{◌≡◌, ◌-◌, ◌<◌, ◌≤◌, [], length};
ghost use Rattle.shared_put_or_count.specs.Emits.{RoomFrom, Emits};
ghost use Rattle.b3d_spec.specs.Tables.{vertex_width};
ghost use Rattle.b3d_compare_spec.specs.Words.{words_of};
ghost use Rattle.b3d_compare_spec.specs.Changes.{word_changes, row_changes};
ghost use Rattle.b3d_compare_spec.specs.List.{list_bytes};
ghost use Rattle.b3d_compare_rows.specs.Rows.{word_entry, NumbersFrom};

use b3d_spec::{
    BRUSH_WIDTH, KEY_LIST_WIDTH, KEY_WIDTH, MESH_WIDTH, NODE_WIDTH, TEXTURE_WIDTH,
    TRIANGLE_SET_WIDTH, TRIANGLE_WIDTH, VERTEX_WIDTH, WEIGHT_WIDTH,
};

// How many words a row of each table has.
const WORDS: [usize; 11] = [
    12,
    TEXTURE_WIDTH,
    BRUSH_WIDTH,
    NODE_WIDTH,
    MESH_WIDTH,
    VERTEX_WIDTH,
    TRIANGLE_SET_WIDTH,
    TRIANGLE_WIDTH,
    WEIGHT_WIDTH,
    KEY_LIST_WIDTH,
    KEY_WIDTH,
];

// Returns how many words a row of table `k` has.
fn words_of(k: usize) -> usize
    requires { k ≤ 10 }
    ensures { (result ≡ words_of k) × (result ≤ vertex_width) }
{
    WORDS[k]
}

// Puts or counts the entry of word `w` of row `r` of table `k`, a number `p` in the file `a` and `q` in `b`, which are not the same, floats where `float`
// says so. Returns the place after it.
fn put_unequal(
    a: &[u8],
    b: &[u8],
    k: u32,
    r: u32,
    w: u32,
    float: bool,
    p: u32,
    q: u32,
    wet: bool,
    out: &mut [u8],
    at: usize,
) -> usize
    requires { (p ≡ q → ⊥) × RoomFrom wet (list_bytes (word_entry k r w p q)) at out.old }
    ensures { Emits wet (list_bytes (word_entry k r w p q)) out.old at out.new result }
{
    let d = b3d_compare_difference::numbers(float, p, q);
    b3d_compare_entries::put_entry(a, b, k, r, w, d, wet, out, at)
}

// Puts or counts the entry of word `w` of row `r` of table `k`, a number `p` in the file `a` and `q` in `b`, floats where `float` says so; none where they are
// the same. Returns the place after it.
pub fn put_pair(
    a: &[u8],
    b: &[u8],
    k: u32,
    r: u32,
    w: u32,
    float: bool,
    p: u32,
    q: u32,
    wet: bool,
    out: &mut [u8],
    at: usize,
) -> usize
    requires { RoomFrom wet (list_bytes (word_entry k r w p q)) at out.old }
    ensures { Emits wet (list_bytes (word_entry k r w p q)) out.old at out.new result }
{
    if p == q {
        return at;
    }
    put_unequal(a, b, k, r, w, float, p, q, wet, out, at)
}

// Puts or counts the entry of word `w` of row `r` of table `k`, a number `p` in the file `a` and `q` in `b`, none where they are the same. Returns the place
// after it.
fn put_word(
    a: &[u8],
    b: &[u8],
    k: usize,
    r: u32,
    w: usize,
    p: u32,
    q: u32,
    wet: bool,
    out: &mut [u8],
    at: usize,
) -> usize
    requires k_bound { k ≤ 10 }
    requires w_bound { w < words_of k }
    requires room_from { RoomFrom wet (list_bytes (word_entry k r w p q)) at out.old }
    ensures { Emits wet (list_bytes (word_entry k r w p q)) out.old at out.new result }
{
    let float = b3d_compare_difference::is_float(k, w);
    put_pair(a, b, k as u32, r, w as u32, float, p, q, wet, out, at)
}

// Puts or counts the entries of the words from `from` on, all of them numbers, of the row `x` of `a` and the row `y` of `b`, row `r` of table `k`. Returns the
// place after them.
fn put_plain(
    a: &[u8],
    b: &[u8],
    x: &[u32],
    y: &[u32],
    k: usize,
    r: u32,
    from: usize,
    wet: bool,
    out: &mut [u8],
    at: usize,
) -> usize
    requires k_bound { k ≤ 10 }
    requires k_in_bounds { words_of k ≤ length x.now }
    requires k_in_bounds_2 { words_of k ≤ length y.now }
    requires numbers_from { NumbersFrom k from }
    requires room_from { RoomFrom wet (list_bytes (word_changes k [] [] r x.now y.now from (words_of k - from))) at out.old }
    ensures { Emits wet (list_bytes (word_changes k [] [] r x.now y.now from (words_of k - from))) out.old at
        out.new result }
{
    let n = words_of(k);
    let mut next = at;
    for w in from..n {
        next = put_word(a, b, k, r, w, x[w], y[w], wet, out, next);
    }
    next
}

// Puts or counts the entries of the row `x` of `a` and the row `y` of `b`, row `r` of table `k`. Returns the place after them.
pub fn put_row(
    a: &[u8],
    b: &[u8],
    x: &[u32],
    y: &[u32],
    k: usize,
    r: u32,
    wet: bool,
    out: &mut [u8],
    at: usize,
) -> usize
    requires k_bound { k ≤ 10 }
    requires k_in_bounds { words_of k ≤ length x.now }
    requires k_in_bounds_2 { words_of k ≤ length y.now }
    requires room_from { RoomFrom wet (list_bytes (row_changes k a.now b.now r x.now y.now)) at out.old }
    ensures { Emits wet (list_bytes (row_changes k a.now b.now r x.now y.now)) out.old at
        out.new result }
{
    if k == 0 {
        return put_plain(a, b, x, y, k, r, 0, wet, out, at);
    }
    if 4 <= k {
        return put_plain(a, b, x, y, k, r, 0, wet, out, at);
    }
    let next = b3d_compare_names::put_name(a, b, x, y, k, r, wet, out, at);
    put_plain(a, b, x, y, k, r, 2, wet, out, next)
}

// Puts or counts the entries of version, n_texs and the ten counts, `x` of the file `a` and `y` of `b`, row 0 of table 0. Returns the place after them.
pub fn put_twelve(
    a: &[u8],
    b: &[u8],
    x: [u32; 12],
    y: [u32; 12],
    wet: bool,
    out: &mut [u8],
    at: usize,
) -> usize
    requires { RoomFrom wet (list_bytes (row_changes 0 a.now b.now 0 x y)) at out.old }
    ensures { Emits wet (list_bytes (row_changes 0 a.now b.now 0 x y)) out.old at out.new result }
{
    put_row(a, b, &x, &y, 0, 0, wet, out, at)
}
