// Whether the cells of lent vertices and keys that flags, sets and set size leave out are 0. A row is looked at by groups of cells, each in a loop of a
// constant count that no cell ends early. Keys and vertices have each their own functions down to the group, so that the compiler knows every count.
#![tactic(auto)]

ghost use Rattle.std.specs.Prelude.{◌≡◌, ◌+◌, ◌*◌, ◌≤◌, length};
ghost use Rattle.layout.specs.WellFormed.{all};
ghost use Rattle.b3d_spec.specs.Mask.{vertex_mask, key_mask};
ghost use Rattle.b3d_spec.specs.Tables.{vertex_width, key_width};
ghost use Rattle.b3d_spec.specs.Rules.{largest_set};
ghost use Rattle.b3d_check_spec.specs.Check.{clean};
ghost use Rattle.b3d_rule_row_masks.specs.Runs.{run_mask, width, Short, OfKey, OfVertex};
ghost use Rattle.b3d_check_rows.specs.Rows.{rows_at};
ghost use Rattle.b3d_check_absent_words.specs.Zeros.{zeros_at, sets_clean, row_clean};

use b3d_rule_row_masks::RowRuns;
use b3d_spec::{KEY_WIDTH, VERTEX_WIDTH};

// Returns whether the `n` words of `t` from word `at` on are 0.
fn zeros(t: &[u32], at: usize, n: usize) -> bool
    requires { at + n ≤ length t.now }
    ensures { result ≡ zeros_at n t.now at }
{
    let mut ok = true;
    for i in 0..n {
        ok = ok & (t[at + i] == 0);
    }
    ok
}

// Returns whether the `n` words of `t` from word `at` on are 0, `n` being at most four.
fn few_zeros(t: &[u32], at: usize, n: usize) -> bool
    requires { (n ≤ 4) × (at + n ≤ length t.now) }
    ensures { result ≡ zeros_at n t.now at }
{
    match n {
        0 => zeros(t, at, 0),
        1 => zeros(t, at, 1),
        2 => zeros(t, at, 2),
        3 => zeros(t, at, 3),
        _ => zeros(t, at, 4),
    }
}

// Returns whether the `n` words of `t` from word `at` on are 0; most often `n` is 0 or `MOST`, a constant, so that the compiler knows the count.
fn full_zeros<const MOST: usize>(t: &[u32], at: usize, n: usize) -> bool
    requires { at + n ≤ length t.now }
    ensures { result ≡ zeros_at n t.now at }
{
    if n == 0 {
        return zeros(t, at, 0);
    }
    if n == MOST {
        return zeros(t, at, MOST);
    }
    zeros(t, at, n)
}

// Returns whether in each of `sets` sets of four words, from word `at` on, all words but the first `size` are 0.
fn sets_clean(t: &[u32], at: usize, sets: usize, size: usize) -> bool
    requires { (size ≤ largest_set) × (at + sets * 4 ≤ length t.now) }
    ensures { result ≡ sets_clean sets size t.now at }
{
    let mut ok = true;
    for i in 0..sets {
        ok = ok & few_zeros(t, at + 4 * i + size, 4 - size);
    }
    ok
}

// Returns whether the cells that the groups `g` leave out of the key row at word `base` are 0.
fn key_clean(g: RowRuns, t: &[u32], base: usize) -> bool
    requires { Short g × OfKey g × (base + key_width ≤ length t.now) }
    ensures { result ≡ row_clean g t.now base }
{
    let p = base + 1;
    let q = p + 3;
    let s = q + 3;
    let a = full_zeros::<3>(t, p + g.three, 3 - g.three);
    let b = full_zeros::<3>(t, q + g.some, 3 - g.some);
    let c = full_zeros::<4>(t, s + g.size, 4 - g.size);
    a & (b & c)
}

// Returns whether the cells that the groups `g` leave out of the vertex row at word `base` are 0.
fn vertex_clean(g: RowRuns, t: &[u32], base: usize) -> bool
    requires { Short g × OfVertex g × (base + vertex_width ≤ length t.now) }
    ensures { result ≡ row_clean g t.now base }
{
    let p = base + 3;
    let q = p + 3;
    let s = q + 4;
    let e = s + g.sets * 4;
    let a = full_zeros::<3>(t, p + g.three, 3 - g.three);
    let b = full_zeros::<4>(t, q + g.some, 4 - g.some);
    let c = sets_clean(t, s, g.sets, g.size);
    let d = full_zeros::<32>(t, e, g.rest);
    a & (b & (c & d))
}

// Returns whether the cells that the groups `g` leave out of `count` key rows from row `first` on are 0.
fn keys_clean(g: RowRuns, t: &[u32], first: usize, count: usize) -> bool
    requires { Short g × OfKey g × (width g ≡ key_width) × (key_width * (first + count) ≤ length t.now) }
    ensures { result ≡ all (clean (run_mask g)) (rows_at key_width first count t.now) }
{
    for i in first..first + count {
        if !key_clean(g, t, KEY_WIDTH * i) {
            return false;
        }
    }
    true
}

// Returns whether the cells that the groups `g` leave out of `count` vertex rows from row `first` on are 0.
fn vertices_clean(g: RowRuns, t: &[u32], first: usize, count: usize) -> bool
    requires { Short g × OfVertex g × (width g ≡ vertex_width) × (vertex_width * (first + count) ≤ length t.now) }
    ensures { result ≡ all (clean (run_mask g)) (rows_at vertex_width first count t.now) }
{
    for i in first..first + count {
        if !vertex_clean(g, t, VERTEX_WIDTH * i) {
            return false;
        }
    }
    true
}

// Returns whether the cells that `flags`, `sets` and set `size` leave out of `count` vertex rows from row `first` on are 0.
pub fn vertices_valid(
    t: &[u32],
    flags: u32,
    sets: u32,
    size: u32,
    first: usize,
    count: usize,
) -> bool
    requires { vertex_width * (first + count) ≤ length t.now }
    ensures { result ≡ all (clean (vertex_mask flags sets size)) (rows_at vertex_width first count t.now) }
{
    let g = b3d_rule_row_masks::vertex_runs(flags, sets, size);
    vertices_clean(g, t, first, count)
}

// Returns whether the cells that `flags` leave out of `count` key rows from row `first` on are 0.
pub fn keys_valid(t: &[u32], flags: u32, first: usize, count: usize) -> bool
    requires { key_width * (first + count) ≤ length t.now }
    ensures { result ≡ all (clean (key_mask flags)) (rows_at key_width first count t.now) }
{
    let g = b3d_rule_row_masks::key_runs(flags);
    keys_clean(g, t, first, count)
}
