// Whether rows that own groups of items, key lists and triangle sets, are sound in lent tables, and where their items end. Each function is a test of
// b3d_check_spec's specs/Check, or a count of rows, on rows that are given by their number.
#![tactic(auto)]

ghost use Rattle.std.specs.Prelude.{◌≡◌, ◌+◌, ◌-◌, ◌*◌, ◌≤◌, length};
ghost use Rattle.b3d_spec.specs.Tables.{triangle_set_width, triangle_width, key_list_width, key_width};
ghost use Rattle.b3d_check_spec.specs.CellCounts.{end_of};
ghost use Rattle.b3d_check_spec.specs.Check.{groups_valid, set_valid, key_list_valid};
ghost use Rattle.b3d_check_rows.specs.Rows.{row_at, rows_at};
ghost use Rattle.b3d_check_row_runs.specs.Items.{run_width, run_test};
ghost use Rattle.b3d_check_row_runs.specs.Mine.{MineTo};

use b3d_check_rows::Ids;
use b3d_spec::{HIGHEST_KEY_FLAGS, KEY_LIST_WIDTH, TRIANGLE_SET_WIDTH, columns};

// Which rows own groups of items: key lists, whose items are keys; or the triangle sets of a mesh, given by the number of brushes, the mesh's vertices and
// its number.
#[derive(Clone, Copy)]
pub enum Run {
    Keys,
    Triangles(u32, u32, usize),
}

// Returns whether row `i` of table 9, `t`, has flags in their range and the cells that they leave out of its `count` keys from row `first` on are 0.
fn key_list_valid(t: &[u32], i: usize, keys: &[u32], first: usize, count: usize) -> bool
    requires { (key_list_width * i + key_list_width ≤ length t.now) × (key_width * (first + count) ≤ length keys.now) }
    ensures { result ≡ key_list_valid (row_at key_list_width i t.now) (rows_at key_width first count keys.now) }
{
    let flags = t[KEY_LIST_WIDTH * i + columns::KEY_LIST_FLAGS];
    if !(flags <= HIGHEST_KEY_FLAGS) {
        return false;
    }
    b3d_check_absent_words::keys_valid(keys, flags, first, count)
}

// Returns whether row `i` of table 6, `t`, belongs to mesh `mesh` and has a brush that is NONE or below `brushes`, and its `count` triangles from row `first`
// on name vertices below `v`.
fn set_valid(
    brushes: u32,
    v: u32,
    mesh: usize,
    t: &[u32],
    i: usize,
    triangles: &[u32],
    first: usize,
    count: usize,
) -> bool
    requires { (triangle_set_width * i + triangle_set_width ≤ length t.now) × (triangle_width * (first + count) ≤ length triangles.now) }
    ensures { result ≡ set_valid brushes v mesh (row_at triangle_set_width i t.now) (rows_at triangle_width first count triangles.now) }
{
    let o = TRIANGLE_SET_WIDTH * i;
    let own = b3d_check_rows::cell(t, o);
    let brush = t[o + columns::TRIANGLE_SET_BRUSH];
    if !(own == mesh) {
        return false;
    }
    if !((brush == 0xFFFFFFFF) | (brush < brushes)) {
        return false;
    }
    b3d_check_rows::id_rows_valid(Ids::Triangles, triangles, v, first, count)
}

// Returns whether row `i` of `t`, a key list or a triangle set as `run` says, is sound with its `count` items from row `first` on.
fn group_valid(run: Run, t: &[u32], i: usize, items: &[u32], first: usize, count: usize) -> bool
    requires { (4 * i + 4 ≤ length t.now) × (run_width run * (first + count) ≤ length items.now) }
    ensures { result ≡ run_test run (row_at 4 i t.now) (rows_at (run_width run) first count items.now) }
{
    match run {
        Run::Keys => key_list_valid(t, i, items, first, count),
        Run::Triangles(brushes, v, mesh) => set_valid(brushes, v, mesh, t, i, items, first, count),
    }
}

// Returns whether the `count` rows of `t` from row `first` on are sound: their groups of items follow each other from number `from` on, none passes `total`,
// and each row is sound with its items.
pub fn groups_valid(
    run: Run,
    t: &[u32],
    first: usize,
    count: usize,
    items: &[u32],
    from: usize,
    total: usize,
) -> bool
    requires { (4 * (first + count) ≤ length t.now) × (from ≤ total) × (run_width run * total ≤ length items.now) }
    ensures { result ≡ groups_valid (run_test run) from (rows_at 4 first count t.now)
        (rows_at (run_width run) from (total - from) items.now) }
{
    let mut r = from;
    for i in first..first + count {
        let to = b3d_check_rows::cell(t, 4 * i + columns::GROUP_FIRST);
        let many = b3d_check_rows::cell(t, 4 * i + columns::GROUP_COUNT);
        if !(to == r) {
            return false;
        }
        if total - r < many {
            return false;
        }
        if !group_valid(run, t, i, items, r, many) {
            return false;
        }
        r += many;
    }
    true
}

// Returns the number behind the last key list of `node`, of the rows from `first` up to `total` that follow each other; `first` if that row is not its own.
pub fn lists_of(node: usize, t: &[u32], first: usize, total: usize) -> usize
    requires { (first ≤ total) × (key_list_width * total ≤ length t.now) }
    ensures { MineTo node first total t.now result }
{
    for i in first..total {
        let own = b3d_check_rows::cell(t, KEY_LIST_WIDTH * i);
        if !(own == node) {
            return i;
        }
    }
    total
}

// Returns the number behind the last item of the `count` rows from row `first` on, the first item being number `from`.
pub fn end_of(t: &[u32], first: usize, count: usize, from: usize) -> usize
    requires { (4 * (first + count) ≤ length t.now) × (end_of from (rows_at 4 first count t.now) ≤ 0xFFFFFFFF) }
    ensures { result ≡ end_of from (rows_at 4 first count t.now) }
{
    let mut r = from;
    for i in first..first + count {
        let many = b3d_check_rows::cell(t, 4 * i + columns::GROUP_COUNT);
        r += many;
    }
    r
}
