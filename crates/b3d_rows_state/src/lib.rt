// The rows of any table of a file one after the other, with a state of plain numbers that C can hold too: `start` gives the state before the first row, `next`
// a row and the state behind it. They ask nothing of the caller: with any bytes, state and row they end, and a state that cannot be gone on with is refused.
#![tactic(auto)]

ghost use Rattle.std.specs.Prelude.{◌≡◌};
ghost use Rattle.b3d_rows_valid_items.specs.Decides.{Decides};
ghost use Rattle.b3d_rows_state.specs.States.{state_of, no_state, CursorOf, CanGoOn, StateStarts, GivenIs, StateNexts};

use b3d_rows_nodes::{NextCursor, OpenNodes, RowCursor};
use b3d_rows_open_items::OpenItems;
use b3d_rows_positions::Position;
use b3d_spec::{Counts, LEVELS, VERTEX_WIDTH};
use layout::{FEWEST_BYTES, MOST_BYTES, refusals};
use wire::Cursor;

// A state: a cursor over the rows of a `table` (`b3d_rows_nodes::RowCursor`) as numbers. The flat run of chunks goes on at `at`; from `inner_at` to `inner_end`
// are the chunks of the open MESH that are to come, from `items_at` to `items_end` the items of the open chunk, of `item_words` words each by the three numbers
// before; `nodes` to `keys` are rows that came before; `depth` nodes are open, with their ends and their row numbers.
#[repr(C)]
#[derive(Clone, Copy)]
pub struct RowState {
    pub table: u32,
    pub item_flags: u32,
    pub item_sets: u32,
    pub item_size: u32,
    pub item_words: usize,
    pub items_at: usize,
    pub items_end: usize,
    pub inner_at: usize,
    pub inner_end: usize,
    pub at: usize,
    pub nodes: usize,
    pub meshes: usize,
    pub vertices: usize,
    pub sets: usize,
    pub triangles: usize,
    pub weights: usize,
    pub lists: usize,
    pub keys: usize,
    pub depth: usize,
    pub open_ends: [usize; LEVELS],
    pub open_nodes: [u32; LEVELS],
}

// What `next` answers: 0 at place 0, and `rows`, which is 1 where a row was written and 0 where none is left; or a refusal with its place; and the state for
// the next call.
#[repr(C)]
#[derive(Clone, Copy)]
pub struct RowGiven {
    pub number: u32,
    pub place: u32,
    pub rows: u32,
    pub state: RowState,
}

// Returns the cursor that the state `t` is.
fn cursor_of(t: RowState) -> RowCursor
    ensures { CursorOf t result }
{
    let ends = t.open_ends;
    let nodes = t.open_nodes;
    RowCursor {
        position: Position {
            at: t.at,
            inner: Cursor {
                at: t.inner_at,
                end: t.inner_end,
            },
            items: OpenItems {
                rest: Cursor {
                    at: t.items_at,
                    end: t.items_end,
                },
                words: t.item_words,
                flags: t.item_flags,
                sets: t.item_sets,
                size: t.item_size,
            },
            counts: Counts {
                nodes: t.nodes,
                meshes: t.meshes,
                vertices: t.vertices,
                sets: t.sets,
                triangles: t.triangles,
                weights: t.weights,
                lists: t.lists,
                keys: t.keys,
            },
        },
        path: OpenNodes {
            depth: t.depth,
            ends,
            nodes,
        },
    }
}

// Returns the cursor `x` over the rows of table `k` as a state.
fn state_of(k: u32, x: RowCursor) -> RowState
    ensures { result ≡ state_of k x }
{
    let position = x.position;
    let path = x.path;
    let inner = position.inner;
    let items = position.items;
    let rest = items.rest;
    let counts = position.counts;
    let open_ends = path.ends;
    let open_nodes = path.nodes;
    RowState {
        table: k,
        item_flags: items.flags,
        item_sets: items.sets,
        item_size: items.size,
        item_words: items.words,
        items_at: rest.at,
        items_end: rest.end,
        inner_at: inner.at,
        inner_end: inner.end,
        at: position.at,
        nodes: counts.nodes,
        meshes: counts.meshes,
        vertices: counts.vertices,
        sets: counts.sets,
        triangles: counts.triangles,
        weights: counts.weights,
        lists: counts.lists,
        keys: counts.keys,
        depth: path.depth,
        open_ends,
        open_nodes,
    }
}

// Returns the state of no table, whose numbers are all 0: no row comes from it.
fn no_state() -> RowState
    ensures { result ≡ no_state }
{
    RowState {
        table: 0,
        item_flags: 0,
        item_sets: 0,
        item_size: 0,
        item_words: 0,
        items_at: 0,
        items_end: 0,
        inner_at: 0,
        inner_end: 0,
        at: 0,
        nodes: 0,
        meshes: 0,
        vertices: 0,
        sets: 0,
        triangles: 0,
        weights: 0,
        lists: 0,
        keys: 0,
        depth: 0,
        open_ends: [0; LEVELS],
        open_nodes: [0; LEVELS],
    }
}

// Returns the state before the first row of a `table` of `file`; the state of no table where `table` is not 1 to 10 or `file` has not 12 to 16,777,216 bytes.
pub fn start(file: &[u8], table: u32) -> RowState
    ensures { StateStarts table file.now result }
{
    if table < 1 {
        return no_state();
    }
    if 10 < table {
        return no_state();
    }
    if file.len() < FEWEST_BYTES {
        return no_state();
    }
    if MOST_BYTES < file.len() {
        return no_state();
    }
    let x = b3d_rows::begin(file, table);
    state_of(table, x)
}

// Returns whether `t` is a state that can be gone on with over `file`.
fn can_go_on(file: &[u8], t: RowState) -> bool
    ensures { Decides (CanGoOn file.now t) result }
{
    if t.table < 1 {
        return false;
    }
    if 10 < t.table {
        return false;
    }
    if MOST_BYTES < file.len() {
        return false;
    }
    let x = cursor_of(t);
    b3d_rows_valid::is_cursor(file, t.table, x)
}

// Returns the answer to a caller whose state is `t`, where `n` is the cursor behind a row or tells that none is left.
fn given(t: RowState, n: NextCursor) -> RowGiven
    ensures { GivenIs t n result }
{
    if !n.given {
        return RowGiven {
            number: 0,
            place: 0,
            rows: 0,
            state: t,
        };
    }
    let y = n.cursor;
    let state = state_of(t.table, y);
    RowGiven {
        number: 0,
        place: 0,
        rows: 1,
        state,
    }
}

// Writes the next row from the state `t` on into the start of `row`, and returns that it did and the state behind it. The cells behind the row stay. Where no
// row is left, `row` and `t` stay. Refuses with 11 at place 42 where `row` has fewer than 42 words; then with 15 at place 0 where `t` cannot be gone on with.
pub fn next(file: &[u8], t: RowState, row: &mut [u32]) -> RowGiven
    ensures { StateNexts file.now t row.old row.new result }
{
    if row.len() < VERTEX_WIDTH {
        return RowGiven {
            number: refusals::TOO_SHORT,
            place: 42,
            rows: 0,
            state: t,
        };
    }
    if !can_go_on(file, t) {
        return RowGiven {
            number: refusals::CLOSED,
            place: 0,
            rows: 0,
            state: t,
        };
    }
    let x = cursor_of(t);
    let n = b3d_rows::next_or_end(file, t.table, x, row);
    given(t, n)
}
