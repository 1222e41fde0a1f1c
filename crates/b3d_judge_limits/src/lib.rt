// Tests on row counts alone: the first table with more rows than the limit, and the first lent table that is too short for its rows.
#![tactic(auto)]

ghost use Rattle.std.specs.Prelude.{◌≡◌, ltb, [], ◌∷◌};
ghost use Rattle.wire.specs.Test.{if};
ghost use Rattle.b3d_spec.specs.Rules.{row_limit};
ghost use Rattle.b3d_judge_limits.specs.Limits.{over_limit};
ghost use Rattle.b3d_spec.specs.Tables.{width, tables};
ghost use Rattle.shared_room.specs.Rooms.{number_of, first_short};
ghost use Rattle.b3d_judge_limits.specs.Rooms.{counts_in};

use b3d_judge_tally::Tally;
use b3d_spec::{
    BRUSH_WIDTH, KEY_LIST_WIDTH, KEY_WIDTH, MESH_WIDTH, NODE_WIDTH, TEXTURE_WIDTH,
    TRIANGLE_SET_WIDTH, TRIANGLE_WIDTH, VERTEX_WIDTH, WEIGHT_WIDTH,
};

// Returns `k` if `rows` is more than the row limit, else `later`.
fn long_table_or(k: usize, rows: usize, later: usize) -> usize
    ensures { result ≡ if (ltb row_limit rows) k later }
{
    if b3d_spec::ROW_LIMIT < rows {
        return k;
    }
    later
}

// Returns the number of the first table of `t` with more rows than the limit, or 0 where there is none.
pub fn over_limit(t: Tally) -> usize
    ensures { result ≡ over_limit t }
{
    let from9 = long_table_or(9, t.lists, long_table_or(10, t.keys, 0));
    let from7 = long_table_or(7, t.triangles, long_table_or(8, t.weights, from9));
    let from5 = long_table_or(5, t.vertices, long_table_or(6, t.sets, from7));
    let from3 = long_table_or(3, t.nodes, long_table_or(4, t.meshes, from5));
    long_table_or(1, t.textures, long_table_or(2, t.brushes, from3))
}

// Returns the number of the first of ten tables, of `l1` to `l10` words, that is too short for its rows in `t`, or 0 where there is none.
pub fn first_short(
    t: Tally,
    l1: usize,
    l2: usize,
    l3: usize,
    l4: usize,
    l5: usize,
    l6: usize,
    l7: usize,
    l8: usize,
    l9: usize,
    l10: usize,
) -> usize
    ensures { result ≡ first_short width (number_of (counts_in t)) (number_of (l1 ∷ l2 ∷ l3 ∷ l4 ∷ l5 ∷ l6 ∷ l7 ∷ l8 ∷ l9 ∷ l10 ∷ [])) tables }
{
    let from10 = shared_room::short_table_or(10, KEY_WIDTH, t.keys, l10, 0);
    let from9 = shared_room::short_table_or(9, KEY_LIST_WIDTH, t.lists, l9, from10);
    let from8 = shared_room::short_table_or(8, WEIGHT_WIDTH, t.weights, l8, from9);
    let from7 = shared_room::short_table_or(7, TRIANGLE_WIDTH, t.triangles, l7, from8);
    let from6 = shared_room::short_table_or(6, TRIANGLE_SET_WIDTH, t.sets, l6, from7);
    let from5 = shared_room::short_table_or(5, VERTEX_WIDTH, t.vertices, l5, from6);
    let from4 = shared_room::short_table_or(4, MESH_WIDTH, t.meshes, l4, from5);
    let from3 = shared_room::short_table_or(3, NODE_WIDTH, t.nodes, l3, from4);
    let from2 = shared_room::short_table_or(2, BRUSH_WIDTH, t.brushes, l2, from3);
    shared_room::short_table_or(1, TEXTURE_WIDTH, t.textures, l1, from2)
}
