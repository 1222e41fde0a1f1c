// Lines of the lister's text, put into an output: numbers, and the names of nodes from the rows of their table.
#![tactic(auto)]

ghost use Rattle.std.specs.Prelude.{[], ◌∷◌, ◌+◌, ◌*◌, ◌≤◌, length, drop};
ghost use Rattle.b3d_spec.specs.Tables.{node_width};
ghost use Rattle.b3d_list_text.specs.Puts.{Puts};
ghost use Rattle.b3d_list_text.specs.Text.{number_line};
ghost use Rattle.b3d_judge_limits.specs.Rooms.{counts_in};
ghost use Rattle.b3d_list_lines.specs.Lines.{row_line, row_lines};

use b3d_judge_tally::Tally;
use b3d_spec::{NODE_WIDTH, columns};

// Stores a line of the numbers `a` and `b` in `out` from `at` on. Returns the place of the next text.
pub fn put_pair(a: usize, b: usize, out: &mut [u8], at: usize) -> usize
    requires { at ≤ length out.old }
    ensures { Puts (number_line (a ∷ b ∷ [])) out.old at out.new result }
{
    let numbers = [a, b];
    b3d_list_text::put_numbers(&numbers, out, at)
}

// Stores the line of the ten row counts of `t` in `out` from `at` on. Returns the place of the next text.
pub fn put_counts(t: Tally, out: &mut [u8], at: usize) -> usize
    requires { at ≤ length out.old }
    ensures { Puts (number_line (counts_in t)) out.old at out.new result }
{
    let numbers = [
        t.textures,
        t.brushes,
        t.nodes,
        t.meshes,
        t.vertices,
        t.sets,
        t.triangles,
        t.weights,
        t.lists,
        t.keys,
    ];
    b3d_list_text::put_numbers(&numbers, out, at)
}

// Stores the line of node `i` in `out` from `at` on: its name, by its row in the table `rows`, or `unnamed`. Returns the place of the next text.
fn put_name(file: &[u8], rows: &[u32], i: usize, out: &mut [u8], at: usize) -> usize
    requires { (node_width * i + 2 ≤ length rows.now) × (at ≤ length out.old) }
    ensures { Puts (row_line file.now (drop (node_width * i) rows.now)) out.old at out.new result }
{
    let cell = NODE_WIDTH * i;
    let place = wire::size(rows[cell]);
    let size = wire::size(rows[cell + columns::NAME_LENGTH]);
    let name = b3d_list_name::name_or(file, b"unnamed", place, size);
    b3d_list_text::put_line(name, out, at)
}

// Stores the lines of the first `nodes` nodes of the table `rows` in `out` from `at` on. Returns the place of the next text.
pub fn put_names(file: &[u8], rows: &[u32], nodes: usize, out: &mut [u8], at: usize) -> usize
    requires { (node_width * nodes ≤ length rows.now) × (at ≤ length out.old) }
    ensures { Puts (row_lines file.now rows.now nodes) out.old at out.new result }
{
    let mut next = at;
    for i in 0..nodes {
        next = put_name(file, rows, i, out, next);
    }
    next
}
