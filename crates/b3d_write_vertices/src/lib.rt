// Rows of vertices written as the vertices of a VRTS, group by group, into a lent output.
#![tactic(auto)]

ghost use Rattle.std.specs.Prelude.{◌≡◌, [], map, ◌+◌, ◌*◌, ◌/◌, ◌<◌, ◌≤◌, length, take, drop};
ghost use Rattle.layout.specs.Write.{write_words, write_items};
ghost use Rattle.shared_output.specs.Writing.{Room, Put};
ghost use Rattle.b3d_spec.specs.Mask.{present_words, vertex_mask};
ghost use Rattle.b3d_spec.specs.Tables.{vertex_width};
ghost use Rattle.b3d_spec.specs.Rules.{largest_set};
ghost use Rattle.b3d_rule_row_masks.specs.Runs.{Short, OfVertex};
ghost use Rattle.b3d_write_row_runs.specs.Lent.{rows_from};
ghost use Rattle.b3d_write_row_runs.specs.RowBytes.{sets_bytes, back_bytes, row_bytes};

use b3d_rule_row_masks::RowRuns;
use b3d_spec::VERTEX_WIDTH;

// Writes the `n` words of `words` from word `first` on, at most four. Returns the size.
fn put_few(words: &[u32], first: usize, n: usize, out: &mut [u8]) -> usize
    requires n_bound { (n ≤ 4) × (first + n ≤ length words.now) }
    requires room { Room (write_words (take n (drop first words.now)) []) out.old }
    ensures { Put (write_words (take n (drop first words.now)) []) out.old out.new result }
{
    match n {
        0 => shared_output::put_words(words, first, 0, out),
        1 => shared_output::put_words(words, first, 1, out),
        2 => shared_output::put_words(words, first, 2, out),
        3 => shared_output::put_words(words, first, 3, out),
        _ => shared_output::put_words(words, first, 4, out),
    }
}

// Writes of each of `sets` sets of four cells, from word `first` on, the first `size` words. Returns the size.
fn put_sets(words: &[u32], first: usize, sets: usize, size: usize, out: &mut [u8]) -> usize
    requires size_le_largest_set { (size ≤ largest_set) × (first + sets * 4 ≤ length words.now) }
    requires room { Room (sets_bytes sets size words.now first) out.old }
    ensures { Put (sets_bytes sets size words.now first) out.old out.new result }
{
    let mut at: usize = 0;
    for i in 0..sets {
        let n = put_few(words, first + 4 * i, size, &mut out[at..]);
        at += n;
    }
    at
}

// Writes the colour and the sets of a vertex, as the groups `g` have them, from word `base` on. Returns the size.
fn vertex_back(g: RowRuns, words: &[u32], base: usize, out: &mut [u8]) -> usize
    requires short { Short g × (g.wide ≡ 4) × (base + 4 + g.sets * 4 ≤ length words.now) }
    requires room { Room (back_bytes g words.now base) out.old }
    ensures { Put (back_bytes g words.now base) out.old out.new result }
{
    let n = b3d_write_row_runs::put_full(words, base, g.some, 4, out);
    let m = put_sets(words, base + 4, g.sets, g.size, &mut out[n..]);
    n + m
}

// Writes the vertex of the row from word `base` of `words` on, as the groups `g` have it. Returns the size.
fn put_vertex(g: RowRuns, words: &[u32], base: usize, out: &mut [u8]) -> usize
    requires short { Short g × OfVertex g × (base + vertex_width ≤ length words.now) }
    requires room { Room (row_bytes g words.now base) out.old }
    ensures { Put (row_bytes g words.now base) out.old out.new result }
{
    let n = b3d_write_row_runs::put_front(3, g.three, words, base, out);
    let m = vertex_back(g, words, base + 3 + 3, &mut out[n..]);
    n + m
}

// Writes `count` vertices from row `first` of `vertices` on, by `flags`, `sets` and set `size`, to the start of `out`. Returns the size; 0 where `count` is
// 0.
pub fn put_vertex_rows(
    flags: u32,
    sets: u32,
    size: u32,
    vertices: &[u32],
    first: usize,
    count: usize,
    out: &mut [u8],
) -> usize
    requires count_in_bounds { first + count ≤ length vertices.now / vertex_width }
    requires room { Room (write_items write_words (map (present_words (vertex_mask flags sets size)) (rows_from vertex_width vertices.now first count))) out.old }
    ensures { Put (write_items write_words (map (present_words (vertex_mask flags sets size)) (rows_from vertex_width vertices.now first count)))
        out.old out.new result }
{
    let g = b3d_rule_row_masks::vertex_runs(flags, sets, size);
    let mut at: usize = 0;
    for i in 0..count {
        let n = put_vertex(g, vertices, VERTEX_WIDTH * (first + i), &mut out[at..]);
        at += n;
    }
    at
}
