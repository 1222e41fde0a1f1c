// Chunks of the writer whose items are words of a lent table as they are: TRIS, BONE and ANIM; and such a word as a size. Each function is lent the output
// from where its chunks are to stand, returns how many bytes it wrote, and leaves all that comes after as it was; a chunk's header is set when its body is
// written.
#![tactic(auto)]

ghost use Rattle.std.specs.Prelude.{◌≡◌, ◌+◌, ◌*◌, ◌/◌, ◌<◌, ◌≤◌, length, take, drop, get_or};
ghost use Rattle.shared_output.specs.Writing.{Room, Put};
ghost use Rattle.b3d_spec.specs.Tables.{triangle_width, weight_width};
ghost use Rattle.b3d_write_row_runs.specs.Lent.{rows_from};
ghost use Rattle.b3d_write_items.specs.Chunks.{set_bytes, bone_bytes, anim_bytes};

use b3d_spec::{TRIANGLE_WIDTH, WEIGHT_WIDTH, letters};

// Returns word `i` of `table` as a size.
pub fn number(table: &[u32], i: usize) -> usize
    requires { i < length table.now }
    ensures { (result ≡ get_or table.now i 0) × (result < 4294967296) }
{
    table[i] as usize
}

// Writes a TRIS of `brush` and the `count` triangles from row `first` on. Returns its size.
pub fn put_set(brush: u32, triangles: &[u32], first: usize, count: usize, out: &mut [u8]) -> usize
    requires count_in_bounds { first + count ≤ length triangles.now / triangle_width }
    requires room { Room (set_bytes brush (rows_from triangle_width triangles.now first count)) out.old }
    ensures { Put (set_bytes brush (rows_from triangle_width triangles.now first count)) out.old out.new result }
{
    let n = shared_output::put_words(
        triangles,
        TRIANGLE_WIDTH * first,
        TRIANGLE_WIDTH * count,
        &mut out[12..],
    );
    shared_output::put_opening(out, letters::TRIS, n, brush);
    n + 12
}

// Writes a BONE of the `count` weights from row `first` on. Returns its size.
pub fn put_weights(weights: &[u32], first: usize, count: usize, out: &mut [u8]) -> usize
    requires count_in_bounds { first + count ≤ length weights.now / weight_width }
    requires room { Room (bone_bytes (rows_from weight_width weights.now first count)) out.old }
    ensures { Put (bone_bytes (rows_from weight_width weights.now first count)) out.old out.new result }
{
    let n = shared_output::put_words(
        weights,
        WEIGHT_WIDTH * first,
        WEIGHT_WIDTH * count,
        &mut out[8..],
    );
    shared_output::put_header(out, letters::BONE, n);
    n + 8
}

// Writes an ANIM of the three words of `nodes` from word `first` on. Returns its size.
pub fn put_values(nodes: &[u32], first: usize, out: &mut [u8]) -> usize
    requires first_in_bounds { first + 3 ≤ length nodes.now }
    requires room { Room (anim_bytes (take 3 (drop first nodes.now))) out.old }
    ensures { Put (anim_bytes (take 3 (drop first nodes.now))) out.old out.new result }
{
    let n = shared_output::put_words(nodes, first, 3, &mut out[8..]);
    shared_output::put_header(out, letters::ANIM, n);
    n + 8
}
