// Tests of the part that is being read, and the sum of the totals.
ghost use Rattle.std.specs.Prelude.{◌≡◌};
ghost use Rattle.b3d_pieces_spec.specs.Good.{Off, sum, worth as worthOf};
ghost use Rattle.b3d_pieces_spec.specs.Limits.{over_counted};
ghost use Rattle.b3d_pieces_valid_record.specs.Tests.{Tests, Small, RowOff};

use crate::loads::words_valid;
use b3d_pieces_spec::{Kept, MOST_COUNTED, OVER_COUNTED, Part, Totals};

// Returns `x`, or 16,777,218 if it is larger than 16,777,217.
fn cap(x: usize) -> usize
    ensures { Small over_counted x result }
{
    if x <= MOST_COUNTED {
        return x;
    }
    OVER_COUNTED
}

// Returns how many rows `g` counted; right if it is at most 16,777,217, else some number above that.
pub fn sum_of(g: Totals) -> usize
    ensures { Small 167772180 (sum g) result }
{
    let n = g.rows;
    let a = cap(g.textures);
    let b = cap(g.brushes);
    let c = cap(n.nodes);
    let d = cap(n.meshes);
    let e = cap(n.vertices);
    let f = cap(n.sets);
    let h = cap(n.triangles);
    let i = cap(n.weights);
    let k = cap(n.lists);
    let l = cap(n.keys);
    a + b + c + d + e + f + h + i + k + l
}

// Returns the number that the value of `j` bytes of a number is below, `j` at most 3.
pub fn worth(j: usize) -> usize
    ensures { result ≡ worthOf j }
{
    if j == 0 {
        return 1;
    }
    if j == 1 {
        return 256;
    }
    if j == 2 {
        return 65536;
    }
    16777216
}

// Returns whether a number of a row is as the machine leaves it after `size` bytes: it began at `at`, `j` of its bytes came, worth `acc`.
pub fn row_valid(i: usize, j: usize, acc: usize, k: Kept, at: usize, size: usize) -> bool
    ensures { Tests result (RowOff i j acc k at size) }
{
    if size < at {
        return false;
    }
    if size - at != j {
        return false;
    }
    if 3 < j {
        return false;
    }
    if at < i {
        return false;
    }
    if worth(j) <= acc {
        return false;
    }
    words_valid(k)
}

// Returns whether the part `m` at `at` is as the machine leaves it after `size` bytes.
pub fn part_valid(m: Part, at: usize, size: usize) -> bool
    ensures { Tests result (Off m at size) }
{
    match m {
        Part::Text(_, _) => at == size,
        Part::Row(_, _, i, j, acc, k) => row_valid(i, j, acc, k, at, size),
        Part::Skip(_) => at == size,
    }
}
