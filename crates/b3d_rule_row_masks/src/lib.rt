// Which cells of a vertex row and of a key row hold words of the file, as groups of cells. Rows are read, checked and written by these groups, with no test
// for each word.
#![tactic(auto)]

ghost use Rattle.std.specs.Prelude.{◌≡◌};
ghost use Rattle.b3d_rule_row_masks.specs.Runs.{least_of, vertex_runs, key_runs};

// Which cells of a vertex or key row hold words of the file, by groups: all `head` cells; `three` of the next 3; `some` of the next `wide`; `size` of the 4
// cells of each of `sets` sets; none of the last `rest`.
#[derive(Clone, Copy)]
pub struct RowRuns {
    pub head: usize,
    pub three: usize,
    pub wide: usize,
    pub some: usize,
    pub sets: usize,
    pub size: usize,
    pub rest: usize,
}

// Returns the lesser of `n` and `m`.
fn least(m: u32, n: u32) -> usize
    ensures { result ≡ least_of m n }
{
    if n < m {
        return wire::size(n);
    }
    wire::size(m)
}

// Returns the groups of a vertex row for a VRTS of these `flags`, `sets` and set `size`; more than 8 sets count as 8, a size over 4 as 4.
pub fn vertex_runs(flags: u32, sets: u32, size: u32) -> RowRuns
    ensures { result ≡ vertex_runs flags sets size }
{
    let n = least(8, sets);
    RowRuns {
        head: 3,
        three: wire::size(flags % 2 * 3),
        wide: 4,
        some: wire::size(flags / 2 % 2 * 4),
        sets: n,
        size: least(4, size),
        rest: 4 * (8 - n),
    }
}

// Returns the groups of a key row for a KEYS of these `flags`; bits above the lowest three are not looked at.
pub fn key_runs(flags: u32) -> RowRuns
    ensures { result ≡ key_runs flags }
{
    RowRuns {
        head: 1,
        three: wire::size(flags % 2 * 3),
        wide: 3,
        some: wire::size(flags / 2 % 2 * 3),
        sets: 1,
        size: wire::size(flags / 4 % 2 * 4),
        rest: 0,
    }
}
