// Finds the first lent table that is too short for its rows (refusal 11).
#![tactic(auto)]

ghost use Rattle.std.specs.Prelude.{◌≡◌, ◌*◌, ◌<◌, ltb};
ghost use Rattle.wire.specs.Test.{if};

// Returns `k` if `rows` rows of `width` words do not fit in `room` words, else `later`.
pub fn short_table_or(k: usize, width: usize, rows: usize, room: usize, later: usize) -> usize
    requires { 0 < width }
    ensures { result ≡ if (ltb room (width * rows)) k later }
{
    if room / width < rows {
        return k;
    }
    later
}
