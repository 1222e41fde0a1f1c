// The one check of ids, with or without leave to be absent: of one id, and of several in a row.
#![tactic(auto)]

ghost use Rattle.std.specs.Prelude.{◌≡◌, ◌+◌, ◌*◌, ◌≤◌, length};
ghost use Rattle.wire.specs.Cursors.{Inside, left};
ghost use Rattle.layout.specs.Parts.{words_of};
ghost use Rattle.layout.specs.Rules.{holds};
ghost use Rattle.shared_ids.specs.Ids.{id_rule, first_bad};

use wire::Cursor;

// Returns whether `id` names one of `limit` entries, which count from 0; -1 too if `absent` is set.
pub fn id_valid(id: u32, limit: usize, absent: bool) -> bool
    ensures { result ≡ holds (id_rule absent limit) id }
{
    if wire::size(id) < limit {
        return true;
    }
    if absent {
        return id == 0xFFFFFFFF;
    }
    false
}

// Returns how many of the first `n` words that `c` has left are right ids before the first that is not: they are below `limit`, or -1 if `absent` is set.
// Returns `n` if all are.
pub fn first_invalid(s: &[u8], c: Cursor, n: usize, limit: usize, absent: bool) -> usize
    requires { Inside c (length s.now) × (c.at + 4 * n ≤ c.end) × (n ≤ 64) }
    ensures { (result ≡ first_bad (id_rule absent limit) (words_of n (left c s.now))) × (result ≤ n) }
{
    let start = c.at;
    for i in 0..n {
        let id = wire::number_at(s, start + 4 * i);
        if !id_valid(id, limit, absent) {
            return i;
        }
    }
    n
}
