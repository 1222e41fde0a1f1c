// How often each bone is listed, and by whom, as a score: one for an entry of its parent, two for any other.
#![tactic(auto)]

ghost use Rattle.std.specs.Prelude.{◌≡◌, ◌+◌, ◌*◌, ◌<◌, ◌≤◌, length, drop, get_or, set};
ghost use Rattle.layout.specs.Parts.{words_of};
ghost use Rattle.cal3d_skeleton_tree_check.specs.Scores.{weight, noted, Low, ChildIds};

// Adds to the score of bone `c` that bone `q` lists it: 1 if `q` is its parent, else 2. A bone that its parent alone lists, and once, has 1 in the end.
fn note(parents: &[u32], scores: &mut [u32], q: u32, c: usize)
    requires { (c < length parents.now) × (c < length scores.old) × (get_or scores.old c 0 < 4294967294) }
    ensures { scores.new ≡ set scores.old c (get_or scores.old c 0 + weight q (get_or parents.now c 0)) }
{
    if parents[c] == q {
        scores[c] = scores[c] + 1;
        return;
    }
    scores[c] = scores[c] + 2;
}

// Adds to the scores that bone `q` lists the `count` bones at place `at` of the file. `entries` is how many were listed before: no score is above twice that.
pub fn note_list(
    s: &[u8],
    at: usize,
    count: usize,
    q: u32,
    parents: &[u32],
    entries: usize,
    scores: &mut [u32],
)
    requires count_in_bounds { (at + 4 * count ≤ length s.now) × (entries + count ≤ 1000000000) }
    requires scores_len { (length scores.old ≡ length parents.now) × Low entries scores.old × ChildIds s.now at count (length parents.now) }
    ensures { (scores.new ≡ noted parents.now q scores.old (words_of count (drop at s.now)))
        × Low (entries + count) scores.new }
{
    for i in 0..count {
        note(
            parents,
            scores,
            q,
            wire::size(wire::number_at(s, at + 4 * i)),
        );
    }
}
