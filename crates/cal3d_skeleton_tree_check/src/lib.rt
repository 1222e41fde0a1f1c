// Finds the first bone where child lists and parents do not tell the same trees, by the scores that the lists give. One pass over the bones, with a lent row
// of marks, so that no walk is made twice over bones that are known to be right.
#![tactic(auto)]

ghost use Rattle.std.specs.Prelude.{◌≡◌, ◌<◌, ◌≤◌, length};
ghost use Rattle.cal3d_spec.specs.Trees.{ends};
ghost use Rattle.cal3d_skeleton_tree_check.specs.Scores.{wanted, sound, lowest, ParentsValid, Marked, ParentsEnd, Zeros};

// Returns the score that a bone with this `parent` has if it is right: 1, or 0 without a parent.
fn wanted(parent: u32) -> u32
    ensures { result ≡ wanted parent }
{
    if parent == 0xFFFFFFFF {
        return 0;
    }
    1
}

// Returns whether the parents of bone `b` end. Goes up to a marked bone or to one without parent, no further than there are bones.
fn climbs(parents: &[u32], marks: &[u32], b: usize) -> bool
    requires { (b < length parents.now) × ParentsValid parents.now × Marked parents.now marks.now }
    ensures { result ≡ ends parents.now (length parents.now) b }
{
    let mut x = b;
    for _ in 0..parents.len() {
        if marks[x] == 1 {
            return true;
        }
        let p = parents[x];
        if p == 0xFFFFFFFF {
            return true;
        }
        x = wire::size(p);
    }
    false
}

// Marks bone `b`, whose parents end, and its parents, up to one that is marked.
fn mark(parents: &[u32], marks: &mut [u32], b: usize)
    requires b_in_bounds { (b < length parents.now) × ParentsValid parents.now × Marked parents.now marks.old }
    requires parents_end { ParentsEnd parents.now b }
    ensures { Marked parents.now marks.new }
{
    let mut x = b;
    for _ in 0..parents.len() {
        if marks[x] == 1 {
            return;
        }
        marks[x] = 1;
        let p = parents[x];
        if p == 0xFFFFFFFF {
            return;
        }
        x = wire::size(p);
    }
}

// Returns the lowest bone that is not right by its score and its parents; the number of bones if all are. `marks` has a mark for each bone and is changed.
fn first_stray(parents: &[u32], scores: &[u32], marks: &mut [u32]) -> usize
    requires { (length scores.now ≡ length parents.now) × ParentsValid parents.now × Marked parents.now marks.old }
    ensures { result ≡ lowest (sound parents.now scores.now) (length parents.now) 0 }
{
    for b in 0..parents.len() {
        if scores[b] != wanted(parents[b]) {
            return b;
        }
        if !climbs(parents, marks, b) {
            return b;
        }
        mark(parents, marks, b);
    }
    parents.len()
}

// Returns as many zeros as a skeleton may have bones.
pub fn zeros() -> [u32; 16383]
    ensures { (length result ≡ 16383) × Zeros result }
{
    [0; 16383]
}

// Returns the lowest bone that is not right by its score and its parents; the number of bones if all are.
pub fn stray(parents: &[u32], scores: &[u32]) -> usize
    requires { (length scores.now ≡ length parents.now) × ParentsValid parents.now × (length parents.now ≤ 16383) }
    ensures { result ≡ lowest (sound parents.now scores.now) (length parents.now) 0 }
{
    let mut marks = zeros();
    let n = parents.len();
    first_stray(parents, scores, &mut marks[..n])
}
