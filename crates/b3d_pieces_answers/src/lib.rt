// The answer of the piece judge at the close: checks 1 and 2 over all bytes joined, then what the machine found, then 10.
#![tactic(auto)]

ghost use Rattle.std.specs.Prelude.{◌≡◌, false, Ok, Err};
ghost use Rattle.layout.specs.Refused.{refusal_at};
ghost use Rattle.b3d_judge_limits.specs.Limits.{tallied};
ghost use Rattle.b3d_pieces_step.specs.Turns.{pends};
ghost use Rattle.b3d_pieces_answers.specs.Closes.{rows_in, as_word, answer_by, word_answer, EndIs, Closes};

use b3d_judge_tally::Tally;
use b3d_pieces_item_steps::Now;
use b3d_pieces_judge_step::Judge;
use b3d_pieces_spec::Totals;
use b3d_spec::{Answer, letters};
use layout::{FEWEST_BYTES, MOST_BYTES, Refusal, refusals};

// The tag BB3D, which a file begins with, as a number.
const OPENING: usize = letters::BB3D as usize;

// Returns the rows that `g` counted as a tally, with 0 bytes of copy.
fn counted(g: Totals) -> Tally
    ensures { result ≡ tallied (rows_in g) 0 }
{
    let n = g.rows;
    Tally {
        textures: g.textures,
        brushes: g.brushes,
        nodes: n.nodes,
        meshes: n.meshes,
        vertices: n.vertices,
        sets: n.sets,
        triangles: n.triangles,
        weights: n.weights,
        lists: n.lists,
        keys: n.keys,
        copy: 0,
    }
}

// Returns what the machine has come to: the totals, or its refusal. Returns 15 at place 0 where a chunk waits to be entered or left, which is not between two
// pieces.
fn ended(held: Now) -> Result<Totals, Refusal>
    ensures { EndIs held result }
{
    match held {
        Now::Live(_, _, g, _) => Ok(g),
        Now::Push(_, _, _, _) => Err(Refusal {
            number: refusals::CLOSED,
            place: 0,
        }),
        Now::Pop(_, _) => Err(Refusal {
            number: refusals::CLOSED,
            place: 0,
        }),
        Now::Fault(number, place) => Err(Refusal { number, place }),
        Now::Over(g) => Ok(g),
    }
}

// Returns what all bytes joined come to by `j`: check 1, then 2, then the machine's refusal, then 10; else the totals.
pub fn closing_of(j: Judge) -> Result<Totals, Refusal>
    requires { pends j.now ≡ false }
    ensures { Closes j result }
{
    let size = j.size;
    if size < FEWEST_BYTES {
        return Err(Refusal {
            number: refusals::FILE_SIZE,
            place: 0,
        });
    }
    if MOST_BYTES < size {
        return Err(Refusal {
            number: refusals::FILE_SIZE,
            place: 0,
        });
    }
    if j.letters != OPENING {
        return Err(Refusal {
            number: refusals::FIRST_TAG,
            place: 0,
        });
    }
    if j.length != size - 8 {
        return Err(Refusal {
            number: refusals::FIRST_TAG,
            place: 4,
        });
    }
    let now = j.now;
    let g = ended(now)?;
    let k = b3d_judge_limits::over_limit(counted(g));
    if k == 0 {
        return Ok(g);
    }
    Err(Refusal {
        number: refusals::TOO_MANY_ROWS,
        place: k,
    })
}

// Returns `n` in 32 bits, or 0xFFFFFFFF if it is larger; no call leads to a larger one.
fn as_word(n: usize) -> u32
    ensures { result ≡ as_word n }
{
    if n <= 0xFFFF_FFFF {
        return n as u32;
    }
    0xFFFF_FFFF
}

// Returns the answer of a refusal with `number` at `place`: version, n_texs and counts are 0.
pub fn refused(number: u32, place: usize) -> Answer
    ensures { result ≡ word_answer (answer_by (Err (refusal_at number place))) }
{
    let p = as_word(place);
    Answer {
        number,
        place: p,
        version: 0,
        n_texs: 0,
        counts: [0; 10],
    }
}

// Returns the answer of an accepted file with the totals `g`.
fn accepted(g: Totals) -> Answer
    ensures { result ≡ word_answer (answer_by (Ok g)) }
{
    let n = g.rows;
    let version = as_word(g.version);
    let slots = as_word(g.slots);
    let textures = as_word(g.textures);
    let brushes = as_word(g.brushes);
    let nodes = as_word(n.nodes);
    let meshes = as_word(n.meshes);
    let vertices = as_word(n.vertices);
    let sets = as_word(n.sets);
    let triangles = as_word(n.triangles);
    let weights = as_word(n.weights);
    let lists = as_word(n.lists);
    let keys = as_word(n.keys);
    Answer {
        number: 0,
        place: 0,
        version: version,
        n_texs: slots,
        counts: [
            textures, brushes, nodes, meshes, vertices, sets, triangles, weights, lists, keys,
        ],
    }
}

// Returns the answer for what all bytes joined come to.
pub fn closing_answer(c: Result<Totals, Refusal>) -> Answer
    ensures { result ≡ word_answer (answer_by c) }
{
    match c {
        Ok(g) => accepted(g),
        Err(e) => refused(e.number, e.place),
    }
}
