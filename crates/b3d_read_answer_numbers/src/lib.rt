// The reader's answers as numbers: for a refusal, for an accepted file, and 11 where one of ten lent tables has no room for its rows.
#![tactic(auto)]

ghost use Rattle.std.specs.Prelude.{◌≡◌, [], ◌∷◌, ◌<◌};
ghost use Rattle.layout.specs.Result.{reject};
ghost use Rattle.b3d_spec.specs.Answers.{answer};
ghost use Rattle.shared_room.specs.Rooms.{number_of};
ghost use Rattle.b3d_judge_limits.specs.Limits.{TallyLimited};
ghost use Rattle.b3d_read_answer_numbers.specs.Answers.{accepted_as, room_answer};

use b3d_judge_tally::Tally;
use b3d_spec::Answer;
use layout::refusals;

// Returns the answer for a refusal: `number` and `place`, with version, n_texs and counts all 0.
pub fn refused(number: u32, place: usize) -> Answer
    requires { place < 4294967296 }
    ensures { result ≡ answer (reject number place) }
{
    Answer {
        number,
        place: place as u32,
        version: 0,
        n_texs: 0,
        counts: [0; 10],
    }
}

// Returns the answer for an accepted file: 0 at 0, `version`, n_texs (`slots`) and the ten row counts of `t`.
pub fn accepted(version: u32, slots: u32, t: Tally) -> Answer
    requires { TallyLimited t }
    ensures { result ≡ accepted_as version slots t }
{
    Answer {
        number: 0,
        place: 0,
        version,
        n_texs: slots,
        counts: [
            t.textures as u32,
            t.brushes as u32,
            t.nodes as u32,
            t.meshes as u32,
            t.vertices as u32,
            t.sets as u32,
            t.triangles as u32,
            t.weights as u32,
            t.lists as u32,
            t.keys as u32,
        ],
    }
}

// Returns the answer for an accepted file and ten tables of `l1` to `l10` words: 11 and the number of the first table with no room for its rows of `t`, else
// the answer of `accepted`.
pub fn with_room(
    version: u32,
    slots: u32,
    t: Tally,
    l1: usize,
    l2: usize,
    l3: usize,
    l4: usize,
    l5: usize,
    l6: usize,
    l7: usize,
    l8: usize,
    l9: usize,
    l10: usize,
) -> Answer
    requires { TallyLimited t }
    ensures { result ≡ room_answer version slots t (number_of (l1 ∷ l2 ∷ l3 ∷ l4 ∷ l5 ∷ l6 ∷ l7 ∷ l8 ∷ l9 ∷ l10 ∷ [])) }
{
    let short = b3d_judge_limits::first_short(t, l1, l2, l3, l4, l5, l6, l7, l8, l9, l10);
    if short != 0 {
        return refused(refusals::TOO_SHORT, short);
    }
    accepted(version, slots, t)
}
