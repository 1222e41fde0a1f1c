// Finds which of a mesh's six lent tables is too short (refusal 11): from the judge's answer to the reader's, by numbers alone.
#![tactic(auto)]

ghost use Rattle.std.specs.Prelude.{◌≡◌, [], ◌∷◌, ◌≤◌};
ghost use Rattle.shared_room.specs.Rooms.{number_of, first_short};
ghost use Rattle.cal3d_spec.specs.Tables.{mesh_tables, mesh_file_width};
ghost use Rattle.cal3d_mesh_answer_numbers.specs.Rooms.{WithRoom};

use cal3d_spec::MeshAnswer;
use layout::refusals;

// Returns the first of six tables, of `l1` to `l6` words, that is too short for its rows, by its number; 0 if there is none.
fn first_short(
    counts: [u32; 6],
    l1: usize,
    l2: usize,
    l3: usize,
    l4: usize,
    l5: usize,
    l6: usize,
) -> usize
    ensures { (result ≡ first_short mesh_file_width (number_of counts) (number_of (l1 ∷ l2 ∷ l3 ∷ l4 ∷ l5 ∷ l6 ∷ [])) mesh_tables) × (result ≤ 6) }
{
    let from6 = shared_room::short_table_or(6, 3, wire::size(counts[5]), l6, 0);
    let from5 = shared_room::short_table_or(5, 4, wire::size(counts[4]), l5, from6);
    let from4 = shared_room::short_table_or(4, 2, wire::size(counts[3]), l4, from5);
    let from3 = shared_room::short_table_or(3, 2, wire::size(counts[2]), l3, from4);
    let from2 = shared_room::short_table_or(2, 12, wire::size(counts[1]), l2, from3);
    shared_room::short_table_or(1, 9, wire::size(counts[0]), l1, from2)
}

// Returns the reader's answer with tables of `l1` to `l6` words, where the judge's is `judged`.
pub fn with_room(
    judged: MeshAnswer,
    l1: usize,
    l2: usize,
    l3: usize,
    l4: usize,
    l5: usize,
    l6: usize,
) -> MeshAnswer
    ensures { WithRoom judged (l1 ∷ l2 ∷ l3 ∷ l4 ∷ l5 ∷ l6 ∷ []) result }
{
    if judged.number != 0 {
        return judged;
    }
    let counts = judged.counts;
    let short = first_short(counts, l1, l2, l3, l4, l5, l6);
    if short != 0 {
        return cal3d_mesh_judge::refused(refusals::TOO_SHORT, short as u32);
    }
    judged
}
