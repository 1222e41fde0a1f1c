// A step of the piece judge between two parts of a chunk: the next item or header begins, or the chunk ends; and the nesting table asked of a record. Each
// function takes what is held by value, without the chunks around the innermost, and promises the machine's own step whatever they are.
#![tactic(auto)]

pub mod between;
pub mod nesting;

use b3d_pieces_spec::{Open, Part, Totals};

// What is held between two turns, without the chunks of the row.
#[derive(Clone, Copy)]
pub enum Now {
    // Inside chunks: the present place, what stands there, the totals, the innermost chunk.
    Live(usize, Part, Totals, Open),
    // A chunk is to be entered: the place of its body, the totals, the chunk, and the one around it, which goes to the row.
    Push(usize, Totals, Open, Open),
    // A chunk ended at this place, with these totals: the last chunk of the row goes on, or ends too; if there is none, all was read.
    Pop(usize, Totals),
    // A refusal and its place.
    Fault(u32, usize),
    // All of BB3D was read.
    Over(Totals),
}
