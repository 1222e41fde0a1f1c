// A turn of the machine: it is handed the last record of the row, the chunk around the innermost, by value.
ghost use Rattle.std.specs.Prelude.{◌≡◌, ◌≤◌};
ghost use Rattle.b3d_pieces_spec.specs.Limits.{most_around};
ghost use Rattle.b3d_pieces_step.specs.Turns.{slot_of, pends, ReadyNow, TurnIs};

use crate::Turned;
use b3d_pieces_body_steps::enter;
use b3d_pieces_byte_steps::bytes::byte_in;
use b3d_pieces_item_steps::Now;
use b3d_pieces_item_steps::between::edge;
use b3d_pieces_spec::Open;

// Returns the place of the last of `n` records, or 0 if there is none.
pub fn slot(n: usize) -> usize
    ensures { result ≡ slot_of n }
{
    if n == 0 {
        return 0;
    }
    n - 1
}

// Returns whether a chunk is to be entered or left, so that the next turn takes no byte.
pub fn pending(now: Now) -> bool
    ensures { result ≡ pends now }
{
    match now {
        Now::Live(_, _, _, _) => false,
        Now::Push(_, _, _, _) => true,
        Now::Pop(_, _) => true,
        Now::Fault(_, _) => false,
        Now::Over(_) => false,
    }
}

// Makes a turn with byte `b`, where the row holds `n` chunks and `rec` is the last: enters or leaves a chunk if one waits, else takes the byte. A refusal and
// the end of BB3D stay.
pub fn turn(now: Now, n: usize, rec: Open, b: u8) -> Turned
    requires { ReadyNow now n rec × (n ≤ most_around) }
    ensures { TurnIs now n rec b result }
{
    let last = slot(n);
    match now {
        Now::Live(at, m, g, f) => {
            let x = byte_in(m, b, at, g, f);
            Turned {
                now: x,
                depth: n,
                put: last,
                rec: rec,
            }
        }
        Now::Push(at, g, f, o) => {
            let x = enter(at, g, f);
            Turned {
                now: x,
                depth: n + 1,
                put: n,
                rec: o,
            }
        }
        Now::Pop(at, g) => {
            if n == 0 {
                return Turned {
                    now: Now::Over(g),
                    depth: 0,
                    put: 0,
                    rec: rec,
                };
            }
            let x = edge(at, g, rec);
            Turned {
                now: x,
                depth: n - 1,
                put: n - 1,
                rec: rec,
            }
        }
        Now::Fault(k, p) => Turned {
            now: Now::Fault(k, p),
            depth: n,
            put: last,
            rec: rec,
        },
        Now::Over(g) => Turned {
            now: Now::Over(g),
            depth: n,
            put: last,
            rec: rec,
        },
    }
}
