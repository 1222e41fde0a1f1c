// A place in a table's rows moved on over items of the open chunk that were dealt with otherwise.
#![tactic(auto)]

ghost use Rattle.std.specs.Prelude.{◌≡◌, ◌+◌, ◌≤◌};
ghost use Rattle.b3d_rows_past.specs.Past.{cursor_past};

use b3d_rows_nodes::RowCursor;
use b3d_rows_open_items::OpenItems;
use b3d_rows_positions::Position;
use wire::Cursor;

// Returns the cursor `x` moved on by `bytes` bytes of the open chunk's items.
pub fn past(x: RowCursor, bytes: usize) -> RowCursor
    requires { x.position.items.rest.at + bytes ≤ x.position.items.rest.end }
    ensures { result ≡ cursor_past bytes x }
{
    let position = x.position;
    let path = x.path;
    let items = position.items;
    let rest = items.rest;
    let inner = position.inner;
    let counts = position.counts;
    RowCursor {
        position: Position {
            at: position.at,
            inner,
            items: OpenItems {
                rest: Cursor {
                    at: rest.at + bytes,
                    end: rest.end,
                },
                words: items.words,
                flags: items.flags,
                sets: items.sets,
                size: items.size,
            },
            counts,
        },
        path,
    }
}
