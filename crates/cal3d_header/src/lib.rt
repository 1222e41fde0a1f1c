// The header of a cal3d file, skeleton or mesh: its size, its magic, its version and the number of its entries.
#![tactic(auto)]

ghost use Rattle.std.specs.Prelude.{◌≡◌, ◌<◌, ◌≤◌, IfErr};
ghost use Rattle.cal3d_header.specs.Heads.{read_head, opened_of};

use layout::{FEWEST_BYTES, MOST_BYTES, Refusal, refusals};

// Checks size, `magic` and `version`, and returns the number of entries in the header, which has `more` numbers after it. The place of a refusal
// fits in 32 bits.
pub fn entry_count(file: &[u8], magic: u32, version: u32, more: usize) -> Result<u32, Refusal>
    requires { more ≤ 64 }
    ensures value { result ≡ opened_of (read_head magic version more file.now) }
    ensures place_fits { IfErr result (λ e. e.place < 4294967296) }
{
    let n = file.len();
    if n < FEWEST_BYTES || MOST_BYTES < n {
        return Err(Refusal {
            number: refusals::FILE_SIZE,
            place: 0,
        });
    }
    if wire::number_at(file, 0) != magic {
        return Err(Refusal {
            number: refusals::FIRST_TAG,
            place: 0,
        });
    }
    if n < 12 + 4 * more {
        return Err(Refusal {
            number: refusals::CUT_ITEM,
            place: 4,
        });
    }
    if wire::number_at(file, 4) != version {
        return Err(Refusal {
            number: refusals::RANGE,
            place: 4,
        });
    }
    let count = wire::number_at(file, 8);
    if 2147483647 < count {
        return Err(Refusal {
            number: refusals::RANGE,
            place: 8,
        });
    }
    Ok(count)
}
