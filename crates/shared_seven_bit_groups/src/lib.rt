// Numbers in groups of seven bits (E1): the highest group first, the top bit set on all but the last byte, in the shortest form. How many groups a number
// takes, writing them into a lent output, and reading a number with a given upper bound. No file format is known here.
#![tactic(auto)]

ghost use Rattle.std.specs.Prelude.{◌≡◌, ◌+◌, ◌≤◌, [], length, drop};
ghost use Rattle.shared_seven_bit_groups.specs.Groups.{front, groups, groups_of, read_number, grouped};
ghost use Rattle.shared_seven_bit_groups.specs.Puts.{PutAt};

use layout::{Refusal, refusals};

// Returns how many groups `n` takes: 1 to 5.
pub fn groups_of(n: u32) -> usize
    ensures { (result ≡ groups_of n) × (result ≤ 5) }
{
    let mut count: usize = 1;
    let mut above = n / 128;
    while 0 < above {
        count += 1;
        above /= 128;
    }
    count
}

// Writes the groups before the last, which make the number `w`, into `out` from `at` on; none if `w` is 0. Returns the place after them.
fn put_front(w: u32, out: &mut [u8], at: usize) -> usize
    requires { at + length (front w []) ≤ length out.old }
    ensures { PutAt (front w []) out.old at out.new result }
{
    if w == 0 {
        return at;
    }
    let next = put_front(w / 128, out, at);
    out[next] = (w % 128 + 128) as u8;
    next + 1
}

// Writes `n` in its groups into `out` from `at` on, and returns the place after them. The other bytes of `out` stay as found.
pub fn put_groups(n: u32, out: &mut [u8], at: usize) -> usize
    requires { at + groups_of n ≤ length out.old }
    ensures { PutAt (groups n []) out.old at out.new result }
{
    let next = put_front(n / 128, out, at);
    out[next] = (n % 128) as u8;
    next + 1
}

// Reads the number at place `at` of `s`, which is at most `most`. Returns it and the place after it; or 13 at `at` if its bytes make it wrong, at the first
// byte that is missing if it is cut.
pub fn read_number(s: &[u8], at: usize, most: u32) -> Result<(u32, usize), Refusal>
    ensures { result ≡ grouped (read_number most at (drop at s.now)) }
{
    let mut v: u32 = 0;
    let mut p = at;
    for _ in 0..groups_of(most) {
        if s.len() <= p {
            return Err(Refusal {
                number: refusals::NO_SLIP,
                place: p,
            });
        }
        let b = s[p] as u32;
        p += 1;
        if b < 128 {
            let n = v * 128 + b;
            if most < n {
                return Err(Refusal {
                    number: refusals::NO_SLIP,
                    place: at,
                });
            }
            return Ok((n, p));
        }
        v = v * 128 + (b - 128);
        if v == 0 || most / 128 < v {
            return Err(Refusal {
                number: refusals::NO_SLIP,
                place: at,
            });
        }
    }
    Err(Refusal {
        number: refusals::NO_SLIP,
        place: at,
    })
}
