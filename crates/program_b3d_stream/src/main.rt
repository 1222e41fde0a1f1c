// The piece judge as a program: it reads standard input 200 bytes at a time and never holds it whole. It prints number and place; where the file is accepted,
// version and n_texs, then the ten counts, as the lister does before the names. `b3d_pieces_words` has the promise; here are only input and output.
#![tactic(auto)]

ghost use Rattle.std.specs.Prelude.{◌≡◌, length};
ghost use Rattle.b3d_pieces_spec.specs.Limits.{lent_words};

use b3d_pieces_judge_step::Judge;
use b3d_pieces_spec::LENT_WORDS;
use b3d_pieces_words::calls::{judge_close, judge_piece, start};
use b3d_spec::Answer;
use std::io;
use std::io::Read;

// Prints the bytes `before`, then `n` in decimal.
fn print(rt: &impl Print, before: &[u8], n: u32) -> io::Result<()> {
    rt.write_all(before)?;
    print!(rt; "{n}")
}

// Prints the ten counts on a line.
fn print_counts(rt: &impl Print, c: [u32; 10]) -> io::Result<()> {
    print(rt, b"", c[0])?;
    for i in 1..10 {
        print(rt, b" ", c[i])?;
    }
    rt.write_all(b"\n")
}

// More pieces of 200 bytes than the longest file has: past that many the answer is 1 at 0, whatever comes.
const PIECES: usize = 83887;

// Returns a row of 19 records of 11 words, all 0.
fn records() -> [usize; LENT_WORDS]
    ensures { lent_words ≡ length result }
{
    [0; LENT_WORDS]
}

// Returns the buffer for a piece, 200 bytes.
fn room() -> [u8; 200]
    ensures { 200 ≡ length result }
{
    [0; 200]
}

// Hands what `reader` gives to the judge, piece by piece, to its end or up to `PIECES` pieces. Returns the state after the last, or the error of a read that
// failed.
fn stream<R: Read>(reader: &mut R, row: &mut [usize], piece: &mut [u8]) -> io::Result<Judge> {
    let mut state = start();
    for _ in 0..PIECES {
        let n = program_input::read_full(reader, piece)?;
        if n == 0 {
            return Ok(state);
        }
        let fed = judge_piece(state, row, &piece[..n]);
        state = fed.judge;
    }
    Ok(state)
}

// Prints the answer: number and place and, if the file is accepted, version and n_texs, then the counts.
fn say(rt: &impl Print, a: Answer) -> io::Result<()> {
    print(rt, b"", a.number)?;
    print(rt, b" ", a.place)?;
    rt.write_all(b"\n")?;
    if a.number == 0 {
        print(rt, b"", a.version)?;
        print(rt, b" ", a.n_texs)?;
        rt.write_all(b"\n")?;
        print_counts(rt, a.counts)?;
    }
    Ok(())
}

// Judges standard input and prints the answer. A read or a write that fails ends it with that error.
fn main(rt: HostRuntime) -> io::Result<()> {
    let mut row = records();
    let mut piece = room();
    let state = stream(&mut rt.reader(), &mut row, &mut piece)?;
    let closed = judge_close(state, &row);
    say(&rt, closed.answer)
}
