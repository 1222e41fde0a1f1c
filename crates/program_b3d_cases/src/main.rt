// A program that asks the judge about the small files of paper 01 that no theorem covers, and about files that tell its rules from slips that look right.
// Each file is written out, a line for each chunk or item; `stdout` has the answers, made by hand from 01: each place and size is the sum of the chunk sizes
// before it, which its tables of chunks give (a header 8, a NODE without a name 8 + 1 + 40, and so on), and each count is what the file has.
#![tactic(auto)]

mod limits;
mod order;
mod slips;

use b3d_judge_tally::Tally;
use b3d_spec::Mode;
use std::io;

// Prints a space and `n` in decimal.
fn print(rt: &impl Print, n: usize) -> io::Result<()> {
    print!(rt; " {n}")
}

// Prints the ten row counts of `t` and the size of the cleared copy.
fn print_tally(rt: &impl Print, t: Tally) -> io::Result<()> {
    print(rt, t.textures)?;
    print(rt, t.brushes)?;
    print(rt, t.nodes)?;
    print(rt, t.meshes)?;
    print(rt, t.vertices)?;
    print(rt, t.sets)?;
    print(rt, t.triangles)?;
    print(rt, t.weights)?;
    print(rt, t.lists)?;
    print(rt, t.keys)?;
    rt.write_all(b", copy")?;
    print(rt, t.copy)
}

// Prints a line for `file`: its `name`, 01's number and place, and where it is accepted version and n_texs, the ten counts, and the size of the cleared copy.
fn case(rt: &impl Print, name: &[u8], file: &[u8]) -> io::Result<()> {
    rt.write_all(name)?;
    rt.write_all(b":")?;
    match b3d_judge::judge(Mode::Strict, file) {
        Err(e) => {
            print(rt, wire::size(e.number))?;
            print(rt, e.place)?;
        }
        Ok(x) => {
            rt.write_all(b" 0 0,")?;
            print(rt, wire::size(x.version))?;
            print(rt, wire::size(x.n_texs))?;
            rt.write_all(b",")?;
            print_tally(rt, x.tally)?;
        }
    }
    rt.write_all(b"\n")
}

// Prints a line for each file. A write that fails ends it with that error.
fn main(rt: HostRuntime) -> io::Result<()> {
    limits::cases(&rt)?;
    slips::cases(&rt)?;
    order::cases(&rt)
}
