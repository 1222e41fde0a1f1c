// Writing into a lent output: words, bytes, texts, the header of a chunk. Each function is lent the output from the place where it writes, and leaves all
// that comes after as it was. No file format is known here; the laws in proofs/ put such writes together.
#![tactic(auto)]

ghost use Rattle.std.specs.Prelude.{◌+◌, ◌<◌, ◌≤◌, [], length, take, drop};
ghost use Rattle.wire.specs.Bytes.{bytes};
ghost use Rattle.layout.specs.Write.{write_words, write_text};
ghost use Rattle.shared_output.specs.Writing.{Wrote, Room, Put, head};

// Writes the header of a chunk with the tag `tag` whose body has `size` bytes.
pub fn put_header(out: &mut [u8], tag: u32, size: usize)
    requires { (8 ≤ length out.old) × (size < 4294967296) }
    ensures { Wrote out.old (head tag size []) out.new }
{
    wire::put_number(out, tag);
    wire::put_number(&mut out[4..], size as u32);
}

// Writes the header of a chunk with the tag `tag` whose body is the word `first` and then `size` bytes; and that word.
pub fn put_opening(out: &mut [u8], tag: u32, size: usize, first: u32)
    requires { (12 ≤ length out.old) × (size < 4294967292) }
    ensures { Wrote out.old (head tag size (bytes first [])) out.new }
{
    put_header(out, tag, size + 4);
    wire::put_number(&mut out[8..], first);
}

// Writes the `count` bytes of `src` from place `from` on, as they are; 0 bytes write nothing.
pub fn copy_bytes(src: &[u8], from: usize, count: usize, out: &mut [u8])
    requires { (from + count ≤ length src.now) × (count ≤ length out.old) }
    ensures { Wrote out.old (take count (drop from src.now)) out.new }
{
    for i in 0..count {
        out[i] = src[from + i];
    }
}

// Writes `count` words of `words` from word `first` on, four bytes each, and returns how many bytes these are.
pub fn put_words(words: &[u32], first: usize, count: usize, out: &mut [u8]) -> usize
    requires count_in_bounds { first + count ≤ length words.now }
    requires room { Room (write_words (take count (drop first words.now)) []) out.old }
    ensures { Put (write_words (take count (drop first words.now)) []) out.old out.new result }
{
    let mut at: usize = 0;
    for i in 0..count {
        wire::put_number(&mut out[at..], words[first + i]);
        at += 4;
    }
    at
}

// Writes the text of `size` bytes at `place` of `names`, and the zero that ends it. Returns how many bytes these are.
pub fn put_text(names: &[u8], place: usize, size: usize, out: &mut [u8]) -> usize
    requires size_in_bounds { place + size ≤ length names.now }
    requires room { Room (write_text (take size (drop place names.now)) []) out.old }
    ensures { Put (write_text (take size (drop place names.now)) []) out.old out.new result }
{
    copy_bytes(names, place, size, out);
    out[size] = 0;
    size + 1
}
