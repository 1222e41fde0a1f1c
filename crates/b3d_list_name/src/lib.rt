// The name of a row as a part of the file, or of a lent fallback word: no copy is kept.
#![tactic(auto)]

ghost use Rattle.std.specs.Prelude.{◌≡◌};
ghost use Rattle.b3d_list_name.specs.Name.{name_or};

// Returns the `size` bytes of `file` from `place` on; `fallback` where `size` is 0, or where they pass the end of the file.
pub fn name_or<'a>(file: &'a [u8], fallback: &'a [u8], place: usize, size: usize) -> &'a [u8]
    ensures { result.now ≡ name_or file.now fallback.now place size }
{
    if 0 < size {
        if place <= file.len() {
            if size <= file.len() - place {
                let end = place + size;
                return &file[place..end];
            }
        }
    }
    fallback
}
