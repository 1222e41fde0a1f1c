// Tables 8 to 10, the weights, key lists and keys, filled by one loop over the flat run.
#![tactic(auto)]

ghost use Rattle.std.specs.Prelude.{◌≡◌, ◌<◌, ◌≤◌, length};
ghost use Rattle.std.proofs.lemmas.List.Edits.{sets as stored};
ghost use Rattle.layout.specs.Rows.{joined};
ghost use Rattle.b3d_spec_plain_rows.specs.Rows.{file_rows};

use b3d_spec::{KEY_LIST_WIDTH, Tag, WEIGHT_WIDTH};

// Stores the rows of tables 8, 9 and 10 of `file` in `weights`, `lists` and `keys`. The cells behind them stay as they were.
pub fn store_animation(file: &[u8], weights: &mut [u32], lists: &mut [u32], keys: &mut [u32])
    requires { (length file.now < 0x100000000) × (length (joined (file_rows 8 file.now)) ≤ length weights.old)
        × (length (joined (file_rows 9 file.now)) ≤ length lists.old) × (length (joined (file_rows 10 file.now)) ≤ length keys.old) }
    ensures { (weights.new ≡ stored weights.old 0 (joined (file_rows 8 file.now)))
        × (lists.new ≡ stored lists.old 0 (joined (file_rows 9 file.now)))
        × (keys.new ≡ stored keys.old 0 (joined (file_rows 10 file.now))) }
{
    if file.len() < 12 {
        return;
    }
    let mut at: usize = 12;
    let mut nodes: usize = 0;
    let mut count: usize = 0;
    let mut to8: usize = 0;
    let mut to9: usize = 0;
    let mut to10: usize = 0;
    loop {
        let Some(chunk) = b3d_chunk_walk::flat_next(file, at) else {
            return;
        };
        if b3d_chunk_cursor::same(chunk.tag, Tag::KEYS) {
            to10 = b3d_read_item_rows::store_keys(file, chunk.body, to10, keys);
            let node = b3d_chunk_walk::current(nodes);
            count += b3d_read_item_rows::store_group(
                file, chunk.body, true, node, count, to9, lists,
            );
            to9 += KEY_LIST_WIDTH;
        } else if b3d_chunk_cursor::same(chunk.tag, Tag::NODE) {
            nodes += 1;
        } else if b3d_chunk_cursor::same(chunk.tag, Tag::BONE) {
            to8 = b3d_read_item_rows::store_items(file, chunk.body, WEIGHT_WIDTH, to8, weights);
        }
        at = chunk.next;
    }
}
