// Whether the items of two open chunks can be compared word by word: items of one table whose words mean the same.
#![tactic(auto)]

ghost use Rattle.b3d_compare_shapes.specs.Shapes.{IsItems, HasItem, IsSameShape};

use b3d_rows_open_items::OpenItems;

// Returns whether `k` is a table of items: 5, 7, 8 or 10.
fn is_items(k: u32) -> bool
    ensures { IsItems k result }
{
    if k == 5 {
        return true;
    }
    if k == 7 {
        return true;
    }
    if k == 8 {
        return true;
    }
    k == 10
}

// Returns whether an item of `i` is left that is all there.
fn has_item(i: OpenItems) -> bool
    ensures { HasItem i result }
{
    if i.rest.end <= i.rest.at {
        return false;
    }
    i.words <= (i.rest.end - i.rest.at) / 4
}

// Returns whether `i` and `j` have items of table `k` whose words mean the same, and each has one left that is all there; never where `k` is not 5, 7, 8 or 10.
pub fn same_shape(k: u32, i: OpenItems, j: OpenItems) -> bool
    ensures { IsSameShape k i j result }
{
    if !is_items(k) {
        return false;
    }
    if i.words != j.words {
        return false;
    }
    if i.flags != j.flags {
        return false;
    }
    if i.sets != j.sets {
        return false;
    }
    if i.size != j.size {
        return false;
    }
    if !has_item(i) {
        return false;
    }
    has_item(j)
}
