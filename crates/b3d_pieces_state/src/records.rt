// A tag by its number, a flag as a number, and an open chunk as a record, both ways.
ghost use Rattle.std.specs.Prelude.{◌≡◌};
ghost use Rattle.b3d_spec.specs.Tags.{tag_number};
ghost use Rattle.b3d_pieces_spec.specs.Row.{tag_by, flag};
ghost use Rattle.b3d_pieces_state.specs.Records.{open_in, record_of};

use crate::OpenRecord;
use b3d_pieces_spec::{Kept, Open};
use b3d_spec::Tag;

// Returns the tag with number `n`, ANIM for every `n` from 9 on.
pub fn tag_by(n: usize) -> Tag
    ensures { result ≡ tag_by n }
{
    match n {
        0 => Tag::BB3D,
        1 => Tag::TEXS,
        2 => Tag::BRUS,
        3 => Tag::NODE,
        4 => Tag::MESH,
        5 => Tag::VRTS,
        6 => Tag::TRIS,
        7 => Tag::BONE,
        8 => Tag::KEYS,
        _ => Tag::ANIM,
    }
}

// Returns the number of tag `t`, 0 to 9.
pub fn tag_number(t: Tag) -> usize
    ensures { result ≡ tag_number t }
{
    match t {
        Tag::BB3D => 0,
        Tag::TEXS => 1,
        Tag::BRUS => 2,
        Tag::NODE => 3,
        Tag::MESH => 4,
        Tag::VRTS => 5,
        Tag::TRIS => 6,
        Tag::BONE => 7,
        Tag::KEYS => 8,
        Tag::ANIM => 9,
    }
}

// Returns 1 if `b` is true, else 0.
pub fn flag_of(b: bool) -> usize
    ensures { result ≡ flag b }
{
    if b {
        return 1;
    }
    0
}

// Returns the open chunk that the record `n` stands for; every record stands for one.
pub fn open_of(n: OpenRecord) -> Open
    ensures { result ≡ open_in n }
{
    let tag = tag_by(n.tag);
    let kept = Kept {
        first: n.first,
        second: n.second,
        third: n.third,
    };
    Open {
        tag: tag,
        head: n.head,
        end: n.end,
        turn: n.turn,
        spent: n.spent == 1,
        level: n.level,
        kept: kept,
        count: n.count,
        told: n.told,
    }
}

// Returns the record of the open chunk `f`.
pub fn record_of(f: Open) -> OpenRecord
    ensures { result ≡ record_of f }
{
    let tag = f.tag;
    let kept = f.kept;
    let t = tag_number(tag);
    let s = flag_of(f.spent);
    OpenRecord {
        tag: t,
        head: f.head,
        end: f.end,
        turn: f.turn,
        spent: s,
        level: f.level,
        first: kept.first,
        second: kept.second,
        third: kept.third,
        count: f.count,
        told: f.told,
    }
}
