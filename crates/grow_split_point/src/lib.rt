// Where a record splits: the split point, where its row starts, the child of a level that is chosen, whether the split goes on inside it.
#![tactic(auto)]

ghost use Rattle.std.specs.Prelude.{◌≡◌, ◌||◌, ℕ, ◌+◌, ◌≤◌, ◌<◌, length};
ghost use Rattle.std.proofs.Math.IntN.{sub_ℕ};
ghost use Rattle.model.specs.Row.{Row, bytes, is_nil, lone_rec, base, Config};
ghost use Rattle.model.specs.Reading.{kind_at};
ghost use Rattle.model.specs.Growth.{split_point};
ghost use Rattle.model.specs.Claims.{InLean};
ghost use Rattle.theory_rows.specs.Cut.{goes_into};
ghost use Rattle.theory_row_bytes.specs.RowAt.{RecordIs};
ghost use Rattle.grow_split_point.specs.Kids.{Kids};
ghost use Rattle.grow_split_point.specs.Chosen.{Chosen};
ghost use Rattle.grow_split_point.specs.Lean.{lean_now};

use base_layout::size_at;
use base_node_kinds::may_stand;
use base_numbers::wide;

// p: the nearest whole number to target × size / 256, and at an exact half the even one.
pub fn split_point(target: usize, size: usize) -> usize
    requires { (target ≤ 192) × (size ≤ 4608) }
    ensures { (st : Config) → st.target ≡ target → result ≡ split_point st size }
{
    let n = target * size;
    let down = n / 256;
    let past = n % 256;
    if past < 128 {
        return down;
    }
    if past == 128 {
        return down + down % 2;
    }
    down + 1
}

// Where a record's row starts: a helper's header is not part of it.
pub fn first_node(content: &[u8]) -> usize
    requires { 1 ≤ length content.now }
    ensures { (row : Row) → RecordIs content.now row → result ≡ base row }
{
    if content[0] == 4 { 6 } else { 0 }
}

// The last child that starts at or before p, or the first, in the row from start to end.
pub fn child(buf: &[u8], start: usize, end: usize, p: usize) -> usize
    requires { Kids buf.now start end }
    ensures { (w : Kids buf.now start end) (st : Config) → Chosen st p start w.row result }
{
    let mut pos = start;
    loop {
        let next = pos + size_at(buf, pos);
        if next < end && next <= p {
            pos = next;
        } else {
            return pos;
        }
    }
}

// Whether the split goes on inside the node at x: only where an aggregate may stand in it.
pub fn enters(buf: &[u8], x: usize, tolerance: usize) -> bool
    requires { (x + 6 ≤ length buf.now) × (kind_at buf.now x < 5) }
    ensures { (end : ℕ) (w : Kids buf.now x end) (st : Config) → st.tolerance ≡ tolerance → result ≡ goes_into st w.row }
{
    let size = size_at(buf, x);
    may_stand(wide(buf[x]), 1) && tolerance <= size && 6 < size
}

// Whether a group is left alone: no node, or one proxy, the node that may not be a record's root.
pub fn stays(part: &[u8]) -> bool
    ensures { (g : Row) → part.now ≡ bytes g → result ≡ (is_nil g || lone_rec g) }
{
    if part.is_empty() {
        return true;
    }
    if part.len() != 8 {
        return false;
    }
    let kind = wide(part[0]);
    kind <= 4 && !may_stand(0, kind)
}

// The lean: the start of d minus p.
pub fn lean(d: usize, p: usize) -> i32
    requires { (p ≤ d + 525) × ((d ≤ p + 132) × (p ≤ 8192)) }
    ensures { (result ≡ sub_ℕ d p) × InLean result }
{
    (d as i32) - (p as i32)
}

// The lean after so many splits and one whose own is `last`: that of the first split stays.
pub fn lean_now(splits: u32, first: i32, last: i32) -> i32
    requires { InLean first × InLean last }
    ensures { result ≡ lean_now splits first last }
{
    if splits == 0 { last } else { first }
}
