// The walk of the check: from page 1 through the proxies. Its calls follow the levels of the logical tree, not the records, so that they are at most 24 deep
// whatever the bytes: a list goes on into the record of a helper, and comes back out of it, in its own loop.
#![tactic(auto)]

ghost use Rattle.std.specs.Prelude.{◌≡◌, false, ℕ, ◌+◌, ◌*◌, ◌/◌, ◌≤◌, length};
ghost use Rattle.model.specs.Limits.{most_pages, most_levels, page_size};
ghost use Rattle.model.specs.WalkTests.{passing_kind};
ghost use Rattle.theory_check.specs.Marks.{IsMarks};
ghost use Rattle.theory_check.specs.Walk.{state, node_of, list_of};
ghost use Rattle.theory_check.specs.Check.{PassedBefore};
ghost use Rattle.theory_check.specs.Levels.{bytes};
ghost use Rattle.read_nodes.specs.Leaf.{literal_of};
ghost use Rattle.read_nodes.specs.Stand.{kind_by};
ghost use Rattle.read_turns.specs.Going.{PartAt, Ended, Goal};
ghost use Rattle.read_turns.specs.Steps.{Standing, NodeAt, Turned};
ghost use Rattle.read_walk.specs.Asked.{Ready, Walked};

use base_layout::record_end;
use model::Settings;
use read_leaves::holds_leaves;
use read_marks::tail_zero;
use read_nodes::{aggregate, head, kind_in, literal, only, size_of};
use read_walker::{Walker, enter, first, leave, past, reach, refused};

// ── nodes and lists: all of it asks for the part before the walk ──

// The aggregate that the part is, well formed by itself. It starts at byte `at` of the image.
#[cycle(walk)]
fn node_check<'a>(
    image: &'a [u8],
    part: &'a [u8],
    at: usize,
    level: usize,
    left: usize,
    marks: &mut [u8; Settings::MARKS],
    widths: &mut [u32],
    back: &mut [u16],
) -> usize
    requires { (6 ≤ length part.now) × (level ≤ most_levels + 1) × (1 ≤ left) × (left ≤ most_pages)
        × PartAt image.now part.now at × PassedBefore image.now × IsMarks marks.old
        × (length image.now ≤ page_size * length widths.old) × (length image.now ≤ page_size * length back.old) }
    ensures { (holder : ℕ) → 1 ≡ passing_kind part.now holder
        → Ended (node_of image.now part.now (at / page_size) holder level (state left marks.old))
        result marks.old marks.new widths.old widths.new back.old back.new }
{
    if Settings::LEVELS < level {
        return 0;
    }
    let below = level + 1;
    let d = only(part, below);
    let k = 6 * d + 6;
    list_check(
        image,
        &part[k..],
        at + k,
        below + d,
        left,
        marks,
        widths,
        back,
    )
}

// The record of the page that the proxy names. A helper's record is entered, and the list goes on there.
#[cycle(walk)]
fn proxy_check<'a>(
    image: &'a [u8],
    node: &'a [u8],
    w: Walker,
    marks: &mut [u8; Settings::MARKS],
    widths: &mut [u32],
    back: &mut [u16],
) -> Walker
    requires { PassedBefore image.now × NodeAt image.now node.now w × (3 ≡ kind_by node.now w.kinds)
        × ((g : Goal) × Standing image.now g marks.old widths.old back.old w) }
    ensures { (g : Goal) → Standing image.now g marks.old widths.old back.old w
        → Turned image.now g marks.new widths.new back.new w result }
{
    let p = reach(image, node, w.at / Settings::PAGE, w.left, marks);
    if p == 0 {
        return refused(w);
    }
    let a = Settings::PAGE * p;
    let e = record_end(image, p);
    let record = &image[a..e];
    let root = head(record, 0);
    if root == 4 {
        return enter(w, p, e, widths, back);
    }
    if root == 0 {
        return refused(w);
    }
    let mut r = past(w, 8, w.left - 1);
    if root == 2 {
        if Settings::LEVELS < w.level {
            return refused(w);
        }
        widths[p] = 1;
        return r;
    }
    r.left = node_check(image, record, a, w.level, w.left - 1, marks, widths, back);
    widths[p] = 1;
    r
}

// A node of a list that is neither an empty aggregate nor a literal that passes.
#[cycle(walk)]
fn part_check<'a>(
    image: &'a [u8],
    node: &'a [u8],
    w: Walker,
    marks: &mut [u8; Settings::MARKS],
    widths: &mut [u32],
    back: &mut [u16],
) -> Walker
    requires { PassedBefore image.now × NodeAt image.now node.now w
        × (literal_of (bytes image.now w.at w.end) (length node.now) w.kinds.literal w.level ≡ false)
        × ((g : Goal) × Standing image.now g marks.old widths.old back.old w) }
    ensures { (g : Goal) → Standing image.now g marks.old widths.old back.old w
        → Turned image.now g marks.new widths.new back.new w result }
{
    let kind = kind_in(node, w.kinds);
    if kind == 3 {
        return proxy_check(image, node, w, marks, widths, back);
    }
    if kind != 1 {
        return refused(w);
    }
    let mut r = past(w, node.len(), w.left);
    if holds_leaves(node, w.level + 1) {
        return r;
    }
    r.left = node_check(image, node, w.at, w.level, w.left, marks, widths, back);
    r
}

// The nodes of a logical list, one after another. The part that starts at byte `start` of the image is its own row. What holds no other node is passed without
// a call: an aggregate by a constant, so that the next header is read without waiting for this one's size.
#[cycle(walk)]
fn list_check<'a>(
    image: &'a [u8],
    part: &'a [u8],
    start: usize,
    level: usize,
    left: usize,
    marks: &mut [u8; Settings::MARKS],
    widths: &mut [u32],
    back: &mut [u16],
) -> usize
    requires { (level ≤ most_levels + 1) × (1 ≤ left) × (left ≤ most_pages)
        × PartAt image.now part.now start × PassedBefore image.now × IsMarks marks.old
        × (length image.now ≤ page_size * length widths.old) × (length image.now ≤ page_size * length back.old) }
    ensures { Ended (list_of image.now part.now (start / page_size) 1 level (state left marks.old))
        result marks.old marks.new widths.old widths.new back.old back.new }
{
    let last = start + part.len();
    let mut w = first(start, last, level, left);
    loop {
        let at = w.at;
        let end = w.end;
        if at == end {
            if w.depth == 0 {
                return w.left;
            }
            w = leave(image, w, last, widths, back);
        } else {
            let rest = &image[at..end];
            let kinds = w.kinds;
            if aggregate(rest, 6, kinds.aggregate, level) {
                w = past(w, 6, w.left);
            } else {
                let size = size_of(rest);
                if size == 0 {
                    return 0;
                }
                if literal(rest, size, kinds.literal, level) {
                    w = past(w, size, w.left);
                } else {
                    w = part_check(image, &rest[..size], w, marks, widths, back);
                    if w.left == 0 {
                        return 0;
                    }
                }
            }
        }
    }
}

// ── from page 1 ──

// Whether the walk from page 1, whose root is an aggregate, reaches every record page one time. It is made only where the part before it passes. What `back`
// holds does not matter.
pub fn walk_ok(
    image: &[u8],
    left: usize,
    marks: &mut [u8; Settings::MARKS],
    widths: &mut [u32],
    back: &mut [u16],
) -> bool
    requires { Ready image.now left marks.old widths.old × (length image.now ≤ page_size * length back.old) }
    ensures { Walked image.now left widths.old widths.new marks.new result }
{
    if !tail_zero(image, 1) {
        return false;
    }
    let e = record_end(image, 1);
    let record = &image[Settings::PAGE..e];
    if head(record, 0) != 1 {
        return false;
    }
    let r = node_check(image, record, Settings::PAGE, 1, left, marks, widths, back);
    r == 1
}
