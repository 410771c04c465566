// Where the check's walk over a logical list is, and its turns: past a node, into a helper's record, and back out of it.
#![tactic(auto)]

ghost use Rattle.std.specs.Prelude.{◌≡◌, ◌+◌, ◌-◌, ◌*◌, ◌/◌, ◌%◌, ◌≤◌, ◌<◌, length, get_or, set};
ghost use Rattle.model.specs.Limits.{most_pages, page_size};
ghost use Rattle.base_node_kinds.specs.Holders.{kinds_in};
ghost use Rattle.theory_check.specs.Check.{PassedBefore};
ghost use Rattle.read_walker.specs.Turns.{Fits, way_back, walker, reach_of, marked_of, out_of};

use base_layout::{back_at, name_at, record_end};
use base_marks::set_mark;
use base_node_kinds::{AGGREGATE, HELPER, Kinds, kinds_in};
use model::Settings;
use read_marks::enters;

// At byte `at` of the image, in a row that ends at `end` and takes these kinds of nodes, which have the level. `left` is one more than the pages that are to
// be reached, 0 where the walk is refused; `count` nodes are passed, and the list is in `depth` records of helpers.
#[derive(Clone, Copy)]
pub struct Walker {
    pub kinds: Kinds,
    pub left: usize,
    pub count: usize,
    pub depth: usize,
    pub at: usize,
    pub end: usize,
    pub level: usize,
}

// At the start of a list whose own row stands from `start` to `last`.
pub fn first(start: usize, last: usize, level: usize, left: usize) -> Walker
    ensures { result ≡ walker (kinds_in 1) left 0 0 start last level }
{
    Walker {
        kinds: kinds_in(AGGREGATE),
        left: left,
        count: 0,
        depth: 0,
        at: start,
        end: last,
        level: level,
    }
}

// Past a node of so many bytes, so many pages being left.
pub fn past(w: Walker, size: usize, left: usize) -> Walker
    requires { Fits w × (size < 65536) }
    ensures { result ≡ walker w.kinds left (w.count + 1) w.depth (w.at + size) w.end w.level }
{
    let mut r = w;
    r.left = left;
    r.count = w.count + 1;
    r.at = w.at + size;
    r
}

// No further.
pub fn refused(w: Walker) -> Walker
    ensures { result ≡ walker w.kinds 0 w.count w.depth w.at w.end w.level }
{
    let mut r = w;
    r.left = 0;
    r
}

// The page that the proxy in the record of `page` names, if the walk may enter it, which is marked then; else 0.
pub fn reach(
    image: &[u8],
    proxy: &[u8],
    page: usize,
    left: usize,
    marks: &mut [u8; Settings::MARKS],
) -> usize
    requires { PassedBefore image.now }
    ensures page { result ≡ reach_of image.now proxy.now page left marks.old }
    ensures marks { marks.new ≡ marked_of result marks.old }
{
    if proxy.len() != 8 {
        return 0;
    }
    let p = name_at(proxy, 0);
    if !enters(image, p, page, left, marks) {
        return 0;
    }
    set_mark(marks, p);
    p
}

// Into the record of a helper on page p, which ends at `end`. A helper is no level. Until the list comes out, `widths` has how many nodes were passed before
// the record, and `back` at which byte of its page the list goes on behind its proxy; the record's trailer names that page.
pub fn enter(w: Walker, p: usize, end: usize, widths: &mut [u32], back: &mut [u16]) -> Walker
    requires { Fits w × (1 ≤ w.left) × (p < most_pages) × (p < length widths.old) × (p < length back.old) }
    ensures walker { result ≡ walker (kinds_in 4) (w.left - 1) w.count (w.depth + 1) (page_size * p + 6) end w.level }
    ensures widths { widths.new ≡ set widths.old p w.count }
    ensures back { back.new ≡ set back.old p ((w.at + 8) % page_size) }
{
    widths[p] = w.count as u32;
    back[p] = ((w.at + 8) % Settings::PAGE) as u16;
    Walker {
        kinds: kinds_in(HELPER),
        left: w.left - 1,
        count: w.count,
        depth: w.depth + 1,
        at: Settings::PAGE * p + 6,
        end: end,
        level: w.level,
    }
}

// Out of the record of a helper, at whose end the list is: its width is known now. `last` is where the list's own row ends.
pub fn leave(image: &[u8], w: Walker, last: usize, widths: &mut [u32], back: &[u16]) -> Walker
    requires { Fits w × (1 ≤ w.depth) × (page_size * (w.at / page_size) + page_size ≤ length image.now)
        × (get_or widths.old (w.at / page_size) 0 ≤ w.count) × (length image.now ≤ page_size * length widths.old)
        × (length image.now ≤ page_size * length back.now) × (way_back image.now back.now (w.at / page_size) ≤ length image.now)
        × ((w.depth - 1 ≡ 0 → ⊥) → (way_back image.now back.now (w.at / page_size) / page_size < most_pages)
        × (page_size * (way_back image.now back.now (w.at / page_size) / page_size) + page_size ≤ length image.now)) }
    ensures walker { result ≡ out_of image.now w last (way_back image.now back.now (w.at / page_size)) }
    ensures widths { widths.new
        ≡ set widths.old (w.at / page_size) (w.count - get_or widths.old (w.at / page_size) 0) }
{
    let page = w.at / Settings::PAGE;
    let before = widths[page] as usize;
    widths[page] = (w.count - before) as u32;
    let at = Settings::PAGE * back_at(image, Settings::PAGE * page) + back[page] as usize;
    let depth = w.depth - 1;
    let mut r = w;
    r.at = at;
    r.depth = depth;
    if depth == 0 {
        r.kinds = kinds_in(AGGREGATE);
        r.end = last;
        return r;
    }
    r.end = record_end(image, at / Settings::PAGE);
    r
}
