// Where a child of a node stands, and where a new one goes, on an image that passes the check.
#![tactic(auto)]

ghost use Rattle.std.specs.Prelude.{◌≡◌, suc, ◌+◌, ◌≤◌, ◌<◌, length};
ghost use Rattle.model.specs.Limits.{most_pages};
ghost use Rattle.model.specs.Reading.{size_at, name_at};
ghost use Rattle.theory_layout.specs.Here.{PageIn};
ghost use Rattle.theory_layout.specs.Widths.{Widths};
ghost use Rattle.read_find.specs.Rowed.{Rowed};
ghost use Rattle.grow_locate.specs.Seek.{located_at, seek_span, helper_first, SomeRow, past_span, inside_span, closer_of, children_span, PageAround};
ghost use Rattle.grow_locate.specs.Walk.{Finds};
ghost use Rattle.grow_locate.specs.Choose.{used_around, right_wins, sight_at, sight_first, sight_beside, sight_child};

use base_layout::{name_at, record_end, size_at, used_at};
use model::Settings;
use read_find::{nodes_shown, row_start};

// The page of the record that takes the node, and the bytes of the record where it goes and where its parent stands; 0 if the record does not hold the parent.
// It is `deep` records down from the one that does, each a helper that shows children of the parent.
#[derive(Clone, Copy)]
pub struct Receiver {
    pub page: usize,
    pub at: usize,
    pub par: usize,
    pub deep: usize,
}

// The byte of the image where a node stands and the byte past it, and the offset of its parent and the records down to it as `Receiver` has them.
#[derive(Clone, Copy)]
pub struct Located {
    pub at: usize,
    pub past: usize,
    pub par: usize,
    pub deep: usize,
}

// Nodes that follow one another in a record, from the byte `pos` of the image to `end`; `par` and `deep` as above.
#[derive(Clone, Copy)]
pub struct Span {
    pub pos: usize,
    pub end: usize,
    pub par: usize,
    pub deep: usize,
}

// What a search finds: the node, if there is one, and nodes of which the first shown is the next one; none if there is no next one.
#[derive(Clone, Copy)]
struct Sought {
    node: Option<Located>,
    after: Span,
}

// Whether the proxy of a record with a helper stands at pos: a record with none starts where its page does.
fn leads_on(image: &[u8], pos: usize) -> bool
    requires { SomeRow image.now pos }
    ensures { (w : SomeRow image.now pos) → result ≡ helper_first w.rowed.row }
{
    if image[pos] != 3 {
        return false;
    }
    let start = row_start(image, name_at(image, pos));
    start % Settings::PAGE != 0
}

// The first node, up to the byte `past`.
fn first_node(span: Span, past: usize) -> Located
    ensures { result ≡ located_at span.pos past span.par span.deep }
{
    Located {
        at: span.pos,
        past,
        par: span.par,
        deep: span.deep,
    }
}

// Past the first node.
fn past_first(image: &[u8], span: Span) -> Span
    requires { span.pos + 6 ≤ length image.now }
    ensures { result ≡ past_span span (size_at image.now span.pos) }
{
    Span {
        pos: span.pos + size_at(image, span.pos),
        end: span.end,
        par: span.par,
        deep: span.deep,
    }
}

// Into the record whose proxy is the first node.
fn enter_first(image: &[u8], span: Span) -> Span
    requires { (span.pos + 8 ≤ length image.now) × PageIn image.now (name_at image.now span.pos) × (span.deep < 65536) }
    ensures { result ≡ inside_span image.now span }
{
    let p = name_at(image, span.pos);
    Span {
        pos: row_start(image, p),
        end: record_end(image, p),
        par: 0,
        deep: span.deep + 1,
    }
}

// What follows: `next`, or `after` where `next` is empty.
fn closer(next: Span, after: Span) -> Span
    ensures { result ≡ closer_of next after }
{
    if next.pos < next.end { next } else { after }
}

// Node k of those that the span shows, or its proxy, if it is a record's root; `widths` has how many nodes each record shows, so that only records that
// hold the node are read. What follows it are the nodes behind it in its record or, with none, those behind the nearest proxy on the way down that has some.
fn seek(image: &[u8], widths: &[u32], from: Span, k: usize) -> Sought
    requires { Rowed image.now from.pos from.end most_pages × Widths image.now widths.now × (from.deep ≤ most_pages) }
    ensures { Finds image.now from k result }
{
    let mut to_pass = k;
    let mut span = from;
    let mut after = Span {
        pos: from.end,
        end: from.end,
        par: from.par,
        deep: from.deep,
    };
    while span.pos < span.end {
        let next = past_first(image, span);
        let n = nodes_shown(image, widths, span.pos);
        if n <= to_pass {
            to_pass -= n;
            span = next;
        } else {
            after = closer(next, after);
            if !leads_on(image, span.pos) {
                return Sought {
                    node: Some(first_node(span, next.pos)),
                    after,
                };
            }
            span = enter_first(image, span);
        }
    }
    Sought { node: None, after }
}

// The children of the aggregate at the byte `parent` of the image.
fn children(image: &[u8], parent: usize) -> Span
    requires { Rowed image.now (parent + 6) (parent + size_at image.now parent) most_pages }
    ensures { result ≡ children_span image.now parent }
{
    Span {
        pos: parent + 6,
        end: parent + size_at(image, parent),
        par: parent % Settings::PAGE,
        deep: 0,
    }
}

// Child k of the aggregate at the byte `parent` of the image, or its proxy.
pub fn seek_child(image: &[u8], widths: &[u32], parent: usize, k: usize) -> Option<Located>
    requires { Rowed image.now (parent + 6) (parent + size_at image.now parent) most_pages × Widths image.now widths.now }
    ensures { (w : Rowed image.now (parent + 6) (parent + size_at image.now parent) most_pages)
        → result ≡ seek_span (children_span image.now parent) w.row k }
{
    seek(image, widths, children(image, parent), k).node
}

// The length used by the record in which the byte pos of the image is.
fn used_around(image: &[u8], pos: usize) -> usize
    requires { PageAround image.now pos }
    ensures { result ≡ used_around image.now pos }
{
    used_at(image, Settings::PAGE * (pos / Settings::PAGE))
}

// The record around the right sibling, or around its proxy, has more bytes unused than the one around the left sibling: it uses fewer.
fn right_wins(image: &[u8], left: Located, right: Located) -> bool
    requires { PageAround image.now left.at × PageAround image.now right.at }
    ensures { result ≡ right_wins image.now left right }
{
    used_around(image, right.at) < used_around(image, left.at)
}

// The spot at the byte pos of the image.
fn sight(pos: usize, par: usize, deep: usize) -> Receiver
    ensures { result ≡ sight_at pos par deep }
{
    Receiver {
        page: pos / Settings::PAGE,
        at: pos % Settings::PAGE,
        par,
        deep,
    }
}

// The first child goes before its right sibling; with none, where the children would stand.
fn spot_first(image: &[u8], widths: &[u32], span: Span) -> Receiver
    requires { Rowed image.now span.pos span.end most_pages × Widths image.now widths.now × (span.deep ≡ 0) }
    ensures { (w : Rowed image.now span.pos span.end most_pages) → result ≡ sight_first span (seek_span span w.row 0) }
{
    match seek(image, widths, span, 0).node {
        Some(sibling) => sight(sibling.at, sibling.par, sibling.deep),
        None => sight(span.pos, span.par, span.deep),
    }
}

// A child with left sibling i goes after it or before its right one, whose search begins with what follows the left one.
fn spot_beside(image: &[u8], widths: &[u32], span: Span, i: usize) -> Option<Receiver>
    requires { Rowed image.now span.pos span.end most_pages × Widths image.now widths.now × (span.deep ≡ 0) }
    ensures { (w : Rowed image.now span.pos span.end most_pages)
        → result ≡ sight_beside image.now (seek_span span w.row i) (seek_span span w.row (suc i)) }
{
    let Sought { node, after } = seek(image, widths, span, i);
    let left = node?;
    if let Some(right) = seek(image, widths, after, 0).node {
        if right_wins(image, left, right) {
            return Some(sight(right.at, right.par, right.deep));
        }
    }
    Some(sight(left.past, left.par, left.deep))
}

// Where child k of the aggregate at the byte `parent` of the image goes; nowhere if k is above its number of children.
pub fn find_spot(image: &[u8], widths: &[u32], parent: usize, k: usize) -> Option<Receiver>
    requires { Rowed image.now (parent + 6) (parent + size_at image.now parent) most_pages × Widths image.now widths.now }
    ensures { (w : Rowed image.now (parent + 6) (parent + size_at image.now parent) most_pages)
        → result ≡ sight_child image.now (children_span image.now parent) w.row k }
{
    let span = children(image, parent);
    if k == 0 {
        return Some(spot_first(image, widths, span));
    }
    spot_beside(image, widths, span, k - 1)
}
