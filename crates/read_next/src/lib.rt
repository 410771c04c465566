// Moving about in an image that passes the check: the node of a place, and the next one in document order.
#![tactic(auto)]

ghost use Rattle.std.specs.Prelude.{◌≡◌, false, Ok, cond, ℕ, ◌+◌, ◌*◌, ◌≤◌, ◌<◌, length, get_or, eqb};
ghost use Rattle.model.specs.Limits.{most_bytes};
ghost use Rattle.model.specs.Reading.{head_at, size_at};
ghost use Rattle.model.specs.Answers.{next_result, read_result};
ghost use Rattle.model.specs.Calls.Check.{check_of};
ghost use Rattle.model.specs.Calls.Read.{read_of};
ghost use Rattle.model.specs.Calls.Next.{kind_of, origin_of, next_of};
ghost use Rattle.read_find.specs.Rowed.{end_on};
ghost use Rattle.theory_layout.specs.Order.{step};
ghost use Rattle.theory_layout.specs.Widths.{Widths};
ghost use Rattle.read_next.specs.Scan.{OnRecord, Reached, Standing, Located, HeldBy, NodeAt, names as names_page};
ghost use Rattle.read_next.specs.Read.{Inner, IsOrigin, agg_read, lit_read};
ghost use Rattle.read_next.specs.Follow.{ItemAfter, Ahead, Follows, Nexted};

use base_layout::{back_at, label_at, name_at, origin_at, record_end, size_at, used_at};
use model::{Details, Kind, Next, NextNode, Origin, Place, Refusal, Settings};
use read_find::{row_start, width};

// Where the header after the one at pos stands.
fn flat(image: &[u8], pos: usize) -> usize
    requires { (pos + 5 < length image.now) × (pos < most_bytes) }
    ensures { result ≡ step image.now pos }
{
    if image[pos] == 1 {
        return pos + 6;
    }
    pos + size_at(image, pos)
}

// ── a place ──

// The first header of a record from the target on, which is before the record's end.
fn reach(image: &[u8], page: usize, target: usize) -> usize
    requires { OnRecord image.now page × (target < end_on image.now page) }
    ensures { Reached image.now page target result }
{
    let mut pos = row_start(image, page);
    while pos < target {
        pos = flat(image, pos);
    }
    pos
}

// Whether a node stands at the target.
fn stands(image: &[u8], page: usize, target: usize) -> bool
    requires { OnRecord image.now page × (target < end_on image.now page) }
    ensures { Standing image.now page target result }
{
    let pos = reach(image, page, target);
    if pos != target {
        return false;
    }
    if image[pos] == 3 {
        return false;
    }
    true
}

// Where the node of a place stands in the image.
pub fn node_at(image: &[u8], x: Place) -> Option<usize>
    requires { check_of image.now ≡ 0 }
    ensures { Located image.now x.page x.offset result }
{
    if x.page == 0 {
        return None;
    }
    if image.len() / Settings::PAGE <= x.page {
        return None;
    }
    let a = Settings::PAGE * x.page;
    if image[a + Settings::CAPACITY] != 1 {
        return None;
    }
    if used_at(image, a) <= x.offset {
        return None;
    }
    let pos = a + x.offset;
    if stands(image, x.page, pos) {
        Some(pos)
    } else {
        None
    }
}

// ── the next node ──

// Whether a proxy to the page stands at pos.
fn names(image: &[u8], pos: usize, page: usize) -> bool
    requires { (pos + 7 < length image.now) × (pos < most_bytes) }
    ensures { result ≡ names_page image.now pos page }
{
    if image[pos] == 3 {
        return name_at(image, pos) == page;
    }
    false
}

// Where the holder's record has the proxy to the page.
pub fn find_proxy(image: &[u8], holder: usize, page: usize) -> usize
    requires { HeldBy image.now holder page }
    ensures { (w : HeldBy image.now holder page) → result ≡ w.pos }
{
    let mut pos = row_start(image, holder);
    while !names(image, pos, page) {
        pos = flat(image, pos);
    }
    pos
}

// The next item after a node, which past the end of a record stands behind the record's proxy; none at the end.
fn item_after(image: &[u8], pos: usize) -> Option<usize>
    requires { NodeAt image.now pos }
    ensures { ItemAfter image.now pos result }
{
    let mut page = pos / Settings::PAGE;
    let mut at = flat(image, pos);
    let mut left: usize = Settings::PAGES;
    while at == record_end(image, page) {
        if page == 1 {
            return None;
        }
        let holder = back_at(image, Settings::PAGE * page);
        at = find_proxy(image, holder, page) + 8;
        page = holder;
        left -= 1;
    }
    Some(at)
}

// The first node of an item: a proxy's is the first of its record.
fn enter(image: &[u8], item: usize) -> usize
    requires { (pos : ℕ) × Ahead image.now pos item }
    ensures { (pos : ℕ) → Ahead image.now pos item → Follows image.now pos result }
{
    let mut at = item;
    let mut left: usize = Settings::PAGES;
    while image[at] == 3 {
        at = row_start(image, name_at(image, at));
        left -= 1;
    }
    at
}

// The node after the one at pos, none at the end.
pub fn next_in(image: &[u8], pos: usize) -> Option<usize>
    requires { NodeAt image.now pos }
    ensures { Nexted image.now pos result }
{
    let item = item_after(image, pos)?;
    Some(enter(image, item))
}

// The kind and the origin of the node at pos.
fn kind_at(image: &[u8], pos: usize) -> Kind
    requires { pos < length image.now }
    ensures { result ≡ kind_of (get_or image.now pos 0) }
{
    if image[pos] == 1 {
        return Kind::Aggregate;
    }
    Kind::Literal
}

fn origin_of(image: &[u8], pos: usize) -> Origin
    requires { pos + 6 ≤ length image.now }
    ensures { result ≡ origin_of (head_at image.now pos).origin }
{
    match origin_at(image, pos) {
        0 => Origin::Wire,
        1 => Origin::Stored,
        2 => Origin::TypedIn,
        _ => Origin::Derived,
    }
}

// Next: the node that follows, or the end.
pub fn next_of(image: &[u8], x: Place) -> Result<Next, Refusal>
    requires { check_of image.now ≡ 0 }
    ensures { next_result result ≡ next_of image.now x }
{
    let Some(pos) = node_at(image, x) else {
        return Err(Refusal::NoPlaceThere);
    };
    let Some(at) = next_in(image, pos) else {
        return Ok(Next::End);
    };
    Ok(Next::Node(NextNode {
        place: Place::of_byte(at),
        kind: kind_at(image, at),
        origin: origin_of(image, at),
    }))
}

// ── what stands at a place ──

// An aggregate; `widths` has how many nodes each record shows.
fn read_agg(image: &[u8], widths: &[u32], pos: usize) -> Details
    requires { (pos + 5 < length image.now) × (pos < most_bytes) × Inner image.now pos × Widths image.now widths.now
        × IsOrigin (head_at image.now pos).origin }
    ensures { (w : Inner image.now pos) → read_result (Ok result) ≡ agg_read image.now pos w.row }
{
    let end = pos + size_at(image, pos);
    let n = width(image, widths, pos + 6, end);
    Details {
        kind: Kind::Aggregate,
        origin: origin_of(image, pos),
        label: label_at(image, pos) as u32,
        children: n as u32,
        start: 0,
        len: 0,
    }
}

// Where the content of a literal starts; an empty one has no place.
pub fn content_at(pos: usize, len: usize) -> usize
    requires { pos < most_bytes }
    ensures { result ≡ cond (eqb len 0) 0 (pos + 6) }
{
    if len == 0 { 0 } else { pos + 6 }
}

fn read_lit(image: &[u8], pos: usize) -> Details
    requires { (pos + 5 < length image.now) × (pos < most_bytes) × (6 ≤ size_at image.now pos) × IsOrigin (head_at image.now pos).origin }
    ensures { read_result (Ok result) ≡ lit_read image.now pos }
{
    let len = size_at(image, pos) - 6;
    Details {
        kind: Kind::Literal,
        origin: origin_of(image, pos),
        label: label_at(image, pos) as u32,
        children: 0,
        start: content_at(pos, len),
        len,
    }
}

// Read: the content is a part of the image.
pub fn read_of(image: &[u8], widths: &[u32], x: Place) -> Result<Details, Refusal>
    requires { (check_of image.now ≡ 0) × Widths image.now widths.now }
    ensures { read_result result ≡ read_of image.now x }
{
    let Some(pos) = node_at(image, x) else {
        return Err(Refusal::NoPlaceThere);
    };
    if image[pos] == 1 {
        return Ok(read_agg(image, widths, pos));
    }
    Ok(read_lit(image, pos))
}
