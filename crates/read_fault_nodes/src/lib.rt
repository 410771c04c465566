// What a node leads into, for the walk of a diagnosis: a row of nodes, or the page in which the walk stops and why.
#![tactic(auto)]

ghost use Rattle.std.specs.Prelude.{◌≡◌, true, ◌+◌, ◌≤◌};
ghost use Rattle.model.specs.Limits.{most_levels};
ghost use Rattle.theory_check.specs.Check.{PassedBefore};
ghost use Rattle.read_fault_nodes.specs.Rows.{Within, Holds, stop_at, Rooted, Opened, Into, Leads, LeadsTo, record_on, proxy_to};
ghost use Rattle.read_fault_nodes.specs.Rows.{holder_number, inside_of, next_of, Sized, first_of};

use base_layout::{name_at, used_at};
use base_marks::{is_marked, set_mark};
use model::{Reason, Settings};
use read_marks::{names, root_fits, tail_zero};
use read_nodes::{head, size_of};

// A proxy's bytes.
pub const PROXY: usize = 8;

// ── what a node leads into ──

// What holds a row of nodes: a record's page, or a node of this kind.
#[derive(Clone, Copy)]
pub enum Holder {
    Record,
    Aggregate,
    Literal,
    Helper,
}

impl Holder {
    // As a kind, 0 for a record's page.
    pub fn number(self) -> usize
        ensures { result ≡ holder_number self }
    {
        match self {
            Holder::Record => 0,
            Holder::Aggregate => 1,
            Holder::Literal => 2,
            Holder::Helper => 4,
        }
    }
}

// A row of nodes: its bytes, what holds them, their level, and what is left to be reached. Its page is the one that it starts in. A literal's row is empty.
#[derive(Clone, Copy)]
pub struct Inner {
    pub start: usize,
    pub stop: usize,
    pub holder: Holder,
    pub level: usize,
    pub left: usize,
}

// The page in which a walk stops, and why.
#[derive(Clone, Copy)]
pub struct Stop {
    pub page: usize,
    pub reason: Reason,
}

impl Stop {
    pub fn new(page: usize, reason: Reason) -> Stop
        ensures { result ≡ stop_at page reason }
    {
        Stop { page, reason }
    }
}

// The record of page p, if its root may be one: a row of one node, which takes all of the length used.
pub fn record_row(
    image: &[u8],
    root_ok: bool,
    p: usize,
    level: usize,
    left: usize,
) -> Result<Inner, Stop>
    requires { Holds image.now p × (level ≤ most_levels + 1) }
    ensures { LeadsTo image.now (record_on image.now root_ok p level left) (Rooted image.now p level left) result }
{
    if !root_ok {
        return Err(Stop::new(p, Reason::BadNode));
    }
    if !tail_zero(image, p) {
        return Err(Stop::new(p, Reason::PastLength));
    }
    let start = Settings::PAGE * p;
    let n = used_at(image, start);
    let stop = start + n;
    if size_of(&image[start..stop]) != n {
        return Err(Stop::new(p, Reason::BadNode));
    }
    Ok(Inner {
        start,
        stop,
        holder: Holder::Record,
        level,
        left,
    })
}

// Page p, which a proxy in the record of `page` names, is a record's, has its back link here, and is reached for the first time.
fn proxy_row(
    image: &[u8],
    p: usize,
    page: usize,
    level: usize,
    left: usize,
    marks: &mut [u8; Settings::MARKS],
) -> Result<Inner, Stop>
    requires { PassedBefore image.now × (level ≤ most_levels + 1) }
    ensures { Leads image.now (proxy_to image.now p page level left)
        (Opened image.now p level left marks.old marks.new) marks.old marks.new result }
{
    if !names(image, p, page) || left < 2 || is_marked(marks, p) {
        return Err(Stop::new(page, Reason::BadProxy));
    }
    set_mark(marks, p);
    record_row(image, root_fits(image, p), p, level, left - 1)
}

// What the node from i to next leads into, inside such a holder.
fn inside(
    image: &[u8],
    i: usize,
    next: usize,
    holder: Holder,
    level: usize,
    left: usize,
    marks: &mut [u8; Settings::MARKS],
) -> Result<Inner, Stop>
    requires { PassedBefore image.now × Within image.now i next (holder_number holder) level × (i + 6 ≤ next) }
    ensures { Leads image.now (inside_of image.now i next (holder_number holder) level left)
        (Into image.now i next (holder_number holder) level left marks.old marks.new) marks.old marks.new result }
{
    let page = i / Settings::PAGE;
    let part = &image[i..next];
    let kind = head(part, holder.number());
    let row = Inner {
        start: i + 6,
        stop: next,
        holder: Holder::Helper,
        level,
        left,
    };
    match kind {
        0 => Err(Stop::new(page, Reason::BadNode)),
        3 => {
            if part.len() != PROXY {
                return Err(Stop::new(page, Reason::BadNode));
            }
            proxy_row(image, name_at(part, 0), page, level, left, marks)
        }
        4 => Ok(row),
        _ => {
            if Settings::LEVELS < level {
                return Err(Stop::new(page, Reason::TooDeep));
            }
            if kind == 2 {
                Ok(Inner {
                    start: next,
                    holder: Holder::Literal,
                    ..row
                })
            } else {
                Ok(Inner {
                    holder: Holder::Aggregate,
                    level: level + 1,
                    ..row
                })
            }
        }
    }
}

// What the first node of the row from i to stop leads into.
pub fn first(
    image: &[u8],
    i: usize,
    stop: usize,
    holder: Holder,
    level: usize,
    left: usize,
    marks: &mut [u8; Settings::MARKS],
) -> Result<Inner, Stop>
    requires { PassedBefore image.now × Within image.now i stop (holder_number holder) level × (i ≤ stop) }
    ensures { Leads image.now (first_of image.now i stop (holder_number holder) level left)
        (λ x. Into image.now i (next_of image.now i stop) (holder_number holder) level left marks.old marks.new x
        × Sized image.now i stop)
        marks.old marks.new result }
{
    let n = size_of(&image[i..stop]);
    if n == 0 {
        return Err(Stop::new(i / Settings::PAGE, Reason::BadNode));
    }
    inside(image, i, i + n, holder, level, left, marks)
}

// ── the walk ──

// Whether a row that ends at `end` is the last of the call's own, so that its nodes may take its place.
pub fn last_own(depth: usize, end: usize, stop: usize) -> bool
    ensures { result ≡ true → (depth ≡ 0) × (end ≡ stop) }
{
    depth == 0 && end == stop
}
