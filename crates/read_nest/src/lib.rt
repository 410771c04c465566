// A walk's way through records that are nested in one another: into the record of a proxy, and back out behind it.
#![tactic(auto)]

ghost use Rattle.std.specs.Prelude.{◌≡◌, cond, ◌+◌, ◌/◌, ◌≤◌, ◌<◌, length, set, eqb};
ghost use Rattle.model.specs.Limits.{most_pages, most_levels, page_size};
ghost use Rattle.theory_layout.specs.Here.{PageIn};
ghost use Rattle.read_find.specs.Rowed.{start_on, end_on};
ghost use Rattle.read_cursor.specs.Going.{cursor};
ghost use Rattle.read_nest.specs.Nest.{inner, held_in, stop_of, Leaving, behind_of, outer};

use base_layout::record_end;
use model::Settings;
use read_cursor::{Cursor, STACK};
use read_find::row_start;

// The records that a walk is in: the nodes of the innermost have the level `base`. `depth` of them are nested, and number `since` is the first whose nodes have
// that level: its proxy stands in an aggregate, those of the records inside it do not.
#[derive(Clone, Copy)]
pub struct Nest {
    pub base: usize,
    pub depth: usize,
    pub since: usize,
}

// What a walk keeps of an aggregate in which the proxy of a record stands that it is in: where the aggregate's row ends, and what the walk is in without the
// record.
#[derive(Clone, Copy)]
pub struct Held {
    pub end: usize,
    pub base: usize,
    pub since: usize,
}

impl Held {
    pub const NONE: Held = Held {
        end: 0,
        base: 0,
        since: 0,
    };
}

// Behind a proxy, whose record shows n nodes.
pub fn behind(c: Cursor, n: usize) -> Cursor
    requires { (c.i < 4194304) × (c.n + n ≤ 4194304) }
    ensures { result ≡ cursor (c.i + 8) c.end c.level (c.n + n) c.at c.next }
{
    Cursor {
        i: c.i + 8,
        n: c.n + n,
        ..c
    }
}

// At the first node of the record on a page. The count goes on from the row in which its proxy stands.
pub fn first(image: &[u8], page: usize, c: Cursor) -> Cursor
    requires { PageIn image.now page }
    ensures { result ≡ cursor (start_on image.now page) (end_on image.now page) c.level c.n c.at c.next }
{
    Cursor {
        i: row_start(image, page),
        end: record_end(image, page),
        ..c
    }
}

// Into the record on page p, whose proxy is at the cursor: `back` keeps where its row goes on behind it. Where that is the row of an aggregate, `held` keeps
// what the walk needs to come back to it.
pub fn into_record(c: Cursor, w: Nest, p: usize, back: &mut [u32], held: &mut [Held; STACK]) -> Nest
    requires { (c.i < 4194304) × (p < length back.old) × (c.level ≤ most_levels) × (w.depth < most_pages) }
    ensures nest { result ≡ inner c w }
    ensures back { back.new ≡ set back.old p (c.i + 8) }
    ensures held { held.new ≡ held_in c w held.old }
{
    let level = c.level;
    let depth = w.depth + 1;
    back[p] = (c.i + 8) as u32;
    if level == w.base {
        return Nest { depth, ..w };
    }
    held[level] = Held {
        end: c.end,
        base: w.base,
        since: w.since,
    };
    Nest {
        base: level,
        depth,
        since: depth,
    }
}

// Where the row ends in which the proxy stands, once the walk is behind it, at byte i: it is an aggregate's, or the whole row of a record.
fn row_stop(image: &[u8], i: usize, level: usize, w: Nest, held: &[Held; STACK]) -> usize
    requires { (level ≤ most_levels) × ((w.depth ≡ w.since → ⊥) → PageIn image.now (i / page_size)) }
    ensures { result ≡ stop_of image.now i level w held.now }
{
    if w.depth == w.since {
        return held[level].end;
    }
    record_end(image, i / Settings::PAGE)
}

// Out of the record at whose end the cursor is, behind its proxy.
pub fn behind_record(image: &[u8], c: Cursor, w: Nest, back: &[u32], held: &[Held; STACK]) -> Cursor
    requires { Leaving image.now c w back.now }
    ensures { result ≡ behind_of image.now c w back.now held.now }
{
    let page = c.i / Settings::PAGE;
    let i = back[page] as usize;
    Cursor {
        i,
        end: row_stop(image, i, c.level, w, held),
        ..c
    }
}

// What the walk is in then.
pub fn around(c: Cursor, w: Nest, held: &[Held; STACK]) -> Nest
    requires { (c.level ≤ most_levels) × (1 ≤ w.depth) }
    ensures { result ≡ outer c w held.now }
{
    let depth = w.depth - 1;
    if w.depth == w.since {
        let Held { base, since, .. } = held[c.level];
        return Nest { base, depth, since };
    }
    Nest { depth, ..w }
}
