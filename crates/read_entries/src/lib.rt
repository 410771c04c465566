// Walk on an image that passes the check: entries of nine numbers, node by node in document order.
#![tactic(auto)]

ghost use Rattle.std.specs.Prelude.{◌≡◌, true, cond, eqb, List, ℕ, ◌+◌, ◌*◌, ◌≤◌, ◌<◌, length};
ghost use Rattle.model.specs.Limits.{most_pages, page_size};
ghost use Rattle.model.specs.Reading.{length_ok};
ghost use Rattle.model.specs.Answers.{walked_to, walk_result};
ghost use Rattle.model.specs.Calls.Check.{check_of};
ghost use Rattle.model.specs.Calls.Walk.{walk_of};
ghost use Rattle.theory_layout.specs.Widths.{Widths};
ghost use Rattle.base_ranges.specs.Tables.{Zeros};
ghost use Rattle.read_find.specs.Rowed.{start_on};
ghost use Rattle.read_cursor.specs.Way.{way, visits};
ghost use Rattle.read_cursor.specs.Meets.{meets};
ghost use Rattle.read_cursor.specs.declared.Level.{Level};
ghost use Rattle.read_cursor.specs.Going.{reached, Goal, Going, writes as writes_of};
ghost use Rattle.read_entries.specs.Told.{placed};
ghost use Rattle.read_entries.specs.Literals.{literal_next};
ghost use Rattle.read_entries.specs.Records.{Rooted};

use base_layout::name_at;
use base_ranges::{FEW, Tables, tables_for};
use model::{Place, Refusal, Settings, Walked};
use read_cursor::{Cursor, Level, STACK, close, node, write_aggregate, write_literal};
use read_nest::{Held, Nest, around, behind, behind_record, first, into_record};
use read_next::node_at;

// Whether there is room for an entry, and it is to be written.
fn writes(c: Cursor, room: usize) -> bool
    requires { c.at ≤ room + 1 }
    ensures { result ≡ writes_of c room }
{
    c.at != 0 && c.next == 0 && 9 <= room - (c.at - 1)
}

// Whether a literal is next, and there is room for its entry.
fn at_literal(image: &[u8], c: Cursor, room: usize) -> bool
    requires { ((c.i ≡ c.end → ⊥) → c.i < length image.now) × (1 ≤ c.at) × (c.at ≤ room + 1) }
    ensures { result ≡ literal_next image.now c room }
{
    c.i != c.end && image[c.i] == 2 && 9 <= room - (c.at - 1)
}

// Past literals as long as there is room for their entries. Only three numbers of the cursor change here.
fn literals(image: &[u8], from: Cursor, out: &mut [u32]) -> Cursor
    requires { ((target : ℕ) × (g : Goal) × (stack : List Level) × Going image.now target g from stack out.old) × (1 ≤ from.at) × (from.next ≡ 0) }
    ensures goes { (target : ℕ) (g : Goal) (stack : List Level) → Going image.now target g from stack out.old
        → Going image.now target g result stack out.new }
    ensures moves { (from.i ≤ result.i) × (result.level ≡ from.level)
        × (literal_next image.now from (length out.old) ≡ true → from.i < result.i) }
{
    let mut c = from;
    while at_literal(image, c, out.len()) {
        c = write_literal(image, c, out);
    }
    c
}

// On in a record as long as entries are written, to the next proxy or the record's end. Two loops with little to remember, this one and that over literals,
// since nearly all nodes are passed here.
fn run(
    image: &[u8],
    from: Cursor,
    level: usize,
    stack: &mut [Level; STACK],
    out: &mut [u32],
) -> Cursor
    requires { (target : ℕ) × (g : Goal) × Going image.now target g from stack.old out.old × (g.base ≡ level) }
    ensures goes { (target : ℕ) (g : Goal) → Going image.now target g from stack.old out.old → g.base ≡ level
        → Going image.now target g result stack.new out.new }
    ensures moves { (from.i ≤ result.i) × (result.level + from.i ≤ from.level + result.i) }
{
    let mut c = from;
    while writes(c, out.len()) {
        let i = c.i;
        if i == c.end {
            if c.level == level {
                return c;
            }
            c = close(c, stack, out);
        } else {
            let kind = image[i];
            if kind == 3 {
                return c;
            }
            if kind == 2 {
                c = literals(image, c, out);
            } else {
                c = write_aggregate(image, c, stack, out);
            }
        }
    }
    c
}

// ── from record to record ──

// A walk over the record on page 1 and all records below it, each where its proxy stands; once the walk has stopped, `widths` has how many nodes each shows.
// `back` keeps the ways out of the records: at the start it has none.
fn walk_records(
    image: &[u8],
    widths: &[u32],
    target: usize,
    back: &mut [u32],
    out: &mut [u32],
) -> Cursor
    requires { Rooted image.now × Widths image.now widths.now × Zeros back.old × (length image.now ≤ page_size * length back.old) }
    ensures { (w : Rooted image.now) → reached result out.new
        ≡ visits target (way 0 0 out.old) (meets 1 (start_on image.now 1) w.recorded.rowed.row) }
{
    let mut stack = [Level::NONE; STACK];
    let mut held = [Held::NONE; STACK];
    let mut c = first(image, 1, Cursor::START);
    let mut w = Nest {
        base: 1,
        depth: 0,
        since: 0,
    };
    loop {
        let d = run(image, c, w.base, &mut stack, out);
        let i = d.i;
        if i == d.end {
            if d.level != w.base {
                c = close(d, &stack, out);
            } else {
                if w.depth == 0 {
                    return d;
                }
                c = behind_record(image, d, w, back, &held);
                w = around(d, w, &held);
            }
        } else if image[i] != 3 {
            c = node(image, d, target, &mut stack, out);
        } else {
            let p = name_at(image, i);
            if d.next != 0 {
                c = behind(d, widths[p] as usize);
            } else {
                w = into_record(d, w, p, back, &mut held);
                c = first(image, p, d);
            }
        }
    }
}

// The walk with ways out for N pages.
fn walk_sized<const N: usize>(
    image: &[u8],
    widths: &[u32],
    target: usize,
    out: &mut [u32],
) -> Cursor
    requires { Rooted image.now × Widths image.now widths.now × (length image.now ≤ page_size * N) × (N ≤ most_pages) }
    ensures { (w : Rooted image.now) → reached result out.new
        ≡ visits target (way 0 0 out.old) (meets 1 (start_on image.now 1) w.recorded.rowed.row) }
{
    let mut back = [0u32; N];
    walk_records(image, widths, target, &mut back, out)
}

// The walk, with ways out of the size that the image takes.
fn walk(image: &[u8], widths: &[u32], target: usize, out: &mut [u32]) -> Cursor
    requires { Rooted image.now × Widths image.now widths.now × (length_ok (length image.now) ≡ true) }
    ensures { (w : Rooted image.now) → reached result out.new
        ≡ visits target (way 0 0 out.old) (meets 1 (start_on image.now 1) w.recorded.rowed.row) }
{
    match tables_for(image.len()) {
        Tables::Few => walk_sized::<FEW>(image, widths, target, out),
        Tables::Many => walk_sized::<{ Settings::PAGES }>(image, widths, target, out),
    }
}

// ── the call ──

// The place of the first node that was not written, if there is one.
fn follows(next: usize) -> Option<Place>
    ensures { (k : ℕ) → walked_to k result ≡ record { number = 0; written = k; more = cond (eqb next 0) 0 1; next = placed next } }
{
    if next == 0 {
        return None;
    }
    Some(Place::of_byte(next))
}

// Walk: how many entries are written, and where it stops.
pub fn walk_of(image: &[u8], widths: &[u32], x: Place, out: &mut [u32]) -> Result<Walked, Refusal>
    requires { (check_of image.now ≡ 0) × Widths image.now widths.now }
    ensures answer { walk_result result ≡ (walk_of image.now x out.old).0 }
    ensures out { out.new ≡ (walk_of image.now x out.old).1 }
{
    let Some(target) = node_at(image, x) else {
        return Err(Refusal::NoPlaceThere);
    };
    let r = walk(image, widths, target, out);
    Ok(Walked {
        written: (r.at - 1) / 9,
        next: follows(r.next),
    })
}
