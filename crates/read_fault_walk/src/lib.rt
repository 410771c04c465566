// The walk of a diagnosis: a row of nodes, each followed by the row that it leads into, to the page in which it stops and why.
#![tactic(auto)]

ghost use Rattle.std.specs.Prelude.{◌≡◌, true, ◌*◌, ◌≤◌, length, IfOk};
ghost use Rattle.model.specs.Limits.{most_pages, page_size};
ghost use Rattle.model.specs.Reading.{length_ok, used_at};
ghost use Rattle.theory_check.specs.Check.{PassedBefore};
ghost use Rattle.theory_check.specs.Marks.{IsMarks};
ghost use Rattle.read_fault_nodes.specs.Rows.{holder_number, Within, Holds, walk_of, record_walk, Ends, Stays};

use base_layout::record_end;
use base_ranges::{FEW, Tables, tables_for};
use model::{Reason, Settings};
use read_fault_nodes::{Holder, PROXY, Stop, first, last_own, record_row};
use read_nodes::head;

// The nodes of a row, each followed by the row that it leads into. The walk goes into the record of a proxy and comes back out of it: `depth` is how many
// records it is in, and `back` keeps for the page of each where in the image the row goes on behind its proxy. So only levels cost a call, and the last
// aggregate of the call's own row takes its place instead.
fn row_walk(
    image: &[u8],
    start: usize,
    stop: usize,
    mut holder: Holder,
    mut level: usize,
    left: usize,
    marks: &mut [u8; Settings::MARKS],
    back: &mut [u32],
) -> Result<usize, Stop>
    requires { PassedBefore image.now × Within image.now start stop (holder_number holder) level × (start ≤ stop) × (holder_number holder ≡ 0 → ⊥)
        × IsMarks marks.old × (length image.now ≤ page_size * length back.old) }
    ensures { Ends (walk_of image.now start stop (holder_number holder) level left) marks.old marks.new result
        × IfOk result (Stays left marks.old back.old marks.new back.new) }
{
    let mut at = start;
    let mut end = stop;
    let mut kind = holder;
    let mut rest = left;
    let mut depth: usize = 0;
    loop {
        if at == end {
            if depth == 0 {
                return Ok(rest);
            }
            at = back[at / Settings::PAGE] as usize;
            depth -= 1;
            // A proxy stands in the call's own row, or in a helper's.
            if depth == 0 {
                end = stop;
                kind = holder;
            } else {
                end = record_end(image, at / Settings::PAGE);
                kind = Holder::Helper;
            }
        } else {
            let x = first(image, at, end, kind, level, rest, marks)?;
            match x.holder {
                Holder::Record => {
                    back[x.start / Settings::PAGE] = (at + PROXY) as u32;
                    depth += 1;
                    rest = x.left;
                    kind = Holder::Record;
                    at = x.start;
                    end = x.stop;
                }
                // A helper is its record's only node, so the row ends where it did.
                Holder::Helper => {
                    kind = Holder::Helper;
                    at = x.start;
                }
                Holder::Literal => at = x.stop,
                Holder::Aggregate => {
                    if x.start == x.stop {
                        at = x.stop;
                    } else if last_own(depth, x.stop, stop) {
                        holder = Holder::Aggregate;
                        level = x.level;
                        kind = Holder::Aggregate;
                        at = x.start;
                    } else {
                        rest = row_walk(
                            image,
                            x.start,
                            x.stop,
                            Holder::Aggregate,
                            x.level,
                            rest,
                            marks,
                            back,
                        )?;
                        at = x.stop;
                    }
                }
            }
        }
    }
}

// The walk from page 1, whose root is an aggregate.
fn walk_root(
    image: &[u8],
    left: usize,
    marks: &mut [u8; Settings::MARKS],
    back: &mut [u32],
) -> Result<usize, Stop>
    requires { PassedBefore image.now × Holds image.now 1 × (1 ≤ used_at image.now page_size) × IsMarks marks.old
        × (length image.now ≤ page_size * length back.old) }
    ensures { Ends (record_walk image.now left) marks.old marks.new result }
{
    if image[Settings::PAGE] != 1 {
        return Err(Stop::new(1, Reason::BadNode));
    }
    let x = record_row(image, true, 1, 1, left)?;
    if head(&image[x.start..x.stop], 0) != 1 {
        return Err(Stop::new(1, Reason::BadNode));
    }
    let a = x.start + 6;
    row_walk(image, a, x.stop, Holder::Aggregate, 2, left, marks, back)
}

// The walk with ways back for N pages.
fn walk_sized<const N: usize>(
    image: &[u8],
    left: usize,
    marks: &mut [u8; Settings::MARKS],
) -> Result<usize, Stop>
    requires { PassedBefore image.now × Holds image.now 1 × (1 ≤ used_at image.now page_size) × IsMarks marks.old
        × (length image.now ≤ page_size * N) × (N ≤ most_pages) }
    ensures { Ends (record_walk image.now left) marks.old marks.new result }
{
    let mut back = [0u32; N];
    walk_root(image, left, marks, &mut back)
}

// The same, with ways back of the size that the image takes.
pub fn record_walk(
    image: &[u8],
    left: usize,
    marks: &mut [u8; Settings::MARKS],
) -> Result<usize, Stop>
    requires { PassedBefore image.now × Holds image.now 1 × (1 ≤ used_at image.now page_size) × IsMarks marks.old
        × (length_ok (length image.now) ≡ true) }
    ensures { Ends (record_walk image.now left) marks.old marks.new result }
{
    match tables_for(image.len()) {
        Tables::Few => walk_sized::<FEW>(image, left, marks),
        Tables::Many => walk_sized::<{ Settings::PAGES }>(image, left, marks),
    }
}
