// A group of a split in its bytes: it stays, or becomes a record on a free page and its proxy takes its place.
#![tactic(auto)]

ghost use Rattle.std.specs.Prelude.{◌≡◌, false, cond, ◌+◌, ◌-◌, ◌*◌, ◌≤◌, ◌<◌, length, set};
ghost use Rattle.model.specs.Limits.{most_pages, page_size, capacity};
ghost use Rattle.model.specs.Row.{record_bytes};
ghost use Rattle.base_numbers.specs.Over.{over};
ghost use Rattle.grow_pages.specs.Write.{set_page, page_bytes_of};
ghost use Rattle.grow_pages.specs.Relinked.{written};
ghost use Rattle.theory_page_memory.specs.Memory.{group_m};
ghost use Rattle.grow_widths.specs.Tally.{number_of};
ghost use Rattle.grow_groups.specs.Used.{tables, Env};
ghost use Rattle.grow_groups.specs.Step.{Step};
ghost use Rattle.grow_groups.specs.Group.{proxy_bytes, helper_bytes, NewRecord, Grouping};

use base_layout::{Growing, size_at};
use base_numbers::{copy_in, put16};
use grow_map::{first_free, set_used};
use grow_pages::{close_record, put_record, relink};
use grow_split_point::stays;
use grow_widths::number;
use model::Settings;

// Where the written part of the separator ends, and whether a page was taken where none was free.
#[derive(Clone, Copy)]
pub struct Output {
    pub end: usize,
    pub full: bool,
}

// Writes the proxy of the record on page q.
pub fn put_proxy(out: &mut [u8], at: usize, q: usize)
    requires { (at + 8 ≤ length out.old) × (q < 65536) }
    ensures { out.new ≡ over at (proxy_bytes q) out.old }
{
    put16(out, at, 3);
    put16(out, at + 2, 0);
    put16(out, at + 4, 8);
    put16(out, at + 6, q);
}

// Writes the record of a helper with these nodes to page q. The holder is set later.
fn put_helper(image: &mut [u8], q: usize, part: &[u8])
    requires { (q < most_pages) × ((page_size * q + page_size ≤ length image.old) × (length part.now + 6 ≤ capacity)) }
    ensures { image.new ≡ set_page q (page_bytes_of (helper_bytes part.now) 0 0) image.old }
{
    let base = Settings::PAGE * q;
    let n = part.len() + 6;
    put16(image, base, 4);
    put16(image, base + 2, 0);
    put16(image, base + 4, n);
    copy_in(part, image, base + 6);
    close_record(image, q, n, 0, 0);
}

// Writes a group's record to page q: the group itself if it is one node, else a helper with it. The holder is set later.
pub fn put_content(image: &mut [u8], pages: usize, q: usize, part: &[u8])
    requires { (q < most_pages) × ((page_size * q + page_size ≤ length image.old) × NewRecord part.now pages) }
    ensures { (w : NewRecord part.now pages)
        → image.new ≡ set_page q (page_bytes_of (record_bytes w.row) 0 0) image.old }
{
    if size_at(part, 0) == part.len() {
        put_record(image, q, part, 0, 0);
    } else {
        put_helper(image, q, part);
    }
}

// Writes a group's record to page q, and the back links of the records that it holds.
pub fn put_nodes(image: &mut [u8], pages: usize, q: usize, part: &[u8])
    requires { (pages ≤ most_pages) × ((page_size * pages ≤ length image.old) × ((q < pages) × NewRecord part.now pages)) }
    ensures { (w : NewRecord part.now pages) → image.new ≡ written q false 0 w.row image.old }
{
    put_content(image, pages, q, part);
    relink(part, image, pages, q);
}

// Unless the run is dry, writes a group's record to page q, and to the table how many nodes it shows.
fn put_new(image: &mut [u8], widths: &mut [u32], pages: usize, q: usize, part: &[u8], dry: bool)
    requires { (pages ≤ most_pages) × (page_size * pages ≤ length image.old) × (q < pages) × (pages ≤ length widths.old) × NewRecord part.now pages }
    ensures image { (w : NewRecord part.now pages)
        → image.new ≡ cond dry image.old (written q false 0 w.row image.old) }
    ensures widths { (w : NewRecord part.now pages)
        → widths.new ≡ cond dry widths.old (set widths.old q (number_of widths.old w.row)) }
{
    if dry {
        return;
    }
    let n = number(part, widths);
    widths[q] = n;
    put_nodes(image, pages, q, part);
}

// Writes what stands for a group to out at `at`: the group, or the proxy of its new record.
pub fn put_group(
    part: &[u8],
    image: &mut [u8],
    widths: &mut [u32],
    map: &mut [u8],
    g: Growing,
    out: &mut [u8],
    at: usize,
) -> Output
    requires { Env g (tables widths.old map.old) image.old
        × ((at ≤ length out.old) × Grouping g part.now (tables widths.old map.old) image.old (length out.old - at)) }
    ensures { (w : Grouping g part.now (tables widths.old map.old) image.old (length out.old - at))
        → Step g w.row w.state (group_m w.st g.near w.row w.state) at result.end result.full
        (tables widths.old map.old) image.old out.old
        (tables widths.new map.new) image.new out.new }
{
    if stays(part) {
        copy_in(part, out, at);
        return Output {
            end: at + part.len(),
            full: false,
        };
    }
    let q = first_free(map, g.near);
    set_used(map, q);
    put_new(image, widths, g.setup.pages, q, part, g.dry);
    put_proxy(out, at, q);
    Output {
        end: at + 8,
        full: q == 0,
    }
}
