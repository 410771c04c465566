// What an insert does to the record that it changed: the record goes back to its page, or it is split.
#![tactic(auto)]

ghost use Rattle.std.specs.Prelude.{◌≡◌, Bool, cond, ◌+◌, ◌*◌, ◌/◌, ◌≤◌, ◌<◌, length};
ghost use Rattle.model.specs.Limits.{most_pages, page_size};
ghost use Rattle.model.specs.Growth.{lean_of};
ghost use Rattle.base_layout.specs.Growing.{separator_size};
ghost use Rattle.grow_pages.specs.Relinked.{written};
ghost use Rattle.grow_groups.specs.Used.{tables, Env};
ghost use Rattle.grow_write_back.specs.Content.{Content};
ghost use Rattle.grow_write_back.specs.Off.{left_image, left_map, Off, SplitOff};

use base_layout::Growing;
use grow_map::set_free;
use grow_pages::{clear_page, put_record, relink};
use grow_split::separator;
use grow_split_point::{first_node, lean, split_point};

// Where the separator's row ends in out, whether a page was taken where none was free, and the lean.
#[derive(Clone, Copy)]
pub struct Divided {
    pub end: usize,
    pub full: bool,
    pub lean: i32,
}

// Writes a record's new content to its page, and the back links of the records that it holds.
pub fn keep(image: &mut [u8], g: Growing, content: &[u8], settled: usize, holder: usize)
    requires { (g.setup.pages ≤ most_pages) × ((page_size * g.setup.pages ≤ length image.old) × ((g.near < g.setup.pages)
        × ((settled ≤ 1) × ((holder < most_pages) × Content content.now g.setup.pages)))) }
    ensures { (w : Content content.now g.setup.pages) (s : Bool) → settled ≡ cond s 1 0
        → image.new ≡ cond g.dry image.old (written g.near s holder w.row image.old) }
{
    if g.dry {
        return;
    }
    put_record(image, g.near, content, settled, holder);
    let from = first_node(content);
    relink(&content[from..], image, g.setup.pages, g.near);
}

// Frees the page of a record that is split, unless the record is settled.
pub fn leave(image: &mut [u8], map: &mut [u8], g: Growing, settled: usize)
    requires { (g.near < most_pages) × (page_size * g.near + page_size ≤ length image.old) × (g.near / 8 < length map.old) }
    ensures { (stays : Bool) → settled ≡ cond stays 1 0
        → (map.new ≡ left_map g stays map.old)
        × (image.new ≡ left_image g stays image.old) }
{
    let page = g.near;
    let dry = g.dry;
    if settled != 0 {
        return;
    }
    set_free(map, page);
    if dry {
        return;
    }
    clear_page(image, page);
}

// Splits the record that buf is, which is too large: its page is free before the groups are placed, unless it is settled.
// The separator's row goes to the front of out.
pub fn split_off(
    buf: &[u8],
    image: &mut [u8],
    widths: &mut [u32],
    map: &mut [u8],
    g: Growing,
    settled: usize,
    out: &mut [u8],
) -> Divided
    requires { Env g (tables widths.old map.old) image.old
        × ((length out.old ≡ separator_size) × Off g settled buf.now (tables widths.old map.old)) }
    ensures { (w : Off g settled buf.now (tables widths.old map.old))
        → SplitOff w.st g w.row w.work w.stays result.end result.full
        (tables widths.old map.old) (tables widths.new map.new) image.old image.new out.old out.new
        × (result.lean ≡ lean_of w.st w.row) }
{
    leave(image, map, g, settled);
    let p = split_point(g.setup.target, buf.len());
    let s = separator(buf, p, image, widths, map, g, out);
    Divided {
        end: s.end,
        full: s.full,
        lean: lean(s.d, p),
    }
}
