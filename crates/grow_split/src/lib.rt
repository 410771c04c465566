// The split of a record in its bytes: the groups of each level become records on free pages, the separator's row is written out.
#![tactic(auto)]

ghost use Rattle.std.specs.Prelude.{◌≡◌, ◌-◌, ◌≤◌, ◌<◌, length};
ghost use Rattle.model.specs.Growth.{start_of_d};
ghost use Rattle.base_layout.specs.Growing.{separator_size};
ghost use Rattle.grow_groups.specs.Used.{tables, Env};
ghost use Rattle.grow_split.specs.Separate.{Sep, Separated};
ghost use Rattle.grow_split.specs.Severed.{Large, Severed};

use base_layout::{Growing, size_at};
use base_numbers::{copy_in, put16};
use grow_groups::put_group;
use grow_split_point::{child, enters, first_node};

// The children of a separator node, or a record's row, from pos to end of the record, and the split point.
#[derive(Clone, Copy)]
pub struct Children {
    pub pos: usize,
    pub end: usize,
    pub p: usize,
}

// Where the separator's row ends in out, whether a page was taken where none was free, and where d starts in the record.
#[derive(Clone, Copy)]
pub struct Split {
    pub end: usize,
    pub full: bool,
    pub d: usize,
}

// Writes the separator's row for a row of buf to out at `at`, and the groups' records to free pages.
pub fn separate(
    buf: &[u8],
    row: Children,
    image: &mut [u8],
    widths: &mut [u32],
    map: &mut [u8],
    g: Growing,
    out: &mut [u8],
    at: usize,
) -> Split
    requires { Env g (tables widths.old map.old) image.old × ((at ≤ length out.old) × ((length out.old < 65536)
        × Sep g row buf.now (tables widths.old map.old) image.old (length out.old - at))) }
    ensures { (w : Sep g row buf.now (tables widths.old map.old) image.old (length out.old - at))
        → Separated w at result out.old (tables widths.new map.new) image.new out.new }
{
    let pos = row.pos;
    let end = row.end;
    let x = child(buf, pos, end, row.p);
    let a = put_group(&buf[pos..x], image, widths, map, g, out, at);
    if enters(buf, x, g.setup.tolerance) {
        let inner = x + 6;
        let next = x + size_at(buf, x);
        copy_in(&buf[x..inner], out, a.end);
        let kids = Children {
            pos: inner,
            end: next,
            p: row.p,
        };
        let b = separate(buf, kids, image, widths, map, g, out, a.end + 6);
        put16(out, a.end + 4, b.end - a.end);
        let c = put_group(&buf[next..end], image, widths, map, g, out, b.end);
        return Split {
            end: c.end,
            full: a.full | b.full | c.full,
            d: b.d,
        };
    }
    let b = put_group(&buf[x..end], image, widths, map, g, out, a.end);
    Split {
        end: b.end,
        full: a.full | b.full,
        d: x,
    }
}

// Writes the separator of the record that buf is, which is too large, to the front of out; a helper root is dropped.
pub fn separator(
    buf: &[u8],
    p: usize,
    image: &mut [u8],
    widths: &mut [u32],
    map: &mut [u8],
    g: Growing,
    out: &mut [u8],
) -> Split
    requires { Env g (tables widths.old map.old) image.old × ((length out.old ≡ separator_size) × Large g p buf.now (tables widths.old map.old)) }
    ensures { (w : Large g p buf.now (tables widths.old map.old)) → Severed w.st g w.row w.work result.end result.full
        (tables widths.old map.old) (tables widths.new map.new) image.old image.new out.old out.new
        × (result.d ≡ start_of_d w.st w.row) }
{
    let row = Children {
        pos: first_node(buf),
        end: buf.len(),
        p,
    };
    separate(buf, row, image, widths, map, g, out, 0)
}
