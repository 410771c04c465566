// From the record that an insert changed upwards: each record is written, or split, and the separator of one that is not settled goes to the record above.
#![tactic(auto)]

ghost use Rattle.std.specs.Prelude.{◌≡◌, length, pos};
ghost use Rattle.base_layout.specs.Growing.{buffer_size};
ghost use Rattle.grow_groups.specs.Used.{tables};
ghost use Rattle.grow_cascade.specs.Rising.{Risen};
ghost use Rattle.grow_cascade.specs.Cascade.{Cascade, goal_of, mem_of};

use base_layout::{Growing, back_at, settled_at};
use grow_replace_proxy::lift;
use grow_split_point::lean_now;
use grow_write_back::{keep, split_off};
use model::Settings;

// What growth counted: whether a page was taken where none was free, the records split, the lean of the first split.
#[derive(Clone, Copy)]
pub struct Grown {
    pub full: bool,
    pub splits: u32,
    pub lean: i32,
}

// The record on the page that `start` is near has the new content buf[..len]; `full` says whether a page was missing before.
pub fn cascade(
    image: &mut [u8],
    widths: &mut [u32],
    map: &mut [u8],
    start: Growing,
    buf: &mut [u8],
    mut len: usize,
    mut full: bool,
) -> Grown
    requires { (length buf.old ≡ buffer_size) × Cascade start len full 0 (pos 0) buf.old (tables widths.old map.old) image.old }
    ensures { (w : Cascade start len full 0 (pos 0) buf.old (tables widths.old map.old) image.old)
        → Risen (goal_of w) (mem_of w) start.dry result image.old image.new
        (tables widths.old map.old) (tables widths.new map.new) }
{
    let setup = start.setup;
    let dry = start.dry;
    let mut near = start.near;
    let mut splits: u32 = 0;
    let mut lean: i32 = 0;
    loop {
        let g = Growing { setup, near, dry };
        let settled = settled_at(image, Settings::PAGE * near);
        let holder = back_at(image, Settings::PAGE * near);
        if len <= Settings::CAPACITY {
            keep(image, g, &buf[..len], settled, holder);
            return Grown { full, splits, lean };
        }
        let mut sep = [0u8; Growing::SEPARATOR];
        let s = split_off(&buf[..len], image, widths, map, g, settled, &mut sep);
        lean = lean_now(splits, lean, s.lean);
        splits = splits + 1;
        full = full | s.full;
        if settled == 1 {
            keep(image, g, &sep[..s.end], settled, holder);
            return Grown { full, splits, lean };
        }
        len = lift(image, holder, near, &sep[..s.end], buf);
        near = holder;
    }
}
