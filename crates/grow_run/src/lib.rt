// One run of an insert on an image that passes the check: the node goes into the record that takes it, and growth goes on from there; and, before it, whether a
// page is missing.
#![tactic(auto)]

ghost use Rattle.std.specs.Prelude.{◌≡◌, true, length};
ghost use Rattle.model.specs.Row.{record_size, record_bytes};
ghost use Rattle.base_numbers.specs.Over.{over};
ghost use Rattle.base_layout.specs.Setup.{setup_on};
ghost use Rattle.base_layout.specs.Growing.{buffer_size};
ghost use Rattle.grow_groups.specs.Used.{Tables, tables};
ghost use Rattle.grow_run.specs.Taken.{Taken, taken};
ghost use Rattle.grow_run.specs.Begin.{Begin, new, Inserted};
ghost use Rattle.grow_run.specs.Unsplit.{wanted};

use base_layout::{Growing, Setup, label_at, used_at};
use base_numbers::copy_in;
use grow_cascade::{Grown, cascade};
use grow_locate::Receiver;
use grow_new_node::{is_apart, place_node};
use grow_splice::splice;
use model::Settings;

// Writes to the front of buf the record on the page with the new node's bytes at byte `at`, in the node at par, and gives its length.
fn take_in(image: &[u8], page: usize, at: usize, par: usize, new: &[u8], buf: &mut [u8]) -> usize
    requires { Taken image.now page at par new.now × (length buf.old ≡ buffer_size) }
    ensures { (w : Taken image.now page at par new.now)
        → (result ≡ record_size (taken w)) × (buf.new ≡ over 0 (record_bytes (taken w)) buf.old) }
{
    let a = Settings::PAGE * page;
    let e = a + used_at(image, a);
    splice(&image[a..e], at, par, 0, new, buf)
}

// Puts the node, whose label is `label`, where the receiver says, as a child of the aggregate at the byte `parent`, with all that growth does. `setup` is what
// page 0 says.
pub fn once(
    image: &mut [u8],
    widths: &mut [u32],
    map: &mut [u8],
    setup: Setup,
    parent: usize,
    t: Receiver,
    label: usize,
    node: &[u8],
    dry: bool,
) -> Grown
    requires { Begin dry image.old (tables widths.old map.old) parent t label node.now × (setup ≡ setup_on image.old) }
    ensures { (w : Begin dry image.old (tables widths.old map.old) parent t label node.now)
        → Inserted w result image.new (tables widths.new map.new) }
{
    let above = label_at(image, parent);
    let g = Growing {
        setup,
        near: t.page,
        dry,
    };
    let mut new = [0u8; Settings::NODE];
    let f = place_node(image, widths, map, g, above, label, node, &mut new);
    let mut buf = [0u8; Growing::BUFFER];
    let len = take_in(image, t.page, t.at, t.par, &new[..f.size], &mut buf);
    cascade(image, widths, map, g, &mut buf, len, f.full)
}

// Whether growth wants a page for the node: the matrix sets it apart, or the record that takes it does not fit with it.
fn wants_page(
    image: &[u8],
    setup: Setup,
    parent: usize,
    t: Receiver,
    label: usize,
    node: &[u8],
) -> bool
    requires { ((u : Tables) × Begin true image.now u parent t label node.now) × (setup ≡ setup_on image.now) }
    ensures { (u : Tables) (w : Begin true image.now u parent t label node.now) → result ≡ wanted w }
{
    if is_apart(image, setup, label_at(image, parent), label) {
        return true;
    }
    Settings::CAPACITY < used_at(image, Settings::PAGE * t.page) + node.len()
}

// Whether growth takes a page where none is free. Where it wants none there is nothing to try; else a dry run on a copy of the map tells.
pub fn is_full(
    image: &mut [u8],
    widths: &mut [u32],
    map: &[u8],
    setup: Setup,
    parent: usize,
    t: Receiver,
    label: usize,
    node: &[u8],
) -> bool
    requires { Begin true image.old (tables widths.old map.now) parent t label node.now × (setup ≡ setup_on image.old) }
    ensures full { (w : Begin true image.old (tables widths.old map.now) parent t label node.now)
        → result ≡ (new w).1.full }
    ensures image { image.new ≡ image.old }
    ensures widths { widths.new ≡ widths.old }
{
    if !wants_page(image, setup, parent, t, label, node) {
        return false;
    }
    let mut trial = [0u8; Settings::MARKS];
    copy_in(map, &mut trial, 0);
    let k = map.len();
    let tried = once(
        image,
        widths,
        &mut trial[..k],
        setup,
        parent,
        t,
        label,
        node,
        true,
    );
    tried.full
}
