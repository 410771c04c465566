// One step of a cascade: a separator in the place of the proxy to the record that was split.
#![tactic(auto)]

ghost use Rattle.std.specs.Prelude.{◌≡◌, ◌≤◌, length};
ghost use Rattle.model.specs.Row.{record_size, record_bytes};
ghost use Rattle.base_numbers.specs.Over.{over};
ghost use Rattle.grow_replace_proxy.specs.Seek.{NamesOnce, proxy_position};
ghost use Rattle.grow_replace_proxy.specs.Inner.{Filled, filled_in};
ghost use Rattle.grow_replace_proxy.specs.Lift.{Lift, lifted};

use base_layout::{name_at, size_at, used_at};
use grow_splice::splice;
use model::Settings;

// Where the record has the proxy to the page. Its root is an aggregate or a helper, so its nodes start at 6.
pub fn proxy_in(rec: &[u8], page: usize) -> usize
    requires { NamesOnce rec.now page }
    ensures { (w : NamesOnce rec.now page) → result ≡ proxy_position rec.now page w }
{
    let mut pos = 6;
    loop {
        let kind = rec[pos];
        if kind == 1 {
            pos += 6;
        } else if kind == 3 {
            if name_at(rec, pos) == page {
                return pos;
            }
            pos += 8;
        } else {
            pos += size_at(rec, pos);
        }
    }
}

// Where the node starts that holds the node at `target`; 0 is the root.
fn enclosing(rec: &[u8], target: usize) -> usize
    requires { Filled rec.now target }
    ensures { (w : Filled rec.now target) → result ≡ filled_in rec.now target w }
{
    let mut par = 0;
    let mut pos = 6;
    while pos < target {
        let size = size_at(rec, pos);
        if target < pos + size {
            par = pos;
            pos += 6;
        } else {
            pos += size;
        }
    }
    par
}

// Writes to the front of buf the holder's record with sep in the place of its proxy to the page, and gives its length.
pub fn lift(image: &[u8], holder: usize, page: usize, sep: &[u8], buf: &mut [u8]) -> usize
    requires { Lift image.now holder page sep.now × (4608 ≤ length buf.old) }
    ensures { (w : Lift image.now holder page sep.now)
        → (result ≡ record_size (lifted image.now holder page sep.now w))
        × (buf.new ≡ over 0 (record_bytes (lifted image.now holder page sep.now w)) buf.old) }
{
    let a = Settings::PAGE * holder;
    let e = a + used_at(image, a);
    let rec = &image[a..e];
    let at = proxy_in(rec, page);
    let par = enclosing(rec, at);
    splice(rec, at, par, 8, sep, buf)
}
