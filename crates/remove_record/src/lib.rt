// The record that is left when one of its nodes goes.
#![tactic(auto)]

ghost use Rattle.std.specs.Prelude.{◌≤◌, length};
ghost use Rattle.model.specs.Limits.{capacity};
ghost use Rattle.remove_record.specs.Sibling.{Losing, SiblingIs};
ghost use Rattle.remove_record.specs.Reduced.{Removing, Reduced};

use base_layout::{name_at, size_at, used_at};
use base_numbers::copy_in;
use grow_splice::splice;
use model::Settings;

// What is left of a record: its new content, so many bytes at the buffer's front; or, where a helper is left with one proxy, the page that this names.
#[derive(Clone, Copy)]
pub enum Remnant {
    Record(usize),
    Proxy(usize),
}

// The only other child of a helper: the record's bytes from `start` to `end`.
#[derive(Clone, Copy)]
struct Sibling {
    start: usize,
    end: usize,
}

// The only sibling of the node at byte `at` of the record, in the node at par, if it is one of a helper's two children.
fn only_sibling(rec: &[u8], at: usize, par: usize) -> Option<Sibling>
    requires { Losing rec.now at par }
    ensures { (w : Losing rec.now at par) → SiblingIs w result }
{
    if par != 0 {
        return None;
    }
    if rec[0] != 4 {
        return None;
    }
    let second = 6 + size_at(rec, 6);
    let end = second + size_at(rec, second);
    if end != rec.len() {
        return None;
    }
    if at == 6 {
        return Some(Sibling { start: second, end });
    }
    Some(Sibling {
        start: 6,
        end: second,
    })
}

// Writes to the front of buf what is left of the record on the page without the node or proxy of `gone` bytes at byte `at` of it, in the node at par.
pub fn take_out(
    image: &[u8],
    page: usize,
    at: usize,
    par: usize,
    gone: usize,
    buf: &mut [u8],
) -> Remnant
    requires { Removing image.now page at par gone × (capacity ≤ length buf.old) }
    ensures { (w : Removing image.now page at par gone) → Reduced w result buf.old buf.new }
{
    let a = Settings::PAGE * page;
    let e = a + used_at(image, a);
    let rec = &image[a..e];
    let Some(sibling) = only_sibling(rec, at, par) else {
        let len = splice(rec, at, par, gone, &rec[..0], buf);
        return Remnant::Record(len);
    };
    let start = sibling.start;
    if rec[start] == 3 {
        return Remnant::Proxy(name_at(rec, start));
    }
    let end = sibling.end;
    copy_in(&rec[start..end], buf, 0);
    Remnant::Record(end - start)
}
