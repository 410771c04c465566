// A removal on an image that passes the check.
#![tactic(auto)]

ghost use Rattle.std.specs.Prelude.{◌≡◌};
ghost use Rattle.model.specs.Answers.{result_number};
ghost use Rattle.model.specs.Calls.Check.{check_of};
ghost use Rattle.model.specs.Calls.Remove.{remove_of};
ghost use Rattle.theory_layout.specs.Widths.{Widths};
ghost use Rattle.grow_map.specs.Mapped.{Mapped};
ghost use Rattle.remove_node.specs.Going.{Going};
ghost use Rattle.remove_node.specs.Gone.{Gone};

use base_layout::{back_at, settled_at};
use base_marks::clear_mark;
use grow_pages::put_record;
use grow_widths::one_less;
use model::{Refusal, Settings};
use remove_branch::free_branch;
use remove_lift::lift_child;
use remove_locate::Standing;
use remove_path::locate;
use remove_record::{Remnant, take_out};

// Takes out what stands there, with all below it: what is left of the record is worked out before the branch's pages are zeroed, and written after it.
fn remove_at(image: &mut [u8], widths: &mut [u32], map: &mut [u8], s: Standing)
    requires { Going image.old widths.old map.old s }
    ensures { (w : Going image.old widths.old map.old s)
        → Gone w image.new widths.new map.new }
{
    let page = s.page;
    let at = s.at;
    let gone = s.gone;
    let a = Settings::PAGE * page;
    let settled = settled_at(image, a);
    let holder = back_at(image, a);
    one_less(image, widths, page, s.deep);
    let mut buf = [0u8; Settings::CAPACITY];
    let left = take_out(image, page, at, s.par, gone, &mut buf);
    let start = a + at;
    free_branch(image, map, start, start + gone);
    match left {
        Remnant::Proxy(child) => {
            lift_child(image, page, child);
            clear_mark(map, page);
        }
        Remnant::Record(len) => put_record(image, page, &buf[..len], settled, holder),
    }
}

// Remove, on an image that passes the check, with its table and its map, which are right for the image that is left. All that is read of the caller's path is
// read before the first write: it may lie in the image.
pub fn remove_of(
    image: &mut [u8],
    widths: &mut [u32],
    map: &mut [u8],
    path: &[u8],
) -> Result<(), Refusal>
    requires { (check_of image.old ≡ 0) × Widths image.old widths.old × Mapped image.old map.old }
    ensures number { result_number result ≡ (remove_of image.old path.now).0 }
    ensures image { image.new ≡ (remove_of image.old path.now).1 }
    ensures table { Widths image.new widths.new }
    ensures map { Mapped image.new map.new }
{
    if Settings::PATH < path.len() {
        return Err(Refusal::LongPath);
    }
    if path.len() == 0 {
        return Err(Refusal::EmptyPath);
    }
    let Some(s) = locate(image, widths, path) else {
        return Err(Refusal::NoNode);
    };
    remove_at(image, widths, map, s);
    Ok(())
}
