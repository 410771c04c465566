// An insert on an image that passes the check: its refusals, among them that no page is free, then a run that writes.
#![tactic(auto)]

ghost use Rattle.std.specs.Prelude.{◌≡◌};
ghost use Rattle.model.specs.Answers.{insert_result};
ghost use Rattle.model.specs.Calls.Check.{check_of};
ghost use Rattle.model.specs.Calls.Insert.{insert_of};
ghost use Rattle.theory_layout.specs.Widths.{Widths};
ghost use Rattle.grow_map.specs.Mapped.{Mapped};

use base_layout::setup_on;
use grow_new_node::put_node;
use grow_path::child_path;
use grow_refusals::admit;
use grow_run::{is_full, once};
use grow_widths::one_more;
use model::{Inserted, Refusal, Settings};
use read_find::find_in;

// Insert, on an image that passes the check, with its table and its map. Whether the store is full is found before the first write, so that a refused insert
// alters no byte. All that is read of the caller's path and content is read before it too: they may lie in the image. Table and map are right for the image that
// is left.
pub fn insert_of(
    image: &mut [u8],
    widths: &mut [u32],
    map: &mut [u8],
    path: &[u8],
    child: u32,
    kind: usize,
    origin: usize,
    label: u16,
    content: &[u8],
) -> Result<Inserted, Refusal>
    requires { (check_of image.old ≡ 0) × Widths image.old widths.old × Mapped image.old map.old }
    ensures answer { insert_result result ≡ (insert_of image.old path.now child kind origin label content.now).0 }
    ensures image { image.new ≡ (insert_of image.old path.now child kind origin label content.now).1 }
    ensures table { Widths image.new widths.new }
    ensures map { Mapped image.new map.new }
{
    let k = child as usize;
    let l = label as usize;
    let a = admit(image, widths, path, k, kind, origin, content)?;
    let t = a.receiver;
    let mut whole = [0u8; Settings::PATH];
    let end = child_path(path, child, &mut whole);
    let mut node = [0u8; Settings::NODE];
    let n = put_node(&mut node, kind, origin, l, content);
    let setup = setup_on(image);
    if is_full(image, widths, map, setup, a.parent, t, l, &node[..n]) {
        return Err(Refusal::NoFreePage);
    }
    one_more(image, widths, t.page, t.deep);
    let made = once(image, widths, map, setup, a.parent, t, l, &node[..n], false);
    // The node stands there now.
    let place = find_in(image, widths, &whole[..end]).unwrap();
    Ok(Inserted {
        place,
        splits: made.splits,
        lean: made.lean,
    })
}
