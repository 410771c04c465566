// The path of a node, from its place up to the root.
#![tactic(auto)]

ghost use Rattle.std.specs.Prelude.{◌≡◌, ◌+◌, ◌<◌, length};
ghost use Rattle.model.specs.Limits.{longest_path};
ghost use Rattle.model.specs.Answers.{write_result};
ghost use Rattle.model.specs.Calls.Check.{check_of};
ghost use Rattle.model.specs.Calls.Climb.{climb_of};
ghost use Rattle.theory_layout.specs.Widths.{Widths};
ghost use Rattle.read_next.specs.Scan.{NodeAt};
ghost use Rattle.read_climb.specs.Route.{spot, before};
ghost use Rattle.read_climb.specs.Rise.{Rose, place_at_byte};
ghost use Rattle.read_climb.specs.Search.{Search, Tracing, number_of, way_of, Wrote};

use base_layout::{back_at, size_at};
use base_numbers::{copy_in, put32};
use model::{Place, Refusal, Settings};
use read_find::{nodes_shown, row_start};
use read_next::{find_proxy, node_at};

// A node of a row, and how many nodes the row shows before it.
#[derive(Clone, Copy)]
struct Child {
    at: usize,
    before: usize,
}

// The node of the row at pos that holds byte target.
fn child_at(image: &[u8], widths: &[u32], pos: usize, target: usize) -> Child
    requires { Search image.now pos target × Widths image.now widths.now }
    ensures { (w : Search image.now pos target) → (result.at ≡ spot w.has) × (result.before ≡ before w.has) }
{
    let mut i = pos;
    let mut n = 0;
    while i + size_at(image, i) <= target {
        n += nodes_shown(image, widths, i);
        i += size_at(image, i);
    }
    Child { at: i, before: n }
}

// Where the path written so far starts, and the number of the node that it goes on from.
#[derive(Clone, Copy)]
struct Traced {
    at: usize,
    index: usize,
}

// The way from the row at pos to the node or proxy at byte target, written before byte `at` of the path; `carry` is the number of the node
// sought among those that it shows.
fn trace(
    image: &[u8],
    widths: &[u32],
    pos: usize,
    target: usize,
    carry: usize,
    path: &mut [u8; Settings::PATH],
    at: usize,
) -> Traced
    requires { Tracing image.now pos target carry at × Widths image.now widths.now × (length path.old ≡ longest_path) }
    ensures { (w : Tracing image.now pos target carry at) →
        Wrote (number_of w) (way_of w) at result.index result.at path.new path.old }
{
    let c = child_at(image, widths, pos, target);
    if c.at == target {
        return Traced {
            at: at,
            index: c.before + carry,
        };
    }
    let t = trace(image, widths, c.at + 6, target, carry, path, at);
    put32(path, t.at - 4, t.index);
    Traced {
        at: t.at - 4,
        index: c.before,
    }
}

// Writes the path of the node at byte pos to the end of `path`, and gives where it starts. At most `left` records are above.
fn climb_path(image: &[u8], widths: &[u32], pos: usize, path: &mut [u8; Settings::PATH]) -> usize
    requires { NodeAt image.now pos × Widths image.now widths.now × (length path.old ≡ longest_path) }
    ensures { ((w : NodeAt image.now pos) → Rose w.root (place_at_byte pos) result path.new) × (length path.new
        ≡ longest_path) }
{
    let mut page = pos / Settings::PAGE;
    let mut target = pos;
    let mut carry = 0;
    let mut at = Settings::PATH;
    let mut left: usize = Settings::PAGES;
    loop {
        let t = trace(
            image,
            widths,
            row_start(image, page),
            target,
            carry,
            path,
            at,
        );
        at = t.at;
        carry = t.index;
        if page == 1 {
            return at;
        }
        let holder = back_at(image, Settings::PAGE * page);
        target = find_proxy(image, holder, page);
        page = holder;
        left -= 1;
    }
}

// Climb: writes the path of the node at a place to the front of the buffer; how many bytes.
pub fn climb_of(image: &[u8], widths: &[u32], x: Place, buffer: &mut [u8]) -> Result<usize, Refusal>
    requires { (check_of image.now ≡ 0) × Widths image.now widths.now }
    ensures { (write_result result ≡ (climb_of image.now x buffer.old).0) × (buffer.new
        ≡ (climb_of image.now x buffer.old).1) }
{
    let Some(pos) = node_at(image, x) else {
        return Err(Refusal::NoPlaceThere);
    };
    let mut path = [0u8; Settings::PATH];
    let at = climb_path(image, widths, pos, &mut path);
    let n = Settings::PATH - at;
    if buffer.len() < n {
        return Err(Refusal::ShortBuffer);
    }
    copy_in(&path[at..], buffer, 0);
    Ok(n)
}
