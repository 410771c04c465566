// Down the tree of an image that passes the check: how many nodes a row shows, the k-th of them, and the node that a path names.
#![tactic(auto)]

ghost use Rattle.std.specs.Prelude.{◌≡◌, ◌+◌, ◌*◌, ◌<◌, length};
ghost use Rattle.model.specs.Limits.{most_pages};
ghost use Rattle.model.specs.Tree as tree;
ghost use Rattle.model.specs.Answers.{find_result};
ghost use Rattle.model.specs.Calls.Check.{check_of};
ghost use Rattle.model.specs.Calls.Find.{find_of};
ghost use Rattle.theory_layout.specs.Here.{PageIn};
ghost use Rattle.theory_layout.specs.Widths.{Widths};
ghost use Rattle.read_find.specs.Nth.{nth_of};
ghost use Rattle.read_find.specs.Rowed.{start_on, Rowed};
ghost use Rattle.read_find.specs.Shown.{shown_at, Counts};
ghost use Rattle.read_find.specs.Entries.{four_at};

use base_layout::{name_at, record_end, size_at};
use base_numbers::two;
use model::{Place, Refusal, Settings};

// Where the row of the record on page p starts: past the helper's header, if there is a helper.
pub fn row_start(image: &[u8], p: usize) -> usize
    requires { PageIn image.now p }
    ensures { result ≡ start_on image.now p }
{
    let a = Settings::PAGE * p;
    if image[a] == 4 { a + 6 } else { a }
}

// How many nodes the one at byte i shows: a proxy as many as its record, which `widths` has.
pub fn nodes_shown(image: &[u8], widths: &[u32], i: usize) -> usize
    requires { Counts image.now widths.now i }
    ensures { (result ≡ shown_at image.now widths.now i) × (result < 4294967296) }
{
    if image[i] != 3 {
        return 1;
    }
    widths[name_at(image, i)] as usize
}

// How many nodes the row from pos to end shows. `widths` has how many each record shows.
pub fn width(image: &[u8], widths: &[u32], pos: usize, end: usize) -> usize
    requires { Rowed image.now pos end most_pages × Widths image.now widths.now }
    ensures { (w : Rowed image.now pos end most_pages) → result ≡ tree.width w.row }
{
    let mut n = 0;
    let mut i = pos;
    while i < end {
        n += nodes_shown(image, widths, i);
        i += size_at(image, i);
    }
    n
}

// Node k of those that the row from pos to end shows: the byte at which it starts; else how many of the nodes to pass are left. `widths` has how many nodes
// each record shows, so that only the records that hold the node are read.
pub fn nth(
    image: &[u8],
    widths: &[u32],
    pos: usize,
    end: usize,
    k: usize,
    depth: usize,
) -> Result<usize, usize>
    requires { Rowed image.now pos end depth × Widths image.now widths.now }
    ensures { (w : Rowed image.now pos end depth) → result ≡ nth_of pos w.row k }
{
    let mut left = k;
    let mut i = pos;
    let mut stop = end;
    let mut deep = depth;
    while i < stop {
        let n = nodes_shown(image, widths, i);
        if n <= left {
            left -= n;
            i += size_at(image, i);
        } else if image[i] == 3 {
            let p = name_at(image, i);
            i = row_start(image, p);
            stop = record_end(image, p);
            deep -= 1;
        } else {
            return Ok(i);
        }
    }
    Err(left)
}

// The four-byte number at `at`, low byte first.
pub fn four(s: &[u8], at: usize) -> usize
    requires { at + 3 < length s.now }
    ensures { result ≡ four_at s.now at }
{
    two(s, at) + 65536 * two(s, at + 2)
}

// Find, on an image that passes the check: the place of the node that the path names.
pub fn find_in(image: &[u8], widths: &[u32], path: &[u8]) -> Result<Place, Refusal>
    requires { (check_of image.now ≡ 0) × Widths image.now widths.now }
    ensures { find_result result ≡ find_of image.now path.now }
{
    if Settings::PATH < path.len() {
        return Err(Refusal::LongPath);
    }
    if path.len() % 4 != 0 {
        return Err(Refusal::NoNode);
    }
    let mut pos = Settings::PAGE;
    for entry in path.chunks_exact(4) {
        if image[pos] != 1 {
            return Err(Refusal::NoNode);
        }
        let k = four(entry, 0);
        let end = pos + size_at(image, pos);
        let Ok(at) = nth(image, widths, pos + 6, end, k, Settings::PAGES) else {
            return Err(Refusal::NoNode);
        };
        pos = at;
    }
    Ok(Place::of_byte(pos))
}
