// Whether the walk may enter the page that a proxy names: by the page's trailer, its record's root, the marks of the pages reached, and the zeros past the
// record.
#![tactic(auto)]

ghost use Rattle.std.specs.Prelude.{◌≡◌, ◌+◌, ◌*◌, ◌≤◌, ◌<◌, length};
ghost use Rattle.model.specs.Limits.{most_pages, page_size, capacity};
ghost use Rattle.model.specs.Reading.{used_at};
ghost use Rattle.model.specs.WalkTests.{names_of, root_fits, tail_zero};
ghost use Rattle.theory_check.specs.Walk.{state, enters_of};
ghost use Rattle.theory_check.specs.Check.{PassedBefore};

use base_layout::{back_at, record_end, settled_at};
use base_marks::is_marked;
use model::Settings;
use read_pages::zeros;

// Whether page p by its trailer holds a record whose proxy stands in the record of a page. What the trailer says by itself is known before the walk.
#[tactic(auto, unfolding(model::specs::WalkTests::names_of))]
pub fn names(image: &[u8], p: usize, page: usize) -> bool
    requires { PassedBefore image.now }
    ensures { result ≡ names_of image.now p page }
{
    if !(2..image.len() / Settings::PAGE).contains(&p) {
        return false;
    }
    let start = Settings::PAGE * p;
    image[start + Settings::CAPACITY] == 1 && back_at(image, start) == page
}

// A settled record's root is no helper.
#[tactic(auto, unfolding(model::specs::WalkTests::root_fits))]
pub fn root_fits(image: &[u8], p: usize) -> bool
    requires { (p < most_pages) × (page_size * p + page_size ≤ length image.now) }
    ensures { result ≡ root_fits image.now p }
{
    let start = Settings::PAGE * p;
    settled_at(image, start) != 1 || image[start] != 4
}

// Whether the bytes past the length used, up to the trailer, are zero.
#[tactic(auto, unfolding(model::specs::WalkTests::tail_zero))]
pub fn tail_zero(image: &[u8], p: usize) -> bool
    requires { (p < most_pages) × (page_size * p + page_size ≤ length image.now) × (used_at image.now (page_size * p) ≤ capacity) }
    ensures { result ≡ tail_zero image.now p }
{
    let end = record_end(image, p);
    let trailer = Settings::PAGE * p + Settings::CAPACITY;
    zeros(&image[end..trailer])
}

// Whether the walk can go on in page p. `left` is one more than the record pages still to be reached.
#[tactic(auto, unfolding(theory_check::specs::Walk::enters_of), using(theory_check::specs::Steps::named))]
pub fn enters(
    image: &[u8],
    p: usize,
    page: usize,
    left: usize,
    marks: &[u8; Settings::MARKS],
) -> bool
    requires { PassedBefore image.now }
    ensures { result ≡ enters_of image.now p page (state left marks.now) }
{
    if !names(image, p, page) {
        return false;
    }
    root_fits(image, p) && 2 <= left && !is_marked(marks, p) && tail_zero(image, p)
}
