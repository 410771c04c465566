// The check's part before the walk: page 0, every trailer and every free page, each by itself. No byte of a record is looked at.
#![tactic(auto)]

ghost use Rattle.std.specs.Prelude.{◌≡◌, true, ◌-◌, ◌*◌, ◌≤◌, length, unwrap_or, is_some};
ghost use Rattle.model.specs.Limits.{most_pages, page_size};
ghost use Rattle.model.specs.Reading.{length_ok};
ghost use Rattle.model.specs.BeforeWalk.{all_zero, settings_ok, trailer_of, settled_fits, used_fits, back_fits, record_trailer, before_walk};
ghost use Rattle.theory_check.specs.Tests.{state_of};
ghost use Rattle.theory_check.specs.Check.{trailers_of, scan_from};
ghost use Rattle.read_pages.specs.Counts.{state_number, count_from};
ghost use Rattle.read_pages.specs.Numbers.{settings_on, settings_trailer};

use base_layout::{back_at, settled_at, used_at};
use base_numbers::two;
use base_ranges::in_range;
use model::Settings;

// The bytes used of page 0, to the matrix's end; where a page has its back link, and the zeros after that.
const USED: usize = 16 + Settings::ENTRIES;

const BACK: usize = Settings::CAPACITY + 4;

const REST: usize = Settings::CAPACITY + 6;

// Whether every byte is zero, that is, the largest is. With no early exit the loop is done many bytes at a time.
pub fn zeros(s: &[u8]) -> bool
    ensures { result ≡ all_zero s.now }
{
    s.iter().fold(0, |most: u8, &x| most.max(x)) == 0
}

// Whether a settled byte may stand on page p.
fn settled_fits(p: usize, n: usize) -> bool
    ensures { result ≡ settled_fits p n }
{
    if p == 1 { n == 1 } else { n <= 1 }
}

// Whether a record may use so many bytes of its page.
fn used_fits(used: usize) -> bool
    ensures { result ≡ used_fits used }
{
    (6..=Settings::CAPACITY).contains(&used)
}

// Whether a back link may stand on page p of an image of so many pages.
fn back_fits(pages: usize, p: usize, n: usize) -> bool
    ensures { result ≡ back_fits pages p n }
{
    if p == 1 {
        n == 0
    } else {
        (1..pages).contains(&n) && n != p
    }
}

// Whether the trailer of page p is a record's. It reads no byte before the trailer.
fn record_trailer(page: &[u8], pages: usize, p: usize) -> bool
    requires { length page.now ≡ page_size }
    ensures { result ≡ record_trailer pages p (trailer_of page.now) }
{
    page[Settings::CAPACITY] == 1
        && settled_fits(p, settled_at(page, 0))
        && used_fits(used_at(page, 0))
        && back_fits(pages, p, back_at(page, 0))
        && zeros(&page[REST..Settings::PAGE])
}

// What a page is by itself.
#[derive(Clone, Copy, PartialEq, Eq, Debug)]
pub enum PageState {
    // against the rules
    Broken,
    Free,
    // a record's
    Record,
}

// What page p is by its trailer and, where that says free, by its bytes.
#[tactic(auto, using(crate::proofs::Pages::state_used, crate::proofs::Pages::state_free))]
pub fn page_state(page: &[u8], pages: usize, p: usize) -> PageState
    requires { length page.now ≡ page_size }
    ensures { state_number result ≡ state_of pages p page.now }
{
    if page[Settings::CAPACITY] != 0 {
        if record_trailer(page, pages, p) {
            PageState::Record
        } else {
            PageState::Broken
        }
    } else if p != 1 && zeros(page) {
        PageState::Free
    } else {
        PageState::Broken
    }
}

// The settings' numbers, as page 0 has them.
fn numbers_on(page: &[u8]) -> Settings
    requires { length page.now ≡ page_size }
    ensures { result ≡ settings_on page.now }
{
    Settings {
        pages: two(page, 0),
        target: usize::from(page[2]),
        tolerance: two(page, 4),
        form: two(page, 6),
    }
}

// Whether page 0 ends in a trailer of settings.
fn settings_trailer(page: &[u8]) -> bool
    requires { length page.now ≡ page_size }
    ensures { result ≡ settings_trailer page.now }
{
    two(page, Settings::CAPACITY) == 2
        && used_at(page, 0) == USED
        && zeros(&page[BACK..Settings::PAGE])
}

// Whether page 0 holds settings, for an image of so many pages.
#[tactic(auto, unfolding(model::specs::BeforeWalk::settings_ok))]
pub fn settings_ok(page: &[u8], pages: usize) -> bool
    requires { length page.now ≡ page_size }
    ensures { result ≡ settings_ok page.now pages }
{
    let numbers = numbers_on(page);
    numbers.pages == pages
        && in_range(numbers, &page[16..USED])
        && page[3] == 0
        && zeros(&page[8..16])
        && zeros(&page[USED..Settings::CAPACITY])
        && settings_trailer(page)
}

// How many record pages there are from 1 on; none where a page is against the rules by itself.
fn scan_pages(image: &[u8], pages: usize) -> Option<usize>
    requires { (page_size * pages ≤ length image.now) × (1 ≤ pages) × (pages ≤ most_pages) }
    ensures count { result ≡ count_from image.now pages (pages - 1) 1 0 }
    ensures scan { unwrap_or result 0 ≡ scan_from image.now pages (pages - 1) 1 0 }
{
    let mut n = 0;
    for p in 1..pages {
        let start = Settings::PAGE * p;
        match page_state(&image[start..start + Settings::PAGE], pages, p) {
            PageState::Broken => return None,
            PageState::Free => {}
            PageState::Record => n += 1,
        }
    }
    Some(n)
}

// The part before the walk: how many record pages there are; none where page 0, a trailer or a free page is against the rules by itself.
pub fn trailers(image: &[u8]) -> Option<usize>
    requires { length_ok (length image.now) ≡ true }
    ensures number { unwrap_or result 0 ≡ trailers_of image.now }
    ensures passed { is_some result ≡ before_walk image.now }
{
    let pages = image.len() / Settings::PAGE;
    if !settings_ok(&image[..Settings::PAGE], pages) {
        return None;
    }
    scan_pages(image, pages)
}
