// How the bytes of an image are laid out: a node's header, a page's trailer, page 0.
#![tactic(auto)]

ghost use Rattle.std.specs.Prelude.{◌≡◌, ◌+◌, ◌*◌, ◌≤◌, ◌<◌, length};
ghost use Rattle.model.specs.Limits.{most_pages, page_size, settings_size};
ghost use Rattle.model.specs.Reading.{head_at, size_at, name_at, settled_at, used_at, back_at};
ghost use Rattle.base_layout.specs.Setup.{setup_on};

use base_numbers::two;
use model::Settings;

// ── the header of the node at a byte ──

// Its origin.
pub fn origin_at(s: &[u8], at: usize) -> usize
    requires { at + 6 ≤ length s.now }
    ensures { (result ≡ (head_at s.now at).origin) × (result < 256) }
{
    usize::from(s[at + 1])
}

// Its label.
pub fn label_at(s: &[u8], at: usize) -> usize
    requires { at + 6 ≤ length s.now }
    ensures { (result ≡ (head_at s.now at).label) × (result < 65536) }
{
    two(s, at + 2)
}

// Its size, with all inside it.
pub fn size_at(s: &[u8], at: usize) -> usize
    requires { at + 6 ≤ length s.now }
    ensures { (result ≡ size_at s.now at) × (result < 65536) }
{
    two(s, at + 4)
}

// The page that a proxy names.
pub fn name_at(s: &[u8], at: usize) -> usize
    requires { at + 8 ≤ length s.now }
    ensures { (result ≡ name_at s.now at) × (result < 65536) }
{
    two(s, at + 6)
}

// ── the trailer of the page that starts at a byte ──

// 1 if the record is settled.
pub fn settled_at(s: &[u8], start: usize) -> usize
    requires { start + page_size ≤ length s.now }
    ensures { (result ≡ settled_at s.now start) × (result < 256) }
{
    usize::from(s[start + 4081])
}

// The length used.
pub fn used_at(s: &[u8], start: usize) -> usize
    requires { start + page_size ≤ length s.now }
    ensures { (result ≡ used_at s.now start) × (result < 65536) }
{
    two(s, start + 4082)
}

// The page that the back link names.
pub fn back_at(s: &[u8], start: usize) -> usize
    requires { start + page_size ≤ length s.now }
    ensures { (result ≡ back_at s.now start) × (result < 65536) }
{
    two(s, start + 4084)
}

// Where the record on a page ends.
pub fn record_end(image: &[u8], page: usize) -> usize
    requires { (page < most_pages) × (page_size * page + page_size ≤ length image.now) }
    ensures { result ≡ page_size * page + used_at image.now (page_size * page) }
{
    let start = Settings::PAGE * page;
    start + used_at(image, start)
}

// ── page 0 ──

// What the calls need of it; the split matrix is read where it stands.
#[derive(Clone, Copy)]
pub struct Setup {
    pub pages: usize,
    pub target: usize,
    pub tolerance: usize,
    pub matrix: usize,
}

pub fn setup_on(image: &[u8]) -> Setup
    requires { settings_size ≤ length image.now }
    ensures { result ≡ setup_on image.now }
{
    Setup {
        pages: two(image, 0),
        target: usize::from(image[2]),
        tolerance: two(image, 4),
        matrix: 16,
    }
}

// ── growth ──

// What an insert's functions hand on: page 0, the page from which a free one is counted, and whether the run is dry, that is leaves the image.
#[derive(Clone, Copy)]
pub struct Growing {
    pub setup: Setup,
    pub near: usize,
    pub dry: bool,
}

impl Growing {
    // Room for a record that is to be split, and for a separator.
    pub const BUFFER: usize = 4608;

    pub const SEPARATOR: usize = 512;
}
