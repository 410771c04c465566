// The page writes of an insert: a record on its page, a page cleared, back links.
#![tactic(auto)]

ghost use Rattle.std.specs.Prelude.{◌≡◌, ◌+◌, ◌*◌, ◌≤◌, ◌<◌, length, replicate};
ghost use Rattle.model.specs.Limits.{most_pages, page_size, capacity};
ghost use Rattle.base_numbers.specs.Over.{over};
ghost use Rattle.grow_pages.specs.Write.{set_page, end_bytes, page_bytes_of};
ghost use Rattle.grow_pages.specs.Links.{Linked, links};

use base_layout::{name_at, size_at};
use base_numbers::{clear, copy_in, put16};
use model::Settings;

// Ends the record of n bytes on a page: zeros from its end on, and the trailer.
pub fn close_record(image: &mut [u8], page: usize, n: usize, settled: usize, holder: usize)
    requires { (page < most_pages) × ((page_size * page + page_size ≤ length image.old) × ((n ≤ capacity) × ((settled ≤ 1) × (holder < most_pages)))) }
    ensures { image.new ≡ over (page_size * page + n) (end_bytes n settled holder) image.old }
{
    let base = Settings::PAGE * page;
    clear(image, base + n, Settings::CAPACITY - n);
    let trailer = base + Settings::CAPACITY;
    put16(image, trailer, 1 + 256 * settled);
    put16(image, trailer + 2, n);
    put16(image, trailer + 4, holder);
    clear(image, trailer + 6, 10);
}

// Writes a record with its trailer to a page.
pub fn put_record(image: &mut [u8], page: usize, content: &[u8], settled: usize, holder: usize)
    requires { (page < most_pages) × ((page_size * page + page_size ≤ length image.old) × ((length content.now ≤ capacity) × ((settled ≤ 1)
        × (holder < most_pages)))) }
    ensures { image.new ≡ set_page page (page_bytes_of content.now settled holder) image.old }
{
    copy_in(content, image, Settings::PAGE * page);
    close_record(image, page, content.len(), settled, holder);
}

// Makes a page free: all zero.
pub fn clear_page(image: &mut [u8], page: usize)
    requires { (page < most_pages) × (page_size * page + page_size ≤ length image.old) }
    ensures { image.new ≡ set_page page (replicate page_size 0) image.old }
{
    clear(image, Settings::PAGE * page, Settings::PAGE);
}

// Sets the back link of each record whose proxy stands in the row to page q.
pub fn relink(row: &[u8], image: &mut [u8], pages: usize, q: usize)
    requires { (pages ≤ most_pages) × ((page_size * pages ≤ length image.old) × ((q < pages) × Linked row.now pages)) }
    ensures { (w : Linked row.now pages) → image.new ≡ links q w.row image.old }
{
    let mut pos = 0;
    while pos < row.len() {
        let kind = row[pos];
        if kind == 1 {
            pos += 6;
        } else if kind == 3 {
            let p = name_at(row, pos);
            put16(image, Settings::PAGE * p + (Settings::CAPACITY + 4), q);
            pos += 8;
        } else {
            pos += size_at(row, pos);
        }
    }
}
