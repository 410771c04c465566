// Records: the pages that hold a record, ascending, as two-byte numbers.
#![tactic(auto)]

ghost use Rattle.std.specs.Prelude.{◌≡◌, ◌-◌, ◌*◌, ◌≤◌, length};
ghost use Rattle.model.specs.Limits.{page_size};
ghost use Rattle.model.specs.Answers.{write_result};
ghost use Rattle.model.specs.Calls.Check.{check_of};
ghost use Rattle.model.specs.Calls.Records.{page_bytes, records_of};
ghost use Rattle.base_numbers.specs.Over.{over};
ghost use Rattle.read_records.specs.Up.{up_from, up_pages};

use base_numbers::put16;
use model::{Refusal, Settings};

// How many pages from 1 on hold a record: the first byte of such a page's trailer is 1.
pub fn count_pages(image: &[u8], pages: usize) -> usize
    requires { page_size * pages ≤ length image.now }
    ensures { result ≡ length (up_from image.now (pages - 1) 1) }
{
    let mut n = 0;
    for p in 1..pages {
        if image[Settings::PAGE * p + Settings::CAPACITY] == 1 {
            n += 1;
        }
    }
    n
}

// Writes the numbers of those pages to the front of the buffer.
fn put_pages(image: &[u8], pages: usize, buffer: &mut [u8])
    requires inside { (page_size * pages ≤ length image.now) × (pages ≤ 65536) }
    requires room { 2 * length (up_from image.now (pages - 1) 1) ≤ length buffer.old }
    ensures { buffer.new ≡ over 0 (page_bytes (up_from image.now (pages - 1) 1)) buffer.old }
{
    let mut at = 0;
    for p in 1..pages {
        if image[Settings::PAGE * p + Settings::CAPACITY] == 1 {
            put16(buffer, at, p);
            at += 2;
        }
    }
}

// Records, of an image that passes the check: how many bytes are written.
pub fn records_of(image: &[u8], buffer: &mut [u8]) -> Result<usize, Refusal>
    requires { check_of image.now ≡ 0 }
    ensures answer { write_result result ≡ (records_of (up_pages image.now) image.now buffer.old).0 }
    ensures buffer { buffer.new ≡ (records_of (up_pages image.now) image.now buffer.old).1 }
{
    let pages = image.len() / Settings::PAGE;
    let n = 2 * count_pages(image, pages);
    if buffer.len() < n {
        return Err(Refusal::ShortBuffer);
    }
    put_pages(image, pages, buffer);
    Ok(n)
}
