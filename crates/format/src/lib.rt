// Formatting: the two pages of a store with a root aggregate alone, and the call.
#![tactic(auto)]

ghost use Rattle.std.specs.Prelude.{◌≡◌, true, ◌&&◌, ◌*◌, length, eqb};
ghost use Rattle.model.specs.Row as row;
ghost use Rattle.model.specs.Limits.{page_size};
ghost use Rattle.model.specs.Answers.{result_number};
ghost use Rattle.model.specs.Calls.Format.{config, format_of};
ghost use Rattle.format.specs.First.{first_root, first_page, root_page, zeros, Numbers};

use base_numbers::{clear, copy_in, put16};
use base_ranges::{in_range, length_ok};
use model::{Refusal, Settings};

// Where a page's trailer has the length used, that of page 0, and the bytes of pages 0 and 1.
const USED: usize = Settings::CAPACITY + 2;

const FIRST_USED: usize = 16 + Settings::ENTRIES;

const FIRST_PAGES: usize = 2 * Settings::PAGE;

// Page 0, zero before.
fn put_settings(page: &mut [u8], settings: Settings, matrix: &[u8])
    requires { (page.old ≡ zeros page_size) × Numbers (config settings matrix.now) }
    ensures { page.new ≡ first_page (config settings matrix.now) }
{
    put16(page, 0, settings.pages);
    put16(page, 2, settings.target);
    put16(page, 4, settings.tolerance);
    put16(page, 6, settings.form);
    copy_in(matrix, page, 16);
    put16(page, Settings::CAPACITY, 2);
    put16(page, USED, FIRST_USED);
}

// Page 1, zero before: a root aggregate without children.
fn put_root(page: &mut [u8], label: u16)
    requires { page.old ≡ zeros page_size }
    ensures { page.new ≡ root_page label }
{
    put16(page, 0, 1);
    put16(page, 2, label as usize);
    put16(page, 4, 6);
    put16(page, Settings::CAPACITY, 257);
    put16(page, USED, 6);
}

// The image of a store with a root aggregate alone, whatever bytes it had.
pub fn write_first(image: &mut [u8], settings: Settings, matrix: &[u8], label: u16)
    requires { (length image.old ≡ page_size * settings.pages) × (row.in_range (config settings matrix.now) ≡ true) }
    ensures { image.new ≡ row.image (config settings matrix.now) (first_root label) }
{
    let n = image.len();
    clear(image, 0, n);
    put_settings(&mut image[0..Settings::PAGE], settings, matrix);
    put_root(&mut image[Settings::PAGE..FIRST_PAGES], label);
}

// Whether the settings are in range, and the page count is the image's.
fn settings_fit(settings: Settings, matrix: &[u8], pages: usize) -> bool
    ensures { result ≡ (row.in_range (config settings matrix.now) && eqb settings.pages pages) }
{
    settings.pages == pages && in_range(settings, matrix)
}

// Format: a store with a root aggregate alone in the whole image; refused, the image is as it was.
pub fn format_image(
    image: &mut [u8],
    settings: Settings,
    matrix: &[u8],
    root_label: u16,
) -> Result<(), Refusal>
    ensures answer { result_number result ≡ (format_of image.old settings matrix.now root_label).0 }
    ensures image { image.new ≡ (format_of image.old settings matrix.now root_label).1 }
{
    if !length_ok(image.len()) {
        return Err(Refusal::WrongLength);
    }
    if !settings_fit(settings, matrix, image.len() / Settings::PAGE) {
        return Err(Refusal::WrongSettings);
    }
    write_first(image, settings, matrix, root_label);
    Ok(())
}
