// The check of an image: its length, the part before the walk, then the walk.
#![tactic(auto)]

ghost use Rattle.std.specs.Prelude.{◌≡◌, true, ◌*◌, ◌≤◌, length, replicate};
ghost use Rattle.model.specs.Limits.{most_pages, mark_bytes, page_size};
ghost use Rattle.model.specs.Reading.{length_ok};
ghost use Rattle.model.specs.Answers.{result_number};
ghost use Rattle.theory_check.specs.Check.{trailers_of, walk_of, check_by};
ghost use Rattle.theory_check.specs.Widths.{widths_after};
ghost use Rattle.read_walk.specs.Asked.{Ready, Walked};
ghost use Rattle.read_check.specs.Passed.{Passed};

use base_ranges::{FEW, Tables, length_ok, tables_for};
use model::{Refusal, Settings};
use read_pages::trailers;
use read_walk::walk_ok;

// ── the walk, with ways back of the size that the image takes ──

// The walk with ways back for N pages.
fn walk_sized<const N: usize>(
    image: &[u8],
    left: usize,
    marks: &mut [u8; Settings::MARKS],
    widths: &mut [u32],
) -> bool
    requires { Ready image.now left marks.old widths.old × (length image.now ≤ page_size * N) × (N ≤ most_pages) }
    ensures { Walked image.now left widths.old widths.new marks.new result }
{
    let mut back = [0u16; N];
    walk_ok(image, left, marks, widths, &mut back)
}

fn walk(image: &[u8], left: usize, marks: &mut [u8; Settings::MARKS], widths: &mut [u32]) -> bool
    requires { Ready image.now left marks.old widths.old }
    ensures { Walked image.now left widths.old widths.new marks.new result }
{
    match tables_for(image.len()) {
        Tables::Few => walk_sized::<FEW>(image, left, marks, widths),
        Tables::Many => walk_sized::<{ Settings::PAGES }>(image, left, marks, widths),
    }
}

// ── the check ──

// The check, which leaves in a table how many nodes the record on each page shows, and in the marks which pages the walk reached.
pub fn check_tables(
    image: &[u8],
    marks: &mut [u8; Settings::MARKS],
    widths: &mut [u32],
) -> Result<(), Refusal>
    requires { (length_ok (length image.now) ≡ true → length image.now ≤ page_size * length widths.old) × (marks.old ≡ replicate mark_bytes 0) }
    ensures { Passed image.now widths.old widths.new marks.new (result_number result) }
{
    if !length_ok(image.len()) {
        return Err(Refusal::WrongLength);
    }
    let Some(left) = trailers(image) else {
        return Err(Refusal::NotPassed);
    };
    if !walk(image, left, marks, widths) {
        return Err(Refusal::NotPassed);
    }
    Ok(())
}

// The same for calls that need no marks afterwards. They stand here by value during the walk.
pub fn check_widths(image: &[u8], widths: &mut [u32]) -> Result<(), Refusal>
    requires { length_ok (length image.now) ≡ true → length image.now ≤ page_size * length widths.old }
    ensures { (result_number result ≡ check_by image.now)
        × (result_number result ≡ 0 → widths.new ≡ widths_after (walk_of image.now (trailers_of image.now)).row widths.old) }
{
    let mut marks = [0u8; Settings::MARKS];
    check_tables(image, &mut marks, widths)
}

// The check with widths of N pages.
fn check_sized<const N: usize>(image: &[u8]) -> Result<(), Refusal>
    requires { (length_ok (length image.now) ≡ true → length image.now ≤ page_size * N) × (N ≤ most_pages) }
    ensures { result_number result ≡ check_by image.now }
{
    let mut widths = [0u32; N];
    check_widths(image, &mut widths)
}

// Check: refused by its length, or where it is broken.
pub fn check(image: &[u8]) -> Result<(), Refusal>
    ensures { result_number result ≡ check_by image.now }
{
    match tables_for(image.len()) {
        Tables::Few => check_sized::<FEW>(image),
        Tables::Many => check_sized::<{ Settings::PAGES }>(image),
    }
}
