// The ranges that format and the check test: of an image's length, and of the settings with their split matrix; and the size of the
// tables that have an entry for each page.
#![tactic(auto)]

ghost use Rattle.std.specs.Prelude.{◌≡◌};
ghost use Rattle.model.specs.Row.{every, is_entry, in_range};
ghost use Rattle.model.specs.Reading.{length_ok};
ghost use Rattle.model.specs.Calls.Format.{config};
ghost use Rattle.base_ranges.specs.Tables.{tables_for};

use model::Settings;

// Whether an image may have so many bytes: whole pages, 2 to 1,024.
#[tactic(auto, unfolding(model::specs::Reading::length_ok))]
pub fn length_ok(n: usize) -> bool
    ensures { result ≡ length_ok n }
{
    n % Settings::PAGE == 0 && (2..=Settings::PAGES).contains(&(n / Settings::PAGE))
}

// The entries of a small table that has one for each page.
pub const FEW: usize = 64;

// The sizes of such tables: FEW entries, or one for each page that an image may have.
#[derive(Clone, Copy)]
pub enum Tables {
    Few,
    Many,
}

// The size of the tables for an image of so many bytes. It is chosen here alone.
pub fn tables_for(n: usize) -> Tables
    ensures { result ≡ tables_for n }
{
    if n <= Settings::PAGE * FEW {
        return Tables::Few;
    }
    Tables::Many
}

// Whether every entry of a split matrix is 0 or 2: the largest is at most 2, with 1 taken for a large one. With no early exit and no branch within a branch the
// loop is done many bytes at a time.
pub fn matrix_ok(matrix: &[u8]) -> bool
    ensures { result ≡ every is_entry matrix.now }
{
    let mut most: u8 = 0;
    for &x in matrix {
        most = most.max(if x == 1 { 255 } else { x });
    }
    most <= 2
}

// Whether the settings and their matrix are in range.
#[tactic(auto, unfolding(model::specs::Row::in_range))]
pub fn in_range(settings: Settings, matrix: &[u8]) -> bool
    ensures { result ≡ in_range (config settings matrix.now) }
{
    (2..=Settings::PAGES).contains(&settings.pages)
        && (Settings::LEAST_TARGET..=Settings::MOST_TARGET).contains(&settings.target)
        && settings.tolerance <= Settings::MOST_TOLERANCE
        && settings.form == Settings::FORM
        && matrix.len() == Settings::ENTRIES
        && matrix_ok(matrix)
}
