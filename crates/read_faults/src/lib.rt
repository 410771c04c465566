// Diagnose: why an image does not pass the check, that is, the stage that finds it, the page at fault, and a reason.
#![tactic(auto)]

ghost use Rattle.std.specs.Prelude.{◌≡◌, true, cond, List, ℕ, ◌-◌, ◌*◌, ◌≤◌, length, eqb};
ghost use Rattle.model.specs.Limits.{most_pages, page_size};
ghost use Rattle.model.specs.Row.{every};
ghost use Rattle.model.specs.Reading.{length_ok};
ghost use Rattle.model.specs.BeforeWalk.{trailer_of, page_count, before_walk};
ghost use Rattle.model.specs.Reasons.{reason_number, fault_result, diagnose_result};
ghost use Rattle.model.specs.Calls.Diagnose.{settings_reason, free_not_zero, bad_trailer, pages_fault, record_count, walk_fault, fault_of, diagnose_of};
ghost use Rattle.model.specs.Calls.Diagnose as diagnose;
ghost use Rattle.theory_faults.specs.Reached.{Matches};
ghost use Rattle.read_faults.specs.Answer.{free_trailer};

use base_marks::is_marked;
use base_ranges::length_ok;
use model::{Failure, Fault, Reason, Settings, Stage};
use read_fault_nodes::Stop;
use read_fault_walk::record_walk;
use read_pages::{PageState, page_state, settings_ok, trailers, zeros};

// ── stage 1: page 0 ──

// Whether every byte is 255, as erased flash has them. No early exit: so the loop takes many bytes at a time.
fn erased(s: &[u8]) -> bool
    ensures { result ≡ every (λ x. eqb x 255) s.now }
{
    s.iter().fold(true, |all, &x| all & (x == 255))
}

// Why page 0 holds no settings.
fn settings_reason(page: &[u8]) -> Reason
    ensures { reason_number result ≡ settings_reason page.now }
{
    if zeros(page) {
        return Reason::NeverFormatted;
    }
    if erased(page) {
        return Reason::NeverFormatted;
    }
    Reason::BadSettings
}

// ── stage 2: trailers and free pages ──

// Why page p is against the rules by itself. Only a page that says it is free can have a trailer that is right.
fn page_reason(page: &[u8], p: usize) -> Reason
    requires { length page.now ≡ page_size }
    ensures { reason_number result ≡ cond (free_trailer p (trailer_of page.now)) free_not_zero bad_trailer }
{
    if page[Settings::CAPACITY] != 0 {
        return Reason::BadTrailer;
    }
    if p == 1 {
        return Reason::BadTrailer;
    }
    if zeros(&page[Settings::CAPACITY..Settings::PAGE]) {
        return Reason::FreeNotZero;
    }
    Reason::BadTrailer
}

// The first page from 1 on that is against the rules by itself.
fn pages_fault(image: &[u8], pages: usize) -> Result<(), Fault>
    requires { (page_size * pages ≤ length image.now) × (1 ≤ pages) × (pages ≤ most_pages) }
    ensures { fault_result result ≡ pages_fault image.now pages (pages - 1) 1 }
{
    for p in 1..pages {
        let start = Settings::PAGE * p;
        let page = &image[start..start + Settings::PAGE];
        if let PageState::Broken = page_state(page, pages, p) {
            return Err(Fault {
                stage: Stage::Pages,
                page: p,
                reason: page_reason(page, p),
            });
        }
    }
    Ok(())
}

// ── stage 3: the walk ──

// The first record page from 2 on that was not reached, 0 if there is none.
fn unreached(image: &[u8], pages: usize, marks: &[u8; Settings::MARKS]) -> usize
    requires { (page_size * pages ≤ length image.now) × (pages ≤ most_pages) }
    ensures { (reached : List ℕ) → Matches marks.now reached → result ≡ diagnose.unreached image.now reached (pages - 2) 2 }
{
    for p in 2..pages {
        if image[Settings::PAGE * p + Settings::CAPACITY] != 0 && !is_marked(marks, p) {
            return p;
        }
    }
    0
}

// The walk from page 1, whose root is an aggregate; there are `left` record pages.
fn walk_fault(image: &[u8], left: usize) -> Result<(), Fault>
    requires before { (length_ok (length image.now) ≡ true) × (before_walk image.now ≡ true) }
    requires count { left ≡ record_count image.now (page_count image.now - 1) 1 }
    ensures { fault_result result ≡ walk_fault image.now }
{
    let pages = image.len() / Settings::PAGE;
    let mut marks = [0u8; Settings::MARKS];
    match record_walk(image, left, &mut marks) {
        Ok(1) => Ok(()),
        Ok(_) => Err(Fault {
            stage: Stage::Walk,
            page: unreached(image, pages, &marks),
            reason: Reason::NotReached,
        }),
        Err(Stop { page, reason }) => Err(Fault {
            stage: Stage::Walk,
            page,
            reason,
        }),
    }
}

// ── the whole ──

// The first stage that finds a fault. Page 0 and the other pages are tested again only where one is at fault.
fn fault_of(image: &[u8]) -> Result<(), Fault>
    requires { length_ok (length image.now) ≡ true }
    ensures { fault_result result ≡ fault_of image.now }
{
    if let Some(left) = trailers(image) {
        return walk_fault(image, left);
    }
    let pages = image.len() / Settings::PAGE;
    let page = &image[0..Settings::PAGE];
    if !settings_ok(page, pages) {
        return Err(Fault {
            stage: Stage::Settings,
            page: 0,
            reason: settings_reason(page),
        });
    }
    pages_fault(image, pages)
}

// Why an image does not pass the check, if it does not.
pub fn diagnose_of(image: &[u8]) -> Result<(), Failure>
    ensures { diagnose_result result ≡ diagnose_of image.now }
{
    if !length_ok(image.len()) {
        return Err(Failure::WrongLength);
    }
    fault_of(image)?;
    Ok(())
}
