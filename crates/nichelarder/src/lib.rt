// What the entry points for C do, as include/nichelarder.h declares them: numbers and byte buffers, over the proved calls. nichelarder_c exports them.
#![tactic(auto)]

ghost use Rattle.std.specs.Prelude.{◌≡◌, Ok};
ghost use Rattle.model.specs.Answers.{next_numbers, result_number, walk_result};
ghost use Rattle.model.specs.Calls.Format.{format_of};
ghost use Rattle.model.specs.Calls.Check.{check_of};
ghost use Rattle.model.specs.Calls.Insert.{insert_of};
ghost use Rattle.model.specs.Calls.Remove.{remove_of};
ghost use Rattle.model.specs.Calls.Find.{find_of};
ghost use Rattle.model.specs.Calls.Climb.{climb_of};
ghost use Rattle.model.specs.Calls.Read.{read_of};
ghost use Rattle.model.specs.Calls.Next.{next_of};
ghost use Rattle.model.specs.Calls.Records.{records_of};
ghost use Rattle.model.specs.Calls.Walk.{walk_of};
ghost use Rattle.model.specs.Calls.Diagnose.{diagnose_of};
ghost use Rattle.read_records.specs.Up.{up_pages};
ghost use Rattle.nichelarder.specs.Numbers.{settings, insert_numbers, place_numbers, read_numbers, walk_numbers, fault_numbers};
ghost use Rattle.nichelarder.specs.Small.{SmallNext, SmallWalk};

use base_numbers::copy_in;
use model::{Failure, Next, Place, Refusal, Settings, Walked};

// The number of a call's answer.
fn number(answer: Result<(), Refusal>) -> u32
    ensures { result ≡ result_number answer }
{
    match answer {
        Ok(()) => 0,
        Err(refusal) => u32::from(refusal),
    }
}

pub fn nl_format(
    image: &mut [u8],
    pages: u32,
    target: u32,
    tolerance: u32,
    form: u32,
    matrix: &[u8],
    label: u16,
) -> u32
    ensures number { result ≡ (format_of image.old (settings pages target tolerance form) matrix.now label).0 }
    ensures image { image.new ≡ (format_of image.old (settings pages target tolerance form) matrix.now label).1 }
{
    let s = Settings {
        pages: pages as usize,
        target: target as usize,
        tolerance: tolerance as usize,
        form: form as usize,
    };
    if matrix.len() != Settings::ENTRIES {
        return number(store::format(image, s, matrix, label));
    }
    // the entries may lie in the image, which format clears before it writes them
    let mut entries = [0u8; Settings::ENTRIES];
    copy_in(matrix, &mut entries, 0);
    number(store::format(image, s, &entries, label))
}

pub fn nl_check(image: &[u8]) -> u32
    ensures { result ≡ check_of image.now }
{
    number(store::check(image))
}

pub fn nl_insert(
    image: &mut [u8],
    parent: &[u8],
    child: u32,
    kind: u32,
    origin: u32,
    label: u16,
    content: &[u8],
    answer: &mut [u32; 3],
    lean: &mut i32,
) -> u32
    ensures number { result ≡ (insert_of image.old parent.now child kind origin label content.now).0.number }
    ensures answer { answer.new
        ≡ insert_numbers (insert_of image.old parent.now child kind origin label content.now).0 }
    ensures lean { lean.new ≡ (insert_of image.old parent.now child kind origin label content.now).0.lean }
    ensures image { image.new ≡ (insert_of image.old parent.now child kind origin label content.now).1 }
{
    let inserted = store::insert(
        image,
        parent,
        child,
        kind as usize,
        origin as usize,
        label,
        content,
    );
    match inserted {
        Ok(a) => {
            *answer = [a.place.page as u32, a.place.offset as u32, a.splits];
            *lean = a.lean;
            0
        }
        Err(refusal) => {
            *answer = [0; 3];
            *lean = 0;
            u32::from(refusal)
        }
    }
}

pub fn nl_remove(image: &mut [u8], path: &[u8]) -> u32
    ensures number { result ≡ (remove_of image.old path.now).0 }
    ensures image { image.new ≡ (remove_of image.old path.now).1 }
{
    number(store::remove(image, path))
}

pub fn nl_find(image: &[u8], path: &[u8], place: &mut [u32; 2]) -> u32
    ensures number { result ≡ (find_of image.now path.now).number }
    ensures place { place.new ≡ place_numbers (find_of image.now path.now).place }
{
    match store::find(image, path) {
        Ok(x) => {
            *place = [x.page as u32, x.offset as u32];
            0
        }
        Err(refusal) => {
            *place = [0; 2];
            u32::from(refusal)
        }
    }
}

pub fn nl_climb(image: &[u8], page: u32, offset: u32, path: &mut [u8], written: &mut u32) -> u32
    ensures number { result ≡ (climb_of image.now (record { page = page; offset = offset }) path.old).0.number }
    ensures written { written.new ≡ (climb_of image.now (record { page = page; offset = offset }) path.old).0.written }
    ensures path { path.new ≡ (climb_of image.now (record { page = page; offset = offset }) path.old).1 }
{
    let x = Place {
        page: page as usize,
        offset: offset as usize,
    };
    match store::climb(image, x, path) {
        Ok(n) => {
            *written = n as u32;
            0
        }
        Err(refusal) => {
            *written = 0;
            u32::from(refusal)
        }
    }
}

pub fn nl_read(image: &[u8], page: u32, offset: u32, answer: &mut [u32; 6]) -> u32
    ensures number { result ≡ (read_of image.now (record { page = page; offset = offset })).number }
    ensures answer { answer.new ≡ read_numbers (read_of image.now (record { page = page; offset = offset })) }
{
    let x = Place {
        page: page as usize,
        offset: offset as usize,
    };
    match store::read_node(image, x) {
        Ok(node) => {
            *answer = [
                u32::from(node.kind),
                node.label,
                node.children,
                node.start as u32,
                node.len as u32,
                u32::from(node.origin),
            ];
            0
        }
        Err(refusal) => {
            *answer = [0; 6];
            u32::from(refusal)
        }
    }
}

// The numbers of each case of Next.
fn next_numbers(next: Next) -> [u32; 5]
    requires { SmallNext next }
    ensures { result ≡ next_numbers next }
{
    match next {
        Next::Node(n) => [
            1,
            n.place.page as u32,
            n.place.offset as u32,
            u32::from(n.kind),
            u32::from(n.origin),
        ],
        Next::End => [0, 0, 0, 0, 0],
    }
}

pub fn nl_next(image: &[u8], page: u32, offset: u32, answer: &mut [u32; 5]) -> u32
    ensures number { result ≡ (next_of image.now (record { page = page; offset = offset })).number }
    ensures answer { answer.new ≡ next_numbers (next_of image.now (record { page = page; offset = offset })).next }
{
    let x = Place {
        page: page as usize,
        offset: offset as usize,
    };
    match store::next(image, x) {
        Ok(next) => {
            *answer = next_numbers(next);
            0
        }
        Err(refusal) => {
            *answer = [0; 5];
            u32::from(refusal)
        }
    }
}

pub fn nl_records(image: &[u8], pages: &mut [u8], written: &mut u32) -> u32
    ensures number { result ≡ (records_of (up_pages image.now) image.now pages.old).0.number }
    ensures written { written.new ≡ (records_of (up_pages image.now) image.now pages.old).0.written }
    ensures pages { pages.new ≡ (records_of (up_pages image.now) image.now pages.old).1 }
{
    match store::records(image, pages) {
        Ok(n) => {
            *written = n as u32;
            0
        }
        Err(refusal) => {
            *written = 0;
            u32::from(refusal)
        }
    }
}

// The numbers of where a walk ends.
fn walk_numbers(walked: Walked) -> [u32; 4]
    requires { SmallWalk (walk_result (Ok walked)) }
    ensures { result ≡ walk_numbers (walk_result (Ok walked)) }
{
    match walked.next {
        Some(x) => [walked.written as u32, 1, x.page as u32, x.offset as u32],
        None => [walked.written as u32, 0, 0, 0],
    }
}

pub fn nl_walk(
    image: &[u8],
    page: u32,
    offset: u32,
    entries: &mut [u32],
    answer: &mut [u32; 4],
) -> u32
    ensures number { result ≡ (walk_of image.now (record { page = page; offset = offset }) entries.old).0.number }
    ensures answer { answer.new
        ≡ walk_numbers (walk_of image.now (record { page = page; offset = offset }) entries.old).0 }
    ensures entries { entries.new ≡ (walk_of image.now (record { page = page; offset = offset }) entries.old).1 }
{
    let x = Place {
        page: page as usize,
        offset: offset as usize,
    };
    match store::walk(image, x, entries) {
        Ok(walked) => {
            *answer = walk_numbers(walked);
            0
        }
        Err(refusal) => {
            *answer = [0; 4];
            u32::from(refusal)
        }
    }
}

pub fn nl_diagnose(image: &[u8], answer: &mut [u32; 3]) -> u32
    ensures number { result ≡ (diagnose_of image.now).number }
    ensures answer { answer.new ≡ fault_numbers (diagnose_of image.now) }
{
    match store::diagnose(image) {
        Ok(()) => {
            *answer = [0; 3];
            0
        }
        Err(Failure::WrongLength) => {
            *answer = [0; 3];
            u32::from(Refusal::WrongLength)
        }
        Err(Failure::Broken(fault)) => {
            *answer = [
                u32::from(fault.stage),
                fault.page as u32,
                u32::from(fault.reason),
            ];
            u32::from(Refusal::NotPassed)
        }
    }
}
