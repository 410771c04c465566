// The C interface, as include/nichelarder.h declares it: each function is the one of the same name in the crate nichelarder, with its clauses.
#![tactic(auto)]

ghost use Rattle.std.specs.Prelude.{◌≡◌};
ghost use Rattle.model.specs.Answers.{next_numbers};
ghost use Rattle.model.specs.Calls.Format.{format_of};
ghost use Rattle.model.specs.Calls.Check.{check_of};
ghost use Rattle.model.specs.Calls.Insert.{insert_of};
ghost use Rattle.model.specs.Calls.Remove.{remove_of};
ghost use Rattle.model.specs.Calls.Find.{find_of};
ghost use Rattle.model.specs.Calls.Climb.{climb_of};
ghost use Rattle.model.specs.Calls.Read.{read_of};
ghost use Rattle.model.specs.Calls.Next.{next_of};
ghost use Rattle.model.specs.Calls.Records.{records_of};
ghost use Rattle.model.specs.Calls.Walk.{walk_of};
ghost use Rattle.model.specs.Calls.Diagnose.{diagnose_of};
ghost use Rattle.read_records.specs.Up.{up_pages};
ghost use Rattle.nichelarder.specs.Numbers.{settings, insert_numbers, place_numbers, read_numbers, walk_numbers, fault_numbers};

#[unsafe(no_mangle)]
pub extern "C" fn nl_format(
    image: &mut [u8],
    pages: u32,
    target: u32,
    tolerance: u32,
    form: u32,
    matrix: &[u8],
    label: u16,
) -> u32
    ensures number { result ≡ (format_of image.old (settings pages target tolerance form) matrix.now label).0 }
    ensures image { image.new ≡ (format_of image.old (settings pages target tolerance form) matrix.now label).1 }
{
    nichelarder::nl_format(image, pages, target, tolerance, form, matrix, label)
}

#[unsafe(no_mangle)]
pub extern "C" fn nl_check(image: &[u8]) -> u32
    ensures { result ≡ check_of image.now }
{
    nichelarder::nl_check(image)
}

#[unsafe(no_mangle)]
pub extern "C" fn nl_insert(
    image: &mut [u8],
    parent: &[u8],
    child: u32,
    kind: u32,
    origin: u32,
    label: u16,
    content: &[u8],
    answer: &mut [u32; 3],
    lean: &mut i32,
) -> u32
    ensures number { result ≡ (insert_of image.old parent.now child kind origin label content.now).0.number }
    ensures answer { answer.new
        ≡ insert_numbers (insert_of image.old parent.now child kind origin label content.now).0 }
    ensures lean { lean.new ≡ (insert_of image.old parent.now child kind origin label content.now).0.lean }
    ensures image { image.new ≡ (insert_of image.old parent.now child kind origin label content.now).1 }
{
    nichelarder::nl_insert(
        image, parent, child, kind, origin, label, content, answer, lean,
    )
}

#[unsafe(no_mangle)]
pub extern "C" fn nl_remove(image: &mut [u8], path: &[u8]) -> u32
    ensures number { result ≡ (remove_of image.old path.now).0 }
    ensures image { image.new ≡ (remove_of image.old path.now).1 }
{
    nichelarder::nl_remove(image, path)
}

#[unsafe(no_mangle)]
pub extern "C" fn nl_find(image: &[u8], path: &[u8], place: &mut [u32; 2]) -> u32
    ensures number { result ≡ (find_of image.now path.now).number }
    ensures place { place.new ≡ place_numbers (find_of image.now path.now).place }
{
    nichelarder::nl_find(image, path, place)
}

#[unsafe(no_mangle)]
pub extern "C" fn nl_climb(
    image: &[u8],
    page: u32,
    offset: u32,
    path: &mut [u8],
    written: &mut u32,
) -> u32
    ensures number { result ≡ (climb_of image.now (record { page = page; offset = offset }) path.old).0.number }
    ensures written { written.new ≡ (climb_of image.now (record { page = page; offset = offset }) path.old).0.written }
    ensures path { path.new ≡ (climb_of image.now (record { page = page; offset = offset }) path.old).1 }
{
    nichelarder::nl_climb(image, page, offset, path, written)
}

#[unsafe(no_mangle)]
pub extern "C" fn nl_read(image: &[u8], page: u32, offset: u32, answer: &mut [u32; 6]) -> u32
    ensures number { result ≡ (read_of image.now (record { page = page; offset = offset })).number }
    ensures answer { answer.new ≡ read_numbers (read_of image.now (record { page = page; offset = offset })) }
{
    nichelarder::nl_read(image, page, offset, answer)
}

#[unsafe(no_mangle)]
pub extern "C" fn nl_next(image: &[u8], page: u32, offset: u32, answer: &mut [u32; 5]) -> u32
    ensures number { result ≡ (next_of image.now (record { page = page; offset = offset })).number }
    ensures answer { answer.new ≡ next_numbers (next_of image.now (record { page = page; offset = offset })).next }
{
    nichelarder::nl_next(image, page, offset, answer)
}

#[unsafe(no_mangle)]
pub extern "C" fn nl_records(image: &[u8], pages: &mut [u8], written: &mut u32) -> u32
    ensures number { result ≡ (records_of (up_pages image.now) image.now pages.old).0.number }
    ensures written { written.new ≡ (records_of (up_pages image.now) image.now pages.old).0.written }
    ensures pages { pages.new ≡ (records_of (up_pages image.now) image.now pages.old).1 }
{
    nichelarder::nl_records(image, pages, written)
}

#[unsafe(no_mangle)]
pub extern "C" fn nl_walk(
    image: &[u8],
    page: u32,
    offset: u32,
    entries: &mut [u32],
    answer: &mut [u32; 4],
) -> u32
    ensures number { result ≡ (walk_of image.now (record { page = page; offset = offset }) entries.old).0.number }
    ensures answer { answer.new
        ≡ walk_numbers (walk_of image.now (record { page = page; offset = offset }) entries.old).0 }
    ensures entries { entries.new ≡ (walk_of image.now (record { page = page; offset = offset }) entries.old).1 }
{
    nichelarder::nl_walk(image, page, offset, entries, answer)
}

#[unsafe(no_mangle)]
pub extern "C" fn nl_diagnose(image: &[u8], answer: &mut [u32; 3]) -> u32
    ensures number { result ≡ (diagnose_of image.now).number }
    ensures answer { answer.new ≡ fault_numbers (diagnose_of image.now) }
{
    nichelarder::nl_diagnose(image, answer)
}
