// The public calls: each for any bytes and arguments, the first refusal that applies, and nothing written where it is refused.
#![tactic(auto)]

ghost use Rattle.std.specs.Prelude.{◌≡◌, true, ◌*◌, ◌≤◌, length, replicate, IfOk};
ghost use Rattle.model.specs.Limits.{mark_bytes};
ghost use Rattle.model.specs.Reading.{length_ok};
ghost use Rattle.model.specs.Answers.{result_number, insert_result, find_result, write_result, read_result, next_result, walk_result};
ghost use Rattle.model.specs.Reasons.{diagnose_result};
ghost use Rattle.model.specs.Calls.Format.{format_of};
ghost use Rattle.model.specs.Calls.Check.{check_of};
ghost use Rattle.model.specs.Calls.Insert.{insert_of};
ghost use Rattle.model.specs.Calls.Remove.{remove_of};
ghost use Rattle.model.specs.Calls.Find.{find_of};
ghost use Rattle.model.specs.Calls.Climb.{climb_of};
ghost use Rattle.model.specs.Calls.Read.{read_of, part_of};
ghost use Rattle.model.specs.Calls.Next.{next_of};
ghost use Rattle.model.specs.Calls.Records.{records_of};
ghost use Rattle.model.specs.Calls.Walk.{walk_of};
ghost use Rattle.model.specs.Calls.Diagnose.{diagnose_of};
ghost use Rattle.theory_layout.specs.Widths.{Widths};
ghost use Rattle.store.specs.Widths.{Enough, Serves, Named};
ghost use Rattle.store.specs.Part.{slice, start_in, byte_of, node_of};
ghost use Rattle.read_records.specs.Up.{up_pages};

use base_ranges::{FEW, Tables, tables_for};
use grow_map::{map_bytes, shut};
use model::{Details, Failure, Inserted, Next, Place, Refusal, Settings, Walked};

// Leaves a root aggregate alone, pages 2 on free.
pub fn format(
    image: &mut [u8],
    settings: Settings,
    matrix: &[u8],
    label: u16,
) -> Result<(), Refusal>
    ensures number { result_number result ≡ (format_of image.old settings matrix.now label).0 }
    ensures image { image.new ≡ (format_of image.old settings matrix.now label).1 }
{
    format::format_image(image, settings, matrix, label)
}

pub fn check(image: &[u8]) -> Result<(), Refusal>
    ensures { result_number result ≡ check_of image.now }
{
    read_check::check(image)
}

// The check, for calls that count the nodes of rows: it leaves in a table how many nodes the record on each page shows.
fn check_widths(image: &[u8], widths: &mut [u32]) -> Result<(), Refusal>
    requires { Enough image.now widths.old }
    ensures { (result_number result ≡ check_of image.now) × (result_number result ≡ 0 → Widths image.now widths.new) }
{
    read_check::check_widths(image, widths)
}

// The check, for calls that change the image: it leaves in the marks, too, which pages hold the records below the root record.
fn check_tables(
    image: &[u8],
    marks: &mut [u8; Settings::MARKS],
    widths: &mut [u32],
) -> Result<(), Refusal>
    requires { Enough image.now widths.old × (marks.old ≡ replicate mark_bytes 0) }
    ensures { (result_number result ≡ check_of image.now) × (result_number result ≡ 0 → (length_ok (length image.now) ≡ true)
        × Widths image.now widths.new × Named image.now marks.new
        × (length marks.new ≡ mark_bytes)) }
{
    read_check::check_tables(image, marks, widths)
}

// The call with a table of N widths; `insert` chooses N. Each call that counts nodes has one. The check's marks are the map of the used pages once those that are
// never taken are marked too.
fn insert_sized<const N: usize>(
    image: &mut [u8],
    path: &[u8],
    child: u32,
    kind: usize,
    origin: usize,
    label: u16,
    content: &[u8],
) -> Result<Inserted, Refusal>
    requires { Serves image.old N }
    ensures answer { insert_result result ≡ (insert_of image.old path.now child kind origin label content.now).0 }
    ensures image { image.new ≡ (insert_of image.old path.now child kind origin label content.now).1 }
{
    let mut widths = [0u32; N];
    let mut marks = [0u8; Settings::MARKS];
    check_tables(image, &mut marks, &mut widths)?;
    let k = map_bytes(image.len());
    let map = &mut marks[..k];
    shut(map, image.len() / Settings::PAGE);
    grow_insert::insert_of(
        image,
        &mut widths,
        map,
        path,
        child,
        kind,
        origin,
        label,
        content,
    )
}

// Puts a new node as child `child` of the aggregate that the path names, and gives its place, how many records were split and the lean of the first split.
#[tactic(auto, using(crate::specs::Widths::few_serve, crate::specs::Widths::many_serve))]
pub fn insert(
    image: &mut [u8],
    path: &[u8],
    child: u32,
    kind: usize,
    origin: usize,
    label: u16,
    content: &[u8],
) -> Result<Inserted, Refusal>
    ensures answer { insert_result result ≡ (insert_of image.old path.now child kind origin label content.now).0 }
    ensures image { image.new ≡ (insert_of image.old path.now child kind origin label content.now).1 }
{
    match tables_for(image.len()) {
        Tables::Few => insert_sized::<FEW>(image, path, child, kind, origin, label, content),
        Tables::Many => insert_sized::<{ Settings::PAGES }>(
            image, path, child, kind, origin, label, content,
        ),
    }
}

// A removal with the check's marks, as for an insert.
fn remove_sized<const N: usize>(image: &mut [u8], path: &[u8]) -> Result<(), Refusal>
    requires { Serves image.old N }
    ensures number { result_number result ≡ (remove_of image.old path.now).0 }
    ensures image { image.new ≡ (remove_of image.old path.now).1 }
{
    let mut widths = [0u32; N];
    let mut marks = [0u8; Settings::MARKS];
    check_tables(image, &mut marks, &mut widths)?;
    let k = map_bytes(image.len());
    let map = &mut marks[..k];
    shut(map, image.len() / Settings::PAGE);
    remove_node::remove_of(image, &mut widths, map, path)
}

// Takes out the node that the path names, with all under it.
#[tactic(auto, using(crate::specs::Widths::few_serve, crate::specs::Widths::many_serve))]
pub fn remove(image: &mut [u8], path: &[u8]) -> Result<(), Refusal>
    ensures number { result_number result ≡ (remove_of image.old path.now).0 }
    ensures image { image.new ≡ (remove_of image.old path.now).1 }
{
    match tables_for(image.len()) {
        Tables::Few => remove_sized::<FEW>(image, path),
        Tables::Many => remove_sized::<{ Settings::PAGES }>(image, path),
    }
}

fn find_sized<const N: usize>(image: &[u8], path: &[u8]) -> Result<Place, Refusal>
    requires { Serves image.now N }
    ensures { find_result result ≡ find_of image.now path.now }
{
    let mut widths = [0u32; N];
    check_widths(image, &mut widths)?;
    read_find::find_in(image, &widths, path)
}

// The place of the node that a path names.
#[tactic(auto, using(crate::specs::Widths::few_serve, crate::specs::Widths::many_serve))]
pub fn find(image: &[u8], path: &[u8]) -> Result<Place, Refusal>
    ensures { find_result result ≡ find_of image.now path.now }
{
    match tables_for(image.len()) {
        Tables::Few => find_sized::<FEW>(image, path),
        Tables::Many => find_sized::<{ Settings::PAGES }>(image, path),
    }
}

fn climb_sized<const N: usize>(
    image: &[u8],
    place: Place,
    buffer: &mut [u8],
) -> Result<usize, Refusal>
    requires { Serves image.now N }
    ensures answer { write_result result ≡ (climb_of image.now place buffer.old).0 }
    ensures buffer { buffer.new ≡ (climb_of image.now place buffer.old).1 }
{
    let mut widths = [0u32; N];
    check_widths(image, &mut widths)?;
    read_climb::climb_of(image, &widths, place, buffer)
}

// The path of the node at a place, to the front of the lent buffer.
#[tactic(auto, using(crate::specs::Widths::few_serve, crate::specs::Widths::many_serve))]
pub fn climb(image: &[u8], place: Place, buffer: &mut [u8]) -> Result<usize, Refusal>
    ensures answer { write_result result ≡ (climb_of image.now place buffer.old).0 }
    ensures buffer { buffer.new ≡ (climb_of image.now place buffer.old).1 }
{
    match tables_for(image.len()) {
        Tables::Few => climb_sized::<FEW>(image, place, buffer),
        Tables::Many => climb_sized::<{ Settings::PAGES }>(image, place, buffer),
    }
}

fn read_sized<const N: usize>(image: &[u8], place: Place) -> Result<Details, Refusal>
    requires { Serves image.now N }
    ensures { read_result result ≡ read_of image.now place }
{
    let mut widths = [0u32; N];
    check_widths(image, &mut widths)?;
    read_next::read_of(image, &widths, place)
}

// Kind, origin, label, number of children and where the content is, of the node at a place.
#[tactic(auto, using(crate::specs::Widths::few_serve, crate::specs::Widths::many_serve))]
pub fn read_node(image: &[u8], place: Place) -> Result<Details, Refusal>
    ensures { read_result result ≡ read_of image.now place }
{
    match tables_for(image.len()) {
        Tables::Few => read_sized::<FEW>(image, place),
        Tables::Many => read_sized::<{ Settings::PAGES }>(image, place),
    }
}

// The part of the image that two numbers name, none where they name none. It is the image's own, from the start on: no copy. A `get` would not say so.
pub fn part_of(image: &[u8], start: usize, len: usize) -> &[u8]
    ensures { (result.now ≡ slice image.now start len)
        × (result.ref_ptr ≡ byte_of image.entry (start_in image.now start len)) }
{
    match start.checked_add(len) {
        Some(end) if end <= image.len() => &image[start..end],
        _ => &image[..0],
    }
}

// The answer of read: the content as a part of the caller's image, beside the node's numbers.
#[derive(Clone, Copy)]
pub struct ReadAnswer<'a> {
    pub content: &'a [u8],
    pub node: Details,
}

// What stands at a place: the node's numbers, and its content.
pub fn read<'a>(image: &'a [u8], place: Place) -> Result<ReadAnswer<'a>, Refusal>
    ensures node { read_result (node_of result) ≡ read_of image.now place }
    ensures content { IfOk result (λ a. (a.content.now ≡ part_of image.now (read_of image.now place))
        × (a.content.ref_ptr ≡ byte_of image.entry (read_of image.now place).start)) }
{
    let node = read_node(image, place)?;
    Ok(ReadAnswer {
        content: part_of(image, node.start, node.len),
        node,
    })
}

// The node after that at a place in document order, or the end.
pub fn next(image: &[u8], place: Place) -> Result<Next, Refusal>
    ensures { next_result result ≡ next_of image.now place }
{
    check(image)?;
    read_next::next_of(image, place)
}

// All record pages, each one time, to the front of the lent buffer; the order is free, and here it is ascending.
pub fn records(image: &[u8], buffer: &mut [u8]) -> Result<usize, Refusal>
    ensures answer { write_result result ≡ (records_of (up_pages image.now) image.now buffer.old).0 }
    ensures buffer { buffer.new ≡ (records_of (up_pages image.now) image.now buffer.old).1 }
{
    check(image)?;
    read_records::records_of(image, buffer)
}

fn walk_sized<const N: usize>(
    image: &[u8],
    place: Place,
    entries: &mut [u32],
) -> Result<Walked, Refusal>
    requires { Serves image.now N }
    ensures answer { walk_result result ≡ (walk_of image.now place entries.old).0 }
    ensures entries { entries.new ≡ (walk_of image.now place entries.old).1 }
{
    let mut widths = [0u32; N];
    check_widths(image, &mut widths)?;
    read_entries::walk_of(image, &widths, place, entries)
}

// The nodes from a place on, in document order, nine numbers each, to the front of the lent buffer.
#[tactic(auto, using(crate::specs::Widths::few_serve, crate::specs::Widths::many_serve))]
pub fn walk(image: &[u8], place: Place, entries: &mut [u32]) -> Result<Walked, Refusal>
    ensures answer { walk_result result ≡ (walk_of image.now place entries.old).0 }
    ensures entries { entries.new ≡ (walk_of image.now place entries.old).1 }
{
    match tables_for(image.len()) {
        Tables::Few => walk_sized::<FEW>(image, place, entries),
        Tables::Many => walk_sized::<{ Settings::PAGES }>(image, place, entries),
    }
}

// Why an image does not pass the check: the stage that finds it, the page at fault and a reason.
pub fn diagnose(image: &[u8]) -> Result<(), Failure>
    ensures { diagnose_result result ≡ diagnose_of image.now }
{
    read_faults::diagnose_of(image)
}
