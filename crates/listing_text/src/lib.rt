// The text that the listing program prints for an input, written to a lent buffer.
#![tactic(auto)]

ghost use Rattle.std.specs.Prelude.{◌≡◌, ◌+◌, ◌≤◌, length};
ghost use Rattle.model.specs.Calls.Check.{check_of};
ghost use Rattle.listing_lines.specs.Text.{listing_on, printed};
ghost use Rattle.listing_lines.specs.Wrote.{Wrote};
ghost use Rattle.listing_lines.specs.Writes.{Fits, Writes};
ghost use Rattle.listing_text.specs.Bound.{listing_room};
ghost use Rattle.listing_text.specs.Lined.{own_of, inside_of, ListedNode, Fitting, Texted};

use base_layout::{label_at, name_at, origin_at, record_end, size_at};
use listing_lines::Writer;
use model::Settings;
use read_check::check;
use read_find::row_start;
use read_records::count_pages;

// The row that a node holds: where it starts and ends, and the level of its nodes.
#[derive(Clone, Copy)]
pub struct Extent {
    pub start: usize,
    pub stop: usize,
    pub level: usize,
}

// An aggregate holds its children, one level down; a proxy stands for its record's row; a literal holds none.
fn inside(image: &[u8], i: usize, next: usize, level: usize) -> Extent
    requires { ListedNode image.now i next level }
    ensures { result ≡ inside_of image.now i next level }
{
    match image[i] {
        1 => Extent {
            start: i + 6,
            stop: next,
            level: level + 1,
        },
        3 => {
            let p = name_at(image, i);
            Extent {
                start: row_start(image, p),
                stop: record_end(image, p),
                level,
            }
        }
        _ => Extent {
            start: next,
            stop: next,
            level,
        },
    }
}

// The line of the node at i, which ends at next; a proxy has none.
fn own(image: &[u8], i: usize, next: usize, level: usize, writer: &mut Writer)
    requires listed_node { ListedNode image.now i next level }
    requires fits { Fits (own_of image.now i next level) writer.old }
    ensures { Writes (own_of image.now i next level) writer.old writer.new }
{
    let label = label_at(image, i);
    let origin = origin_at(image, i);
    match image[i] {
        1 => writer.line(level, b'A', label, &[], origin),
        2 => writer.line(level, b'L', label, &image[i + 6..next], origin),
        _ => {}
    }
}

// The lines of a row, each node's followed by those of the row that it holds. Nodes are nested at most `depth` deep in it.
fn walk(image: &[u8], row: Extent, depth: usize, writer: &mut Writer)
    requires { Fitting image.now row.start row.stop row.level depth writer.old.at writer.old.out.now }
    ensures text { (w : Fitting image.now row.start row.stop row.level depth writer.old.at writer.old.out.now)
        → Texted w writer.new.out.now writer.new.at }
    ensures same_buffer { writer.new.out.ghost_name ≡ writer.old.out.ghost_name }
{
    let mut i = row.start;
    while i < row.stop {
        let next = i + size_at(image, i);
        own(image, i, next, row.level, writer);
        let held = inside(image, i, next, row.level);
        walk(image, held, depth - 1, writer);
        i = next;
    }
}

// ── the whole ──

// The listing of an image that passes the check.
pub fn listing(image: &[u8], writer: &mut Writer)
    requires { (check_of image.now ≡ 0) × (length image.now ≤ 61440)
        × (writer.old.at + listing_room ≤ length writer.old.out.now) }
    ensures { Writes (listing_on image.now) writer.old writer.new }
{
    let pages = image.len() / Settings::PAGE;
    let n = count_pages(image, pages);
    writer.head(pages, pages - 1 - n, n);
    let root = Extent {
        start: row_start(image, 1),
        stop: record_end(image, 1),
        level: 1,
    };
    walk(image, root, Settings::PAGE * Settings::PAGES, writer);
}

// What is printed for an input, written next.
fn write(input: &[u8], writer: &mut Writer)
    requires { writer.old.at + listing_room ≤ length writer.old.out.now }
    ensures { Writes (printed input.now) writer.old writer.new }
{
    if 61440 < input.len() {
        return writer.words(b"over 15 pages\n");
    }
    match check(input) {
        Ok(()) => listing(input, writer),
        Err(refusal) => writer.refused(u32::from(refusal) as usize),
    }
}

// What is printed for an input, from the buffer's front on.
pub fn print(input: &[u8], out: &mut [u8]) -> usize
    requires { listing_room ≤ length out.old }
    ensures { Wrote (printed input.now) 0 out.old out.new result }
{
    let mut writer = Writer { out, at: 0 };
    write(input, &mut writer);
    writer.at
}
