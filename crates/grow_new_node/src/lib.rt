// The start of an insert, on an image that passes the check: the new node's bytes, and its own record if it is set apart.
#![tactic(auto)]

ghost use Rattle.std.specs.Prelude.{◌≡◌, true, cond, ◌+◌, ◌*◌, ◌≤◌, ◌<◌, length, set};
ghost use Rattle.model.specs.Limits.{most_pages, page_size, capacity};
ghost use Rattle.model.specs.Row.{Head, Row, nil, size, bytes, lone, Config};
ghost use Rattle.model.specs.Reading.{Reads};
ghost use Rattle.model.specs.Calls.Insert.{new_of};
ghost use Rattle.model.specs.Tree.{New};
ghost use Rattle.model.specs.Growth.{Work, apart, as_row};
ghost use Rattle.base_numbers.specs.Over.{over};
ghost use Rattle.base_layout.specs.Setup.{setup_of};
ghost use Rattle.grow_pages.specs.Write.{set_page, page_bytes_of};
ghost use Rattle.grow_new_node.specs.Node.{Sound};
ghost use Rattle.grow_groups.specs.Used.{tables, InUse, Env};
ghost use Rattle.grow_new_node.specs.Placed.{Own, NodePlaced};

use base_layout::{Growing, Setup};
use base_numbers::{copy_in, put16};
use grow_groups::put_proxy;
use grow_map::{first_free, set_used};
use grow_pages::put_record;

// How many bytes stand for the new node in its row, and whether a page was taken where none was free.
#[derive(Clone, Copy)]
pub struct Fresh {
    pub size: usize,
    pub full: bool,
}

// Writes the new node to the front of out; its size.
pub fn put_node(out: &mut [u8], kind: usize, origin: usize, label: usize, content: &[u8]) -> usize
    requires { Sound kind origin label content.now × (6 + length content.now ≤ length out.old) }
    ensures size { (st : Config) → result ≡ size (as_row st (new_of kind origin label content.now) nil) }
    ensures bytes { (st : Config) → out.new ≡ over 0 (bytes (as_row st (new_of kind origin label content.now) nil)) out.old }
{
    let n = 6 + content.len();
    // kind and origin, a byte each
    put16(out, 0, kind + 256 * origin);
    put16(out, 2, label);
    put16(out, 4, n);
    copy_in(content, out, 6);
    n
}

// Whether the matrix sets a child apart from its parent, by their labels.
pub fn is_apart(image: &[u8], setup: Setup, parent: usize, child: usize) -> bool
    requires { setup.matrix + 256 ≤ length image.now }
    ensures { (st : Config) (root : Row) → Reads image.now st root → setup_of st ≡ setup
        → (h c : Head) → h.label ≡ parent → c.label ≡ child → result ≡ apart st h c }
{
    // labels from 15 on share a row and a column
    let row = parent.min(15);
    let column = child.min(15);
    image[setup.matrix + 16 * row + column] == 0
}

// Unless the run is dry, writes the node's own record to page q, settled and held by page `holder`, and to the table that it shows one node.
fn put_own(image: &mut [u8], widths: &mut [u32], q: usize, node: &[u8], holder: usize, dry: bool)
    requires { (q < most_pages) × (page_size * q + page_size ≤ length image.old) × (q < length widths.old) × (length node.now ≤ capacity)
        × (holder < most_pages) }
    ensures image { image.new
        ≡ cond dry image.old (set_page q (page_bytes_of node.now 1 holder) image.old) }
    ensures widths { widths.new ≡ cond dry widths.old (set widths.old q 1) }
{
    if dry {
        return;
    }
    widths[q] = 1;
    put_record(image, q, node, 1, holder);
}

// Gives the node a settled record of its own and writes its proxy to the front of out; whether no page was free.
pub fn place_apart(
    image: &mut [u8],
    widths: &mut [u32],
    map: &mut [u8],
    g: Growing,
    node: &[u8],
    out: &mut [u8],
) -> bool
    requires { Env g (tables widths.old map.old) image.old × ((length node.now ≤ capacity) × (8 ≤ length out.old)) }
    ensures { (row : Row) → lone row ≡ true → node.now ≡ bytes row
        → Own g row widths.old map.old image.old out.old
        result widths.new map.new image.new out.new }
{
    let near = g.near;
    let q = first_free(map, near);
    set_used(map, q);
    put_own(image, widths, q, node, near, g.dry);
    put_proxy(out, 0, q);
    q == 0
}

// Writes what stands for the new node in its row to the front of out: the node, or the proxy of its own record if the matrix sets it apart.
pub fn place_node(
    image: &mut [u8],
    widths: &mut [u32],
    map: &mut [u8],
    g: Growing,
    parent: usize,
    label: usize,
    node: &[u8],
    out: &mut [u8],
) -> Fresh
    requires { Env g (tables widths.old map.old) image.old × ((g.setup.matrix + 256 ≤ length image.old)
        × ((length node.now ≤ capacity) × ((length node.now ≤ length out.old) × (8 ≤ length out.old)))) }
    ensures { (st : Config) (root : Row) → Reads image.old st root → setup_of st ≡ g.setup
        → (w : Work) → InUse (tables widths.old map.old) w → (x : New) (h : Head) → h.label ≡ parent → x.head.label ≡ label
        → node.now ≡ bytes (as_row st x nil)
        → NodePlaced st x h g w (tables widths.old map.old) image.old out.old
        result (tables widths.new map.new) image.new out.new }
{
    let setup = g.setup;
    if is_apart(image, setup, parent, label) {
        let full = place_apart(image, widths, map, g, node, out);
        return Fresh { size: 8, full };
    }
    copy_in(node, out, 0);
    Fresh {
        size: node.len(),
        full: false,
    }
}
