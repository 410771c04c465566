// A walk's cursor: where an entry goes, the entry of a node, past a node or into it, and out of an aggregate with its children counted.
#![tactic(auto)]

ghost use Rattle.std.specs.Prelude.{◌≡◌, cond, List, ℕ, ◌+◌, ◌-◌, ◌≤◌, ◌<◌, length, set, eqb};
ghost use Rattle.std.proofs.lemmas.List.Edits.{sets};
ghost use Rattle.model.specs.Reading.{kind_at, head_at};
ghost use Rattle.read_cursor.specs.Way.{way, begin as begin_of, told};
ghost use Rattle.read_cursor.specs.Meets.{entry_at};
ghost use Rattle.read_cursor.specs.Entries.{Numbered, numbers};
ghost use Rattle.read_cursor.specs.declared.Level.{Level};
ghost use Rattle.read_cursor.specs.Going.{cursor, NodeHere, enters as enters_of, saved, Goal, Going, AtNode, AtEnd, Dealt, Roomy};

use base_layout::{label_at, origin_at, size_at};
use model::{Kind, Settings};
use read_next::content_at;

// What a walk remembers of an aggregate that it is in: where the row ends that the aggregate stands in, how many nodes of that row are passed, and where the
// aggregate's entry was written.
#[derive(Clone, Copy)]
pub struct Level {
    pub end: usize,
    pub n: usize,
    pub here: usize,
}

impl Level {
    pub const NONE: Level = Level {
        end: 0,
        n: 0,
        here: 0,
    };
}

// One for each level, and for level 0.
pub const STACK: usize = Settings::LEVELS + 1;

// Where a walk over a record is: at byte i of a row that ends at `end`, whose nodes have the level, and of which n are passed. `at` is 0 while the node is
// sought with which the entries begin, else one more than the numbers written; `next` is where the first node stands for which there was no room, else 0.
#[derive(Clone, Copy)]
pub struct Cursor {
    pub i: usize,
    pub end: usize,
    pub level: usize,
    pub n: usize,
    pub at: usize,
    pub next: usize,
}

impl Cursor {
    // Before the nodes of the record on page 1.
    pub const START: Cursor = Cursor {
        i: 0,
        end: 0,
        level: 1,
        n: 0,
        at: 0,
        next: 0,
    };
}

// Where the next entry goes, and the first node for which there was no room.
#[derive(Clone, Copy)]
pub struct Told {
    pub at: usize,
    pub next: usize,
}

// Where the entry of the node at i goes: the entries begin with the node at the target.
fn begin(at: usize, i: usize, target: usize) -> usize
    ensures { result ≡ begin_of target at i }
{
    if at != 0 {
        return at;
    }
    if i == target { 1 } else { 0 }
}

// An entry, whose children are not counted yet.
#[derive(Clone, Copy)]
struct Entry {
    level: usize,
    i: usize,
    kind: Kind,
    origin: usize,
    label: usize,
    start: usize,
    len: usize,
}

impl Entry {
    // Puts its nine numbers at index a, one by one: a copy of an array of them is slower.
    fn put(self, out: &mut [u32], a: usize)
        requires { (a + 9 ≤ length out.old) × Numbered self }
        ensures { out.new ≡ sets out.old a (numbers self) }
    {
        out[a] = self.level as u32;
        out[a + 1] = (self.i / Settings::PAGE) as u32;
        out[a + 2] = (self.i % Settings::PAGE) as u32;
        out[a + 3] = u32::from(self.kind);
        out[a + 4] = self.origin as u32;
        out[a + 5] = self.label as u32;
        out[a + 6] = 0;
        out[a + 7] = self.start as u32;
        out[a + 8] = self.len as u32;
    }
}

// The entry of the aggregate at the cursor; gives where the next one goes.
fn put_aggregate(image: &[u8], c: Cursor, out: &mut [u32], here: usize) -> usize
    requires { ((size : ℕ) × NodeHere image.now c.i size c.level) × (1 ≤ here) × (here + 8 ≤ length out.old) × (kind_at image.now c.i ≡ 1) }
    ensures number { result ≡ here + 9 }
    ensures out { (size : ℕ) → out.new
        ≡ sets out.old (here - 1) (entry_at c.level c.i (kind_at image.now c.i) (head_at image.now c.i) size 0) }
{
    let Cursor { i, level, .. } = c;
    let entry = Entry {
        level,
        i,
        kind: Kind::Aggregate,
        origin: origin_at(image, i),
        label: label_at(image, i),
        start: 0,
        len: 0,
    };
    entry.put(out, here - 1);
    here + 9
}

// The same of a literal of so many bytes.
fn put_literal(image: &[u8], c: Cursor, size: usize, out: &mut [u32], here: usize) -> usize
    requires { NodeHere image.now c.i size c.level × (1 ≤ here) × (here + 8 ≤ length out.old) × (kind_at image.now c.i ≡ 2) }
    ensures number { result ≡ here + 9 }
    ensures out { out.new
        ≡ sets out.old (here - 1) (entry_at c.level c.i (kind_at image.now c.i) (head_at image.now c.i) size 0) }
{
    let Cursor { i, level, .. } = c;
    let len = size - 6;
    let entry = Entry {
        level,
        i,
        kind: Kind::Literal,
        origin: origin_at(image, i),
        label: label_at(image, i),
        start: content_at(i, len),
        len,
    };
    entry.put(out, here - 1);
    here + 9
}

// The same of a node.
fn put_node(image: &[u8], c: Cursor, size: usize, out: &mut [u32], here: usize) -> usize
    requires { NodeHere image.now c.i size c.level × (1 ≤ here) × (here + 8 ≤ length out.old) }
    ensures number { result ≡ here + 9 }
    ensures out { out.new
        ≡ sets out.old (here - 1) (entry_at c.level c.i (kind_at image.now c.i) (head_at image.now c.i) size 0) }
{
    if image[c.i] == 1 {
        return put_aggregate(image, c, out, here);
    }
    put_literal(image, c, size, out, here)
}

// The same, if it is to be written and there is room for it.
fn tell(image: &[u8], c: Cursor, size: usize, out: &mut [u32], here: usize) -> Told
    requires { NodeHere image.now c.i size c.level × (here ≤ length out.old + 1) }
    ensures { way result.at result.next out.new
        ≡ told here c.i (entry_at c.level c.i (kind_at image.now c.i) (head_at image.now c.i) size 0) c.next out.old }
{
    let next = c.next;
    if here == 0 {
        return Told { at: 0, next };
    }
    if next != 0 {
        return Told { at: here, next };
    }
    if out.len() - (here - 1) < 9 {
        return Told {
            at: here,
            next: c.i,
        };
    }
    let at = put_node(image, c, size, out, here);
    Told { at, next }
}

// Whether a node is entered: an aggregate with children, unless the walk has stopped.
fn enters(image: &[u8], i: usize, size: usize, next: usize) -> bool
    requires { i < length image.now }
    ensures { result ≡ enters_of (kind_at image.now i) size next }
{
    image[i] == 1 && size > 6 && next == 0
}

// Past the node at the cursor, of so many bytes, once its entry is dealt with.
fn past(c: Cursor, size: usize, t: Told) -> Cursor
    requires { (c.i < 4194304) × (size < 65536) × (c.n < 4194304) }
    ensures { result ≡ cursor (c.i + size) c.end c.level (c.n + 1) t.at t.next }
{
    Cursor {
        i: c.i + size,
        n: c.n + 1,
        at: t.at,
        next: t.next,
        ..c
    }
}

// Into it; what is behind it goes on the stack.
fn into(c: Cursor, size: usize, here: usize, t: Told, stack: &mut [Level; STACK]) -> Cursor
    requires { (c.i < 4194304) × (size < 65536) × (c.n < 4194304) × (c.level ≤ 24) }
    ensures cursor { result ≡ cursor (c.i + 6) (c.i + size) (c.level + 1) 0 t.at t.next }
    ensures stack { stack.new ≡ saved stack.old c here }
{
    stack[c.level] = Level {
        end: c.end,
        n: c.n + 1,
        here,
    };
    Cursor {
        i: c.i + 6,
        end: c.i + size,
        level: c.level + 1,
        n: 0,
        at: t.at,
        next: t.next,
    }
}

// Past it or into it.
fn over(
    image: &[u8],
    c: Cursor,
    size: usize,
    here: usize,
    t: Told,
    stack: &mut [Level; STACK],
) -> Cursor
    requires { NodeHere image.now c.i size c.level × (c.n < 4194304) }
    ensures goes { (target : ℕ) (g : Goal) (out after : List ℕ) → AtNode image.now target g c stack.old out
        → Dealt image.now target c size here t.at t.next out after
        → Going image.now target g result stack.new after }
    ensures moves { (c.i + 6 ≤ result.i) × (result.level ≤ c.level + 1) }
{
    if enters(image, c.i, size, t.next) {
        return into(c, size, here, t, stack);
    }
    past(c, size, t)
}

// Past the node at the cursor, or into it.
pub fn node(
    image: &[u8],
    c: Cursor,
    target: usize,
    stack: &mut [Level; STACK],
    out: &mut [u32],
) -> Cursor
    requires { (g : Goal) × AtNode image.now target g c stack.old out.old }
    ensures goes { (g : Goal) → AtNode image.now target g c stack.old out.old
        → Going image.now target g result stack.new out.new }
    ensures moves { (c.i + 6 ≤ result.i) × (result.level ≤ c.level + 1) }
{
    let size = size_at(image, c.i);
    let here = begin(c.at, c.i, target);
    let t = tell(image, c, size, out, here);
    over(image, c, size, here, t, stack)
}

// The same of an aggregate where there is room for its entry.
pub fn write_aggregate(
    image: &[u8],
    c: Cursor,
    stack: &mut [Level; STACK],
    out: &mut [u32],
) -> Cursor
    requires { ((target : ℕ) × (g : Goal) × AtNode image.now target g c stack.old out.old) × Roomy c (length out.old) × (kind_at image.now c.i ≡ 1) }
    ensures goes { (target : ℕ) (g : Goal) → AtNode image.now target g c stack.old out.old
        → Going image.now target g result stack.new out.new }
    ensures moves { (c.i + 6 ≤ result.i) × (result.level ≤ c.level + 1) }
{
    let size = size_at(image, c.i);
    let here = c.at;
    let t = Told {
        at: put_aggregate(image, c, out, here),
        next: 0,
    };
    if size > 6 {
        return into(c, size, here, t, stack);
    }
    past(c, size, t)
}

// The same of a literal.
pub fn write_literal(image: &[u8], c: Cursor, out: &mut [u32]) -> Cursor
    requires { ((target : ℕ) × (g : Goal) × (stack : List Level) × AtNode image.now target g c stack out.old) × Roomy c (length out.old) × (kind_at image.now c.i ≡ 2) }
    ensures goes { (target : ℕ) (g : Goal) (stack : List Level) → AtNode image.now target g c stack out.old
        → Going image.now target g result stack out.new }
    ensures moves { (c.i + 6 ≤ result.i) × (result.level ≡ c.level) × (result.at ≡ c.at + 9) × (result.next ≡ 0) }
{
    let size = size_at(image, c.i);
    let at = put_literal(image, c, size, out, c.at);
    past(c, size, Told { at, next: 0 })
}

// The number of children, put into the entry of an aggregate; 0: none was written.
fn put_count(out: &mut [u32], here: usize, n: usize)
    requires { ((here ≡ 0 → ⊥) → here + 8 ≤ length out.old) × (n < 4294967296) }
    ensures { out.new ≡ cond (eqb here 0) out.old (set out.old (here + 5) n) }
{
    if here == 0 {
        return;
    }
    out[here + 5] = n as u32;
}

// Out of the aggregate whose row is at its end: now its children are counted.
pub fn close(c: Cursor, stack: &[Level; STACK], out: &mut [u32]) -> Cursor
    requires { (i : List ℕ) × (t : ℕ) × (g : Goal) × AtEnd i t g c stack.now out.old }
    ensures goes { (i : List ℕ) (t : ℕ) (g : Goal) → AtEnd i t g c stack.now out.old
        → Going i t g result stack.now out.new }
    ensures moves { (result.i ≡ c.i) × (result.level ≡ c.level - 1) }
{
    let level = c.level - 1;
    let outer = stack[level];
    put_count(out, outer.here, c.n);
    Cursor {
        end: outer.end,
        level,
        n: outer.n,
        ..c
    }
}
