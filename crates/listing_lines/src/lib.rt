// The lines that the listing program prints, each written to a lent buffer.
#![tactic(auto)]

ghost use Rattle.std.specs.Prelude.{◌≡◌, [], ◌∷◌, ◌<◌};
ghost use Rattle.listing_lines.specs.Text.{digit, decimal_of, hex_of, content_of, line_of, head_line, refused_line};
ghost use Rattle.listing_lines.specs.Digits.{fields_of};
ghost use Rattle.listing_lines.specs.Wrote.{Room, Wrote};
ghost use Rattle.listing_lines.specs.Writes.{Fits, Writes};

use base_numbers::copy_in;

// The digit of a number below 16.
fn glyph(d: u8) -> u8
    requires { d < 16 }
    ensures { result ≡ digit d }
{
    match d {
        0..=9 => b'0' + d,
        _ => b'a' - 10 + d,
    }
}

// ── a text from a place on ──
// Each of these writes its text from `at` on and gives where it ends. Behind a writer's address the place would be read and written anew for each byte.

fn put(b: u8, out: &mut [u8], at: usize) -> usize
    requires { Room (b ∷ []) at out.old }
    ensures { Wrote (b ∷ []) at out.old out.new result }
{
    out[at] = b;
    at + 1
}

fn decimal(n: usize, out: &mut [u8], at: usize) -> usize
    requires { Room (decimal_of n) at out.old }
    ensures { Wrote (decimal_of n) at out.old out.new result }
{
    if n < 10 {
        return put(glyph(n as u8), out, at);
    }
    let last = decimal(n / 10, out, at);
    put(glyph((n % 10) as u8), out, last)
}

fn hexadecimal(bytes: &[u8], out: &mut [u8], at: usize) -> usize
    requires { Room (hex_of bytes.now) at out.old }
    ensures { Wrote (hex_of bytes.now) at out.old out.new result }
{
    let mut end = at;
    for &b in bytes {
        let half = put(glyph(b / 16), out, end);
        end = put(glyph(b % 16), out, half);
    }
    end
}

// Content, or `-` when it is empty.
fn content(bytes: &[u8], out: &mut [u8], at: usize) -> usize
    requires { Room (content_of bytes.now) at out.old }
    ensures { Wrote (content_of bytes.now) at out.old out.new result }
{
    if bytes.is_empty() {
        return put(b'-', out, at);
    }
    hexadecimal(bytes, out, at)
}

// The fields of a node's line but the last.
#[tactic(auto, using(crate::specs::Digits::fields_long))]
fn fields(level: usize, letter: u8, label: usize, bytes: &[u8], out: &mut [u8], at: usize) -> usize
    requires { Room (fields_of level letter label bytes.now) at out.old }
    ensures { Wrote (fields_of level letter label bytes.now) at out.old out.new result }
{
    let at = decimal(level, out, at);
    let at = put(b' ', out, at);
    let at = put(letter, out, at);
    let at = put(b' ', out, at);
    let at = decimal(label, out, at);
    let at = put(b' ', out, at);
    content(bytes, out, at)
}

// One line of a node.
#[tactic(auto, using(crate::specs::Digits::line_long))]
fn line(
    level: usize,
    letter: u8,
    label: usize,
    bytes: &[u8],
    origin: usize,
    out: &mut [u8],
    at: usize,
) -> usize
    requires { Room (line_of level letter label bytes.now origin) at out.old }
    ensures { Wrote (line_of level letter label bytes.now origin) at out.old out.new result }
{
    let at = fields(level, letter, label, bytes, out, at);
    let at = put(b' ', out, at);
    let at = decimal(origin, out, at);
    put(b'\n', out, at)
}

// ── the writer ──

// A lent buffer, and where the text that is written to it ends so far. Each method writes its text from there on.
#[derive(Drop)]
pub struct Writer<'a> {
    pub out: &'a mut [u8],
    pub at: usize,
}

impl Writer<'_> {
    fn put(&mut self, b: u8)
        requires { Fits (b ∷ []) self.old }
        ensures { Writes (b ∷ []) self.old self.new }
    {
        self.at = put(b, self.out, self.at);
    }

    pub fn words(&mut self, text: &[u8])
        requires { Fits text.now self.old }
        ensures { Writes text.now self.old self.new }
    {
        copy_in(text, self.out, self.at);
        self.at += text.len();
    }

    pub fn decimal(&mut self, n: usize)
        requires { Fits (decimal_of n) self.old }
        ensures { Writes (decimal_of n) self.old self.new }
    {
        self.at = decimal(n, self.out, self.at);
    }

    pub fn hexadecimal(&mut self, bytes: &[u8])
        requires { Fits (hex_of bytes.now) self.old }
        ensures { Writes (hex_of bytes.now) self.old self.new }
    {
        self.at = hexadecimal(bytes, self.out, self.at);
    }

    // One line of a node.
    pub fn line(&mut self, level: usize, letter: u8, label: usize, bytes: &[u8], origin: usize)
        requires { Fits (line_of level letter label bytes.now origin) self.old }
        ensures { Writes (line_of level letter label bytes.now origin) self.old self.new }
    {
        self.at = line(level, letter, label, bytes, origin, self.out, self.at);
    }

    // The head line.
    #[tactic(auto, using(crate::specs::Digits::head_long))]
    pub fn head(&mut self, pages: usize, free: usize, records: usize)
        requires { Fits (head_line pages free records) self.old }
        ensures { Writes (head_line pages free records) self.old self.new }
    {
        self.words(b"pages ");
        self.decimal(pages);
        self.words(b" free ");
        self.decimal(free);
        self.words(b" records ");
        self.decimal(records);
        self.put(b'\n');
    }

    // The line of a refused image.
    #[tactic(auto, using(crate::specs::Digits::refused_long))]
    pub fn refused(&mut self, number: usize)
        requires { Fits (refused_line number) self.old }
        ensures { Writes (refused_line number) self.old self.new }
    {
        self.words(b"refused ");
        self.decimal(number);
        self.put(b'\n');
    }
}
