// Reads and writes of bytes in a slice: the leaves.
#![tactic(auto)]

ghost use Rattle.std.specs.Prelude.{◌≡◌, ◌+◌, ◌≤◌, ◌<◌, length, replicate};
ghost use Rattle.model.specs.Row as row;
ghost use Rattle.model.specs.Reading.{two_at};
ghost use Rattle.model.specs.Common.{four};
ghost use Rattle.base_numbers.specs.Over.{over};

// A byte as a number of the machine.
pub fn wide(x: u8) -> usize
    ensures { (result ≡ x) × (result < 256) }
{
    usize::from(x)
}

// The two-byte number at `at`, low byte first.
pub fn two(s: &[u8], at: usize) -> usize
    requires { at + 1 < length s.now }
    ensures { (result ≡ two_at s.now at) × (result < 65536) }
{
    usize::from(u16::from_le_bytes([s[at], s[at + 1]]))
}

// Writes the two-byte number v at `at`.
pub fn put16(s: &mut [u8], at: usize, v: usize)
    requires { (at + 1 < length s.old) × (v < 65536) }
    ensures { s.new ≡ over at (row.two v) s.old }
{
    s[at..at + 2].copy_from_slice(&v.to_le_bytes()[..2]);
}

// Writes the low four bytes of the number v at `at`, low byte first.
pub fn put32(s: &mut [u8], at: usize, v: usize)
    requires { at + 4 ≤ length s.old }
    ensures { s.new ≡ over at (four v) s.old }
{
    s[at..at + 4].copy_from_slice(&v.to_le_bytes()[..4]);
}

// Copies all of src into dst from `at`. By a loop: `copy_from_slice` would ask the C library for memmove as well.
pub fn copy_in(src: &[u8], dst: &mut [u8], at: usize)
    requires { at + length src.now ≤ length dst.old }
    ensures { dst.new ≡ over at src.now dst.old }
{
    for j in 0..src.len() {
        dst[at + j] = src[j];
    }
}

// Writes n zeros from `at`.
pub fn clear(s: &mut [u8], at: usize, n: usize)
    requires { at + n ≤ length s.old }
    ensures { s.new ≡ over at (replicate n 0) s.old }
{
    s[at..at + n].fill(0);
}
