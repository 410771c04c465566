// Lists an image of up to 15 pages that stands on standard input.
#![tactic(auto)]

ghost use Rattle.std.specs.Prelude.{◌≡◌, ◌≤◌, length, IfOk};

use std::io::{self, Read, Write};

// Room for an image, with one page more than may be listed, and for the longest listing.
const INPUT: usize = 65536;

const LISTING: usize = 155648;

// The `ensures` gives only the length, which lending the array needs.
fn zeros<const N: usize>() -> [u8; N]
    ensures { N ≡ length result }
{
    [0u8; N]
}

// Reads until the buffer is full or the input ends, and answers how much it read.
fn read_full<R: Read>(input: &mut R, buffer: &mut [u8]) -> io::Result<usize>
    ensures { IfOk result (λ n. n ≤ length buffer.new) }
{
    let mut n = 0;
    while n < buffer.len() {
        let k = input.read(&mut buffer[n..])?;
        if k == 0 {
            break;
        }
        n += k;
    }
    Ok(n)
}

// Reads on, and answers whether more may follow.
fn more<R: Read>(input: &mut R) -> io::Result<bool> {
    let mut rest = zeros::<INPUT>();
    let n = read_full(input, &mut rest)?;
    Ok(n == INPUT)
}

// Reads the rest of a long input, so that whoever writes it to a pipe is not stopped. A proved loop has to end: it takes as many turns as no input uses up.
fn drain<R: Read>(input: &mut R) -> io::Result<()> {
    for _ in 0..u64::MAX {
        if !more(input)? {
            break;
        }
    }
    Ok(())
}

// The buffer has one page more than may be listed.
fn main(rt: HostRuntime) -> io::Result<()> {
    let mut input = zeros::<INPUT>();
    let n = read_full(&mut rt.stdin(), &mut input)?;
    let mut out = zeros::<LISTING>();
    let k = listing_text::print(&input[..n], &mut out);
    rt.stdout().write_all(&out[..k])?;
    if n == INPUT {
        drain(&mut rt.stdin())?;
    }
    Ok(())
}
