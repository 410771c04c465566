// Bytes put into a record or taken out of it, in a lent buffer.
#![tactic(auto)]

ghost use Rattle.std.specs.Prelude.{◌≡◌, ◌+◌, ◌≤◌, ◌<◌, length};
ghost use Rattle.model.specs.Row.{record_size, record_bytes};
ghost use Rattle.base_numbers.specs.Over.{over};
ghost use Rattle.grow_splice.specs.Resize.{Cut, resized};
ghost use Rattle.grow_splice.specs.Splice.{Splicing, spliced};

use base_layout::size_at;
use base_numbers::{copy_in, put16};

// Makes the size of each node of a record that contains the node at par, and of that node, `less` smaller and `more` larger. s is the record up to the place
// where so many bytes go and come.
pub fn resize(s: &mut [u8], par: usize, less: usize, more: usize)
    requires { Cut s.old par less more }
    ensures { (w : Cut s.old par less more) → s.new ≡ resized s.old par less more w }
{
    let whole = size_at(s, 0);
    put16(s, 4, whole - less + more);
    let mut pos = 6;
    while pos <= par {
        let size = size_at(s, pos);
        if par < pos + size {
            put16(s, pos + 4, size - less + more);
            pos += 6;
        } else {
            pos += size;
        }
    }
}

// Writes to the front of out the record rec with new in the place of the `gone` bytes from `at`, in the node at par, and gives its length.
pub fn splice(rec: &[u8], at: usize, par: usize, gone: usize, new: &[u8], out: &mut [u8]) -> usize
    requires { Splicing rec.now at par gone new.now × ((length rec.now + length new.now ≤ length out.old + gone)
        × (length rec.now + length new.now < 65536)) }
    ensures { (w : Splicing rec.now at par gone new.now)
        → (result ≡ record_size (spliced rec.now at par gone new.now w))
        × (out.new ≡ over 0 (record_bytes (spliced rec.now at par gone new.now w)) out.old) }
{
    let n = new.len();
    copy_in(&rec[..at], out, 0);
    resize(&mut out[..at], par, gone, n);
    copy_in(new, out, at);
    let rest = at + gone;
    copy_in(&rec[rest..], out, at + n);
    rec.len() - gone + n
}
