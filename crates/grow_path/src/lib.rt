// The path of an insert's new node, by which its place is found in the image that growth leaves. It is written before growth: the caller's path may lie in the
// image.
#![tactic(auto)]

ghost use Rattle.std.specs.Prelude.{◌≡◌, ◌++◌, ◌+◌, ◌≤◌, length, take};
ghost use Rattle.model.specs.Limits.{longest_path, longest_parent};
ghost use Rattle.model.specs.Common.{four};

use base_numbers::{copy_in, put32};

// Writes the path of child `child` of the node that the path names to the front of out; its length.
pub fn child_path(path: &[u8], child: u32, out: &mut [u8]) -> usize
    requires { (length path.now ≤ longest_parent) × (length out.old ≡ longest_path) }
    ensures { (result ≡ length path.now + 4) × (take result out.new ≡ path.now ++ four child) }
{
    let n = path.len();
    copy_in(path, out, 0);
    put32(out, n, child as usize);
    n + 4
}
