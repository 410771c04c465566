// Aggregates that hold nothing to be walked.
#![tactic(auto)]

ghost use Rattle.std.specs.Prelude.{◌≡◌, true, ◌≤◌, length, drop};
ghost use Rattle.model.specs.Limits.{most_levels};
ghost use Rattle.read_leaves.specs.Leafy.{Leafy};

use base_layout::size_at;
use base_node_kinds::{AGGREGATE, kinds_in};
use read_nodes::{aggregate, literal, size_of};

// Whether the nodes of a list are empty aggregates and literals alone.
fn leaves(part: &[u8], level: usize) -> bool
    ensures { result ≡ true → Leafy part.now level × ((length part.now ≡ 0 → ⊥) → level ≤ most_levels) }
{
    let may = kinds_in(AGGREGATE);
    let mut at = 0;
    while at < part.len() {
        let rest = &part[at..];
        // by a constant, so that the next header is read without waiting for this one's size
        if aggregate(rest, 6, may.aggregate, level) {
            at = at + 6;
        } else {
            let size = size_of(rest);
            if size == 0 {
                return false;
            }
            if !literal(rest, size, may.literal, level) {
                return false;
            }
            at = at + size;
        }
    }
    true
}

// Whether the aggregate that the part is holds some nodes, on the level, and all of them are leaves. Its first node mostly says at once if they are not.
pub fn holds_leaves(part: &[u8], level: usize) -> bool
    ensures { result ≡ true → Leafy (drop 6 part.now) level × (level ≤ most_levels) }
{
    if part.len() < 12 {
        return false;
    }
    if part[6] != 2 {
        if size_at(part, 6) != 6 {
            return false;
        }
    }
    leaves(&part[6..], level)
}
