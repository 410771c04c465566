// The map of the pages in use, a bit a page: by it an insert or a removal knows which pages are free. Pages 0 and 1 and those past the image's end are set.
#![tactic(auto)]

ghost use Rattle.std.specs.Prelude.{◌≡◌, ℕ, ◌+◌, ◌*◌, ◌/◌, ◌≤◌, ◌<◌, length, get_or};
ghost use Rattle.model.specs.Row.{Config};
ghost use Rattle.model.specs.Growth.{free_from};
ghost use Rattle.grow_map.specs.Map.{used_by, most_map, Past, Shut};
ghost use Rattle.grow_map.specs.Mapped.{map_bytes};
ghost use Rattle.grow_map.specs.Search.{Up};

use base_marks::is_marked;
use model::Settings;

// Page p is used, or free, from now on.
pub use base_marks::{clear_mark as set_free, set_mark as set_used};

// The bytes of a map for an image of n bytes: nothing behind the byte of its last page is looked at.
pub fn map_bytes(n: usize) -> usize
    ensures { result ≡ map_bytes n }
{
    (n / Settings::PAGE + 7) / 8
}

// Marks the pages that growth never takes as used: 0, 1 and those from `pages` on, to the map's end.
pub fn shut(map: &mut [u8], pages: usize)
    requires { (1 ≤ length map.old) × (length map.old ≤ most_map) × (pages ≤ 8 * most_map) }
    ensures { Shut pages map.old map.new }
{
    set_used(map, 0);
    set_used(map, 1);
    for p in pages..8 * map.len() {
        set_used(map, p);
    }
}

// How many bytes from byte i on can be passed since all their pages are used: eight at a step where they are there.
fn full_bytes(map: &[u8], i: usize) -> usize
    requires { (i < length map.now) × (length map.now ≤ most_map) }
    ensures { (i + result ≤ length map.now) × ((k : ℕ) → k < result → get_or map.now (i + k) 0 ≡ 255) }
{
    if map[i..].starts_with(&[255; 8]) {
        return 8;
    }
    usize::from(map[i] == 255)
}

// The first free page counting up from `from` to the map's end; past it if there is none.
fn free_up(map: &[u8], from: usize) -> usize
    requires { (from ≤ 8 * most_map) × (length map.now ≤ most_map) }
    ensures { Up map.now from result }
{
    let mut q = from;
    while q / 8 < map.len() {
        let i = q / 8;
        let n = full_bytes(map, i);
        if n == 0 {
            if !is_marked(map, q) {
                return q;
            }
            q += 1;
        } else {
            q = 8 * (i + n);
        }
    }
    q
}

// The first free page counting up from `from`, page 2 following the last; 0 if none is free.
pub fn first_free(map: &[u8], from: usize) -> usize
    requires { (1 ≤ from) × (from ≤ 8 * most_map) × (length map.now ≤ most_map) }
    ensures { (st : Config) → from < st.pages → st.pages ≤ 8 * length map.now → Past st.pages map.now
        → result ≡ free_from st st.pages (used_by map.now) from }
{
    let q = free_up(map, from);
    if q / 8 < map.len() {
        return q;
    }
    let first = free_up(map, 2);
    if first < from { first } else { 0 }
}
