// The records below a node that goes are freed. Their pages are a list, which grows as their own proxies are found: no page of another branch is looked at.
#![tactic(auto)]

ghost use Rattle.std.specs.Prelude.{◌*◌, ◌≤◌, length};
ghost use Rattle.model.specs.Limits.{most_pages, page_size};
ghost use Rattle.remove_branch.specs.Listed.{Listing, Listed};
ghost use Rattle.remove_branch.specs.Freeing.{Freeing, Emptied};
ghost use Rattle.remove_branch.specs.Branch.{Branch, Freed};

use arrayvec::ArrayVec;
use base_layout::{name_at, record_end, size_at};
use base_ranges::{FEW, Tables, tables_for};
use grow_map::set_free;
use grow_pages::clear_page;
use model::Settings;
use read_find::row_start;

// Puts the pages that the row names itself behind those that are listed.
fn list_direct<const N: usize>(part: &[u8], list: &mut ArrayVec<u16, N>)
    requires { Listing part.now list.old.items N }
    ensures { (w : Listing part.now list.old.items N) → Listed w list.new.items }
{
    let mut pos = 0;
    while pos < part.len() {
        let kind = part[pos];
        if kind == 1 {
            pos += 6;
        } else if kind == 3 {
            list.push(name_at(part, pos) as u16);
            pos += 8;
        } else {
            pos += size_at(part, pos);
        }
    }
}

// Frees the listed pages and all that are listed on the way: once the pages that its record names are listed, a page is zeroed and free in the map.
fn free_listed<const N: usize>(image: &mut [u8], map: &mut [u8], list: &mut ArrayVec<u16, N>)
    requires { Freeing image.old map.old list.old.items N }
    ensures { (w : Freeing image.old map.old list.old.items N) → Emptied w image.new map.new }
{
    let mut k = 0;
    while k < list.len() {
        let p = list[k] as usize;
        let start = row_start(image, p);
        let end = record_end(image, p);
        list_direct(&image[start..end], list);
        clear_page(image, p);
        set_free(map, p);
        k += 1;
    }
}

// Frees the records below the node from start to end by a list of at most N pages.
fn free_below<const N: usize>(image: &mut [u8], map: &mut [u8], start: usize, end: usize)
    requires { Branch image.old map.old start end × (length image.old ≤ page_size * N) × (N ≤ most_pages) }
    ensures { (w : Branch image.old map.old start end) → Freed w image.new map.new }
{
    let mut list: ArrayVec<u16, N> = ArrayVec::new();
    list_direct(&image[start..end], &mut list);
    free_listed(image, map, &mut list);
}

// Frees the records below the node from start to end, by a list of the size that the image takes. A literal has none.
pub fn free_branch(image: &mut [u8], map: &mut [u8], start: usize, end: usize)
    requires { Branch image.old map.old start end }
    ensures { (w : Branch image.old map.old start end) → Freed w image.new map.new }
{
    if image[start] == 2 {
        return;
    }
    match tables_for(image.len()) {
        Tables::Few => free_below::<FEW>(image, map, start, end),
        Tables::Many => free_below::<{ Settings::PAGES }>(image, map, start, end),
    }
}
