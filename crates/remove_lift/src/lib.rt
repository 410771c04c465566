// A helper left with one proxy: this takes the place of the helper's proxy in the record above, and the helper's page is free.
#![tactic(auto)]

ghost use Rattle.std.specs.Prelude.{◌≡◌, ◌+◌, ◌*◌, ◌<◌};
ghost use Rattle.model.specs.Limits.{most_pages, page_size};
ghost use Rattle.model.specs.Row.{two};
ghost use Rattle.base_numbers.specs.Over.{over};
ghost use Rattle.remove_lift.specs.Rename.{Renaming, proxy_offset};
ghost use Rattle.remove_lift.specs.Lifting.{Lifting, lifted};

use base_layout::{back_at, used_at};
use base_numbers::put16;
use grow_pages::clear_page;
use grow_replace_proxy::proxy_in;
use model::Settings;

// The proxy to the page, in the record of `holder`, names `child` now.
fn rename(image: &mut [u8], holder: usize, page: usize, child: usize)
    requires { Renaming image.old holder page × (child < most_pages) }
    ensures { (w : Renaming image.old holder page)
        → image.new ≡ over (page_size * holder + (proxy_offset w + 6)) (two child) image.old }
{
    let a = Settings::PAGE * holder;
    let e = a + used_at(image, a);
    let at = proxy_in(&image[a..e], page);
    put16(image, a + (at + 6), child);
}

// The record on page `child` is held by the record that held the helper's on `page`.
pub fn lift_child(image: &mut [u8], page: usize, child: usize)
    requires { Lifting image.old page child }
    ensures { (w : Lifting image.old page child) → image.new ≡ lifted w image.old }
{
    let holder = back_at(image, Settings::PAGE * page);
    rename(image, holder, page, child);
    put16(
        image,
        Settings::PAGE * child + (Settings::CAPACITY + 4),
        holder,
    );
    clear_page(image, page);
}
