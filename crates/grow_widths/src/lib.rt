// The table of how many nodes the record on each page shows, as an insert or a removal leaves it.
#![tactic(auto)]

ghost use Rattle.std.specs.Prelude.{◌≡◌};
ghost use Rattle.grow_widths.specs.Tally.{tallied, number_of};
ghost use Rattle.grow_widths.specs.Tallying.{Counting};
ghost use Rattle.grow_widths.specs.Raised.{changed, raised, lowered, Raising, Makes};

use base_layout::{back_at, size_at};
use model::Settings;
use read_find::nodes_shown;

// How many nodes the row that part is shows, by the table.
fn sum(part: &[u8], widths: &[u32]) -> usize
    requires { Counting part.now widths.now }
    ensures { (w : Counting part.now widths.now) → result ≡ tallied widths.now w.linked.row }
{
    let mut n = 0;
    let mut pos = 0;
    while pos < part.len() {
        n += nodes_shown(part, widths, pos);
        pos += size_at(part, pos);
    }
    n
}

// The table's entry for a record of the row that part is: at most what an entry takes.
pub fn number(part: &[u8], widths: &[u32]) -> u32
    requires { Counting part.now widths.now }
    ensures { (w : Counting part.now widths.now) → result ≡ number_of widths.now w.linked.row }
{
    u32::try_from(sum(part, widths)).unwrap_or(u32::MAX)
}

// The record on the page and the `deep` - 1 records above it show what `step` makes of what they showed.
fn change<F: Fn(u32) -> u32>(image: &[u8], widths: &mut [u32], page: usize, deep: usize, step: F)
    requires way { Raising image.now widths.old page deep }
    requires takes { F.IsAlwaysCallable step }
    requires makes { Makes (F.post step) }
    ensures { (w : Raising image.now widths.old page deep) (m : Makes (F.post step))
        → widths.new ≡ changed m.of deep w.chain widths.old }
{
    let mut q = page;
    for _ in 0..deep {
        widths[q] = step(widths[q]);
        q = back_at(image, Settings::PAGE * q);
    }
}

// They show one node more; an entry that is full stays.
pub fn one_more(image: &[u8], widths: &mut [u32], page: usize, deep: usize)
    requires { Raising image.now widths.old page deep }
    ensures { (w : Raising image.now widths.old page deep)
        → widths.new ≡ raised deep w.chain widths.old }
{
    change(image, widths, page, deep, |x| x.saturating_add(1));
}

// They show one node less.
pub fn one_less(image: &[u8], widths: &mut [u32], page: usize, deep: usize)
    requires { Raising image.now widths.old page deep }
    ensures { (w : Raising image.now widths.old page deep)
        → widths.new ≡ lowered deep w.chain widths.old }
{
    change(image, widths, page, deep, |x| x.saturating_sub(1));
}
