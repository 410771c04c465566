// A bit for each page: the check's marks of the pages reached, and the map of the pages in use.
#![tactic(auto)]

ghost use Rattle.std.specs.Prelude.{◌≡◌, ◌/◌, ◌<◌, length};
ghost use Rattle.theory_check.specs.Tests.{is_marked, marked, unmarked};

#[tactic(auto, unfolding(theory_check::specs::Tests::is_marked))]
pub fn is_marked(marks: &[u8], p: usize) -> bool
    requires { p / 8 < length marks.now }
    ensures { result ≡ is_marked marks.now p }
{
    (marks[p / 8] >> (p % 8)) % 2 == 1
}

#[tactic(auto, unfolding(theory_check::specs::Tests::marked))]
pub fn set_mark(marks: &mut [u8], p: usize)
    requires { p / 8 < length marks.old }
    ensures { marks.new ≡ marked marks.old p }
{
    marks[p / 8] |= 1 << (p % 8);
}

#[tactic(auto, unfolding(theory_check::specs::Tests::unmarked))]
pub fn clear_mark(marks: &mut [u8], p: usize)
    requires { p / 8 < length marks.old }
    ensures { marks.new ≡ unmarked marks.old p }
{
    marks[p / 8] &= !(1 << (p % 8));
}
