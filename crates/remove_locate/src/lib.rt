// Where a node stands that a removal takes out, on an image that passes the check.
#![tactic(auto)]

ghost use Rattle.std.specs.Option.{option_map};
ghost use Rattle.std.specs.Prelude.{◌≡◌, ◌+◌};
ghost use Rattle.model.specs.Limits.{most_pages};
ghost use Rattle.model.specs.Reading.{size_at};
ghost use Rattle.theory_layout.specs.Widths.{Widths};
ghost use Rattle.read_find.specs.Rowed.{Rowed};
ghost use Rattle.grow_locate.specs.Seek.{seek_span, children_span};
ghost use Rattle.remove_locate.specs.Leave.{standing_at};

use grow_locate::seek_child;
use model::Settings;

// Where a node stands that is to go: the page of the record that holds it, or its proxy if it is a record's root; the byte of the record where it stands, and
// its size there; where its parent stands in that record, 0 if the record does not hold the parent. It is `deep` records down from the one that does, each a
// helper that shows children of the parent.
#[derive(Clone, Copy)]
pub struct Standing {
    pub page: usize,
    pub at: usize,
    pub gone: usize,
    pub par: usize,
    pub deep: usize,
}

// Where child k of the aggregate at the byte `parent` of the image stands, if there is one.
pub fn stand_of(image: &[u8], widths: &[u32], parent: usize, k: usize) -> Option<Standing>
    requires { Rowed image.now (parent + 6) (parent + size_at image.now parent) most_pages × Widths image.now widths.now }
    ensures { (w : Rowed image.now (parent + 6) (parent + size_at image.now parent) most_pages)
        → result ≡ option_map standing_at (seek_span (children_span image.now parent) w.row k) }
{
    let l = seek_child(image, widths, parent, k)?;
    Some(Standing {
        page: l.at / Settings::PAGE,
        at: l.at % Settings::PAGE,
        gone: l.past - l.at,
        par: l.par,
        deep: l.deep,
    })
}
