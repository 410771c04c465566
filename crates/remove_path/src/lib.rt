// Where the node stands that a removal's path names, on an image that passes the check.
#![tactic(auto)]

ghost use Rattle.std.specs.Prelude.{◌≡◌, ◌≤◌, length};
ghost use Rattle.model.specs.Limits.{longest_path};
ghost use Rattle.model.specs.Row.{Row, Config};
ghost use Rattle.model.specs.Reading.{Reads};
ghost use Rattle.model.specs.Calls.Check.{check_of};
ghost use Rattle.theory_layout.specs.Widths.{Widths};
ghost use Rattle.remove_path.specs.Locate.{Locates};

use model::Settings;
use read_find::{find_in, four};
use remove_locate::{Standing, stand_of};

// The node that the path names, if it names one: the last entry's child of the node that the others name.
pub fn locate(image: &[u8], widths: &[u32], path: &[u8]) -> Option<Standing>
    requires { (check_of image.now ≡ 0) × (Widths image.now widths.now × ((1 ≤ length path.now) × (length path.now ≤ longest_path))) }
    ensures { (st : Config) (root : Row) → Reads image.now st root → Locates root path.now result }
{
    let n = path.len();
    if n % 4 != 0 {
        return None;
    }
    let up = n - 4;
    let Ok(place) = find_in(image, widths, &path[..up]) else {
        return None;
    };
    let parent = Settings::PAGE * place.page + place.offset;
    if image[parent] == 2 {
        return None;
    }
    stand_of(image, widths, parent, four(path, up))
}
