// Every refusal of an insert but a full store's, on an image that passes the check.
#![tactic(auto)]

ghost use Rattle.std.specs.Prelude.{◌≡◌, false, ℕ, ◌+◌, ◌*◌, IfOk};
ghost use Rattle.model.specs.Limits.{page_size};
ghost use Rattle.model.specs.Row.{Row, Config};
ghost use Rattle.model.specs.Tree.{Node, shown};
ghost use Rattle.model.specs.Answers.{result_number};
ghost use Rattle.model.specs.Reading.{Reads};
ghost use Rattle.model.specs.Calls.Check.{check_of};
ghost use Rattle.model.specs.Calls.Insert.{insert_number, new_of};
ghost use Rattle.model.specs.Calls.Find.{find_of};
ghost use Rattle.theory_layout.specs.Nodes.{ReadAt};
ghost use Rattle.theory_layout.specs.Widths.{Widths};
ghost use Rattle.grow_locate.specs.Aim.{Aimed, receiver_of};
ghost use Rattle.grow_refusals.specs.Admit.{bad_kind, parent_number};

use grow_locate::{Receiver, find_spot};
use model::{Refusal, Settings};
use read_find::find_in;

// Of an insert that passes every test but that for a full store: the byte of the image at which the parent stands, and where the node goes.
#[derive(Clone, Copy)]
pub struct Admitted {
    pub parent: usize,
    pub receiver: Receiver,
}

// The kind is neither 1 nor 2, or an aggregate has content.
fn kind_bad(kind: usize, len: usize) -> bool
    ensures { result ≡ bad_kind kind len }
{
    if kind == 1 {
        return len != 0;
    }
    kind != 2
}

// The tests of the node at the byte `parent` as the parent of a new child: that it is no literal, and that the child's number is not above its number of
// children. The search for the new node's spot is the test, so that the children are passed one time.
fn try_parent(
    image: &[u8],
    widths: &[u32],
    parent: usize,
    child: usize,
) -> Result<Admitted, Refusal>
    requires { ((n : Node) × ReadAt image.now n parent) × Widths image.now widths.now }
    ensures number { (n : Node) → ReadAt image.now n parent → result_number result ≡ parent_number n.kind n.children child }
    ensures parent { IfOk result (λ a. a.parent ≡ parent) }
    ensures receiver { IfOk result (λ a. ((w : Aimed image.now a.parent child) → a.receiver ≡ receiver_of w.t)) }
{
    if image[parent] == 2 {
        return Err(Refusal::LiteralParent);
    }
    let Some(receiver) = find_spot(image, widths, parent, child) else {
        return Err(Refusal::PastChildren);
    };
    Ok(Admitted { parent, receiver })
}

// The tests of an insert in the order of the refusal table, 13 directly after 5.
pub fn admit(
    image: &[u8],
    widths: &[u32],
    path: &[u8],
    child: usize,
    kind: usize,
    origin: usize,
    content: &[u8],
) -> Result<Admitted, Refusal>
    requires { (check_of image.now ≡ 0) × Widths image.now widths.now }
    ensures number { (st : Config) (root : Row) → Reads image.now st root → (label : ℕ)
        → result_number result ≡ insert_number (shown root) path.now child (new_of kind origin label content.now) false }
    ensures parent { IfOk result (λ a. a.parent ≡ page_size * (find_of image.now path.now).place.page
        + (find_of image.now path.now).place.offset) }
    ensures receiver { IfOk result (λ a. ((w : Aimed image.now a.parent child) → a.receiver ≡ receiver_of w.t)) }
{
    if Settings::PARENT_PATH < path.len() {
        return Err(Refusal::LongPath);
    }
    if kind_bad(kind, content.len()) {
        return Err(Refusal::WrongKind);
    }
    if Settings::MOST_ORIGIN < origin {
        return Err(Refusal::WrongOrigin);
    }
    if Settings::CONTENT < content.len() {
        return Err(Refusal::LongContent);
    }
    let place = find_in(image, widths, path)?;
    let parent = Settings::PAGE * place.page + place.offset;
    try_parent(image, widths, parent, child)
}
