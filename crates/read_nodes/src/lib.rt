// The check's tests of a node's bytes by themselves: its size, its kind, its origin and label, and what the walk can pass over or go straight into.
#![tactic(auto)]

ghost use Rattle.std.specs.Prelude.{◌≡◌, ◌+◌, ◌≤◌, ◌<◌, length, leb};
ghost use Rattle.model.specs.Limits.{most_levels, most_origin};
ghost use Rattle.model.specs.Reading.{head_at};
ghost use Rattle.model.specs.WalkTests.{whole_size, two_children, bare_head, shape_of, passing_kind};
ghost use Rattle.read_nodes.specs.Stand.{formed_of, stands_in, kind_by};
ghost use Rattle.read_nodes.specs.Leaf.{stands_of, aggregate_of, literal_of, Only};

use base_layout::{label_at, origin_at, size_at};
use base_node_kinds::{Kinds, may_stand};
use base_numbers::wide;
use model::Settings;

// The size of the node that the part starts with, 0 where no whole node stands there.
pub fn size_of(part: &[u8]) -> usize
    ensures { result ≡ whole_size part.now }
{
    if part.len() < 6 {
        return 0;
    }
    let n = size_at(part, 0);
    if n < 6 {
        return 0;
    }
    if part.len() < n {
        return 0;
    }
    n
}

// Whether a list of nodes starts with a whole node and goes on after it.
pub fn two_children(rest: &[u8]) -> bool
    ensures { result ≡ two_children rest.now }
{
    let n = size_of(rest);
    if n == 0 {
        return false;
    }
    n < rest.len()
}

// Whether a header's second byte is 0 to 3, as an origin is.
fn origin_fits(part: &[u8]) -> bool
    requires { 6 ≤ length part.now }
    ensures { result ≡ leb (head_at part.now 0).origin most_origin }
{
    origin_at(part, 0) <= Settings::MOST_ORIGIN
}

// Whether a header's second byte and label are zero, as those of proxies and helpers.
fn bare(part: &[u8]) -> bool
    requires { 6 ≤ length part.now }
    ensures { result ≡ bare_head part.now }
{
    let origin = origin_at(part, 0);
    let label = label_at(part, 0);
    origin + label == 0
}

// What a node's kind asks of it.
pub fn shaped(part: &[u8], kind: usize) -> bool
    requires { 6 ≤ length part.now }
    ensures { result ≡ shape_of part.now kind }
{
    if kind == 3 {
        return bare(part);
    }
    if kind == 4 {
        if !bare(part) {
            return false;
        }
        return two_children(&part[6..]);
    }
    if kind == 2 {
        return part.len() <= Settings::NODE;
    }
    true
}

// The kind, if the part is a well-formed node of it, else 0.
fn well_formed(part: &[u8], kind: usize) -> usize
    requires { 6 ≤ length part.now }
    ensures { result ≡ formed_of part.now kind }
{
    if !origin_fits(part) {
        return 0;
    }
    if size_at(part, 0) != part.len() {
        return 0;
    }
    if !shaped(part, kind) {
        return 0;
    }
    kind
}

// The kind of the node that the part is, 0 where it is not well formed by itself or may not stand in the holder.
pub fn head(part: &[u8], holder: usize) -> usize
    requires { holder < 5 }
    ensures { result ≡ passing_kind part.now holder }
{
    if part.len() < 6 {
        return 0;
    }
    let kind = wide(part[0]);
    if 4 < kind {
        return 0;
    }
    if !may_stand(holder, kind) {
        return 0;
    }
    well_formed(part, kind)
}

// Whether a node of the kind may stand in a row.
fn stands_in(may: Kinds, kind: usize) -> bool
    ensures { result ≡ stands_in may kind }
{
    if kind == 1 {
        return may.aggregate;
    }
    if kind == 2 {
        return may.literal;
    }
    if kind == 3 {
        return may.proxy;
    }
    false
}

// The kind of the node that the part is, as `head` gives it of a row whose kinds are known.
pub fn kind_in(part: &[u8], may: Kinds) -> usize
    requires { 6 ≤ length part.now }
    ensures { result ≡ kind_by part.now may }
{
    let kind = wide(part[0]);
    if !stands_in(may, kind) {
        return 0;
    }
    well_formed(part, kind)
}

// Whether the part starts with a node of the kind, by its first two bytes, kind and origin, that may stand there, at a level that may be.
fn stands(part: &[u8], kind: usize, may: bool, level: usize) -> bool
    requires { 6 ≤ length part.now }
    ensures { result ≡ stands_of part.now kind may level }
{
    if wide(part[0]) != kind {
        return false;
    }
    if !origin_fits(part) {
        return false;
    }
    if Settings::LEVELS < level {
        return false;
    }
    may
}

// The same of an aggregate of n bytes.
pub fn aggregate(part: &[u8], n: usize, may: bool, level: usize) -> bool
    ensures { result ≡ aggregate_of part.now n may level }
{
    if part.len() < 6 {
        return false;
    }
    if size_at(part, 0) != n {
        return false;
    }
    stands(part, 1, may, level)
}

// The same of a literal of this size, which is not too long.
pub fn literal(part: &[u8], size: usize, may: bool, level: usize) -> bool
    requires { 6 ≤ length part.now }
    ensures { result ≡ literal_of part.now size may level }
{
    if Settings::NODE < size {
        return false;
    }
    stands(part, 2, may, level)
}

// How many aggregates below the one that the part is are each the only node that the last holds. Where its first node does not end it, the answer is at hand.
pub fn only(part: &[u8], level: usize) -> usize
    requires { (6 ≤ length part.now) × (level ≤ most_levels + 1) }
    ensures { Only part.now level result }
{
    if part.len() < 12 {
        return 0;
    }
    if size_at(part, 6) != part.len() - 6 {
        return 0;
    }
    let may = may_stand(1, 1);
    let mut d = 0;
    let mut at = 6;
    while at < part.len() {
        if !aggregate(&part[at..], part.len() - at, may, level + d) {
            return d;
        }
        at = at + 6;
        d = d + 1;
    }
    d
}
