// The fixed table of what may stand where, which the check and the split consult.
#![tactic(auto)]

ghost use Rattle.std.specs.Prelude.{◌≡◌, ◌<◌};
ghost use Rattle.model.specs.Row.{may_stand};
ghost use Rattle.base_node_kinds.specs.Holders.{kinds_in};

// Row: the holder, 0 a record's page. Column: the kind.
pub const MAY_STAND: [[bool; 5]; 5] = [
    // a record's page; a proxy is no root
    [false, true, true, false, true],
    // an aggregate
    [false, true, true, true, false],
    // a literal, a proxy
    [false; 5],
    [false; 5],
    // a helper
    [false, true, true, true, false],
];

// Whether a node of a kind may stand in a holder.
pub fn may_stand(holder: usize, kind: usize) -> bool
    requires { (holder < 5) × (kind < 5) }
    ensures { result ≡ may_stand holder kind }
{
    MAY_STAND[holder][kind]
}

// ── asked once for a row of nodes ──

// The holders whose rows are gone through.
pub const AGGREGATE: usize = 1;

pub const HELPER: usize = 4;

// Which kinds of node may stand in a row.
#[derive(Clone, Copy)]
pub struct Kinds {
    pub aggregate: bool,
    pub literal: bool,
    pub proxy: bool,
}

// In the row that a holder has.
pub fn kinds_in(holder: usize) -> Kinds
    requires { holder < 5 }
    ensures { result ≡ kinds_in holder }
{
    Kinds {
        aggregate: may_stand(holder, 1),
        literal: may_stand(holder, 2),
        proxy: may_stand(holder, 3),
    }
}
