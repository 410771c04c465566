// The types of the calls' arguments and answers. What the calls do is in specs/.
#![tactic(auto)]

ghost use Rattle.std.specs.Prelude.{◌≡◌, ◌/◌, ◌%◌};
ghost use Rattle.model.specs.Limits.{page_size};
ghost use Rattle.model.specs.Answers.{kind_number, origin_number, refusal_number, usual_settings, usual_matrix, the_limits};
ghost use Rattle.model.specs.declared.Failure.TheVariants.{Broken};
ghost use Rattle.model.specs.Reasons.{reason_number, stage_number};

// The numbers of the settings; the split matrix goes beside them as a slice, since one of any length may be handed over.
#[derive(Clone, Copy, Debug, PartialEq, Eq)]
pub struct Settings {
    pub pages: usize,
    pub target: usize,
    pub tolerance: usize,
    pub form: usize,
}

impl Settings {
    // The bytes of a page, the most bytes of a record, the most levels of the tree.
    pub const PAGE: usize = 4096;

    pub const CAPACITY: usize = 4080;

    pub const LEVELS: usize = 24;
    // The most pages of an image, content bytes of a literal, bytes of a new node with its header.
    pub const PAGES: usize = 1024;
    // The bytes of a mark for each of them.
    pub const MARKS: usize = 128;

    pub const CONTENT: usize = 520;

    pub const NODE: usize = 526;
    // The largest number of an origin.
    pub const MOST_ORIGIN: usize = 3;
    // The range of the target, the largest tolerance, the form.
    pub const LEAST_TARGET: usize = 64;

    pub const MOST_TARGET: usize = 192;

    pub const MOST_TOLERANCE: usize = 512;

    pub const FORM: usize = 1;
    // The longest paths in bytes: of a node, and of the parent of an insert.
    pub const PATH: usize = 92;

    pub const PARENT_PATH: usize = 88;
    // Matrix entries, and the usual split matrix: free choice for every pair.
    pub const ENTRIES: usize = 256;

    pub const MATRIX: [u8; 256] = [2u8; 256];

    // The named values above: what holds each to its definition.
    pub fn limits() -> Limits
        ensures { result ≡ the_limits }
    {
        Limits {
            page: Settings::PAGE,
            capacity: Settings::CAPACITY,
            levels: Settings::LEVELS,
            pages: Settings::PAGES,
            marks: Settings::MARKS,
            content: Settings::CONTENT,
            node: Settings::NODE,
            origin: Settings::MOST_ORIGIN,
            least: Settings::LEAST_TARGET,
            most: Settings::MOST_TARGET,
            tolerance: Settings::MOST_TOLERANCE,
            form: Settings::FORM,
            path: Settings::PATH,
            parent: Settings::PARENT_PATH,
            entries: Settings::ENTRIES,
        }
    }

    pub fn usual_matrix() -> [u8; Settings::ENTRIES]
        ensures { result ≡ usual_matrix }
    {
        Settings::MATRIX
    }

    // The usual settings for an image of so many pages.
    pub fn usual(pages: usize) -> Settings
        ensures { result ≡ usual_settings pages }
    {
        Settings {
            pages,
            target: 128,
            tolerance: 409,
            form: Settings::FORM,
        }
    }
}

// The limits, each under its name.
#[derive(Clone, Copy, Debug, PartialEq, Eq)]
pub struct Limits {
    pub page: usize,
    pub capacity: usize,
    pub levels: usize,
    pub pages: usize,
    pub marks: usize,
    pub content: usize,
    pub node: usize,
    pub origin: usize,
    pub least: usize,
    pub most: usize,
    pub tolerance: usize,
    pub form: usize,
    pub path: usize,
    pub parent: usize,
    pub entries: usize,
}

// Where a node starts: a page, and a byte offset in it.
#[derive(Clone, Copy, Debug, PartialEq, Eq)]
pub struct Place {
    pub page: usize,
    pub offset: usize,
}

impl Place {
    // The place of a byte of the image.
    pub fn of_byte(at: usize) -> Place
        ensures { result ≡ record { page = at / page_size; offset = at % page_size } }
    {
        Place {
            page: at / Settings::PAGE,
            offset: at % Settings::PAGE,
        }
    }
}

#[derive(Clone, Copy, Debug, PartialEq, Eq)]
pub enum Kind {
    Aggregate,
    Literal,
}

impl From<Kind> for u32 {
    ghost from_gives = { λ kind n. n ≡ kind_number kind };

    fn from(kind: Kind) -> u32 {
        match kind {
            Kind::Aggregate => 1,
            Kind::Literal => 2,
        }
    }
}

// Where a node came from: seen on the wire, read from a store, typed in, or derived.
#[derive(Clone, Copy, Debug, PartialEq, Eq)]
pub enum Origin {
    Wire,
    Stored,
    TypedIn,
    Derived,
}

impl From<Origin> for u32 {
    ghost from_gives = { λ origin n. n ≡ origin_number origin };

    fn from(origin: Origin) -> u32 {
        match origin {
            Origin::Wire => 0,
            Origin::Stored => 1,
            Origin::TypedIn => 2,
            Origin::Derived => 3,
        }
    }
}

// Why a call is refused: the lines of document 01's table, in the order of their numbers.
#[derive(Clone, Copy, Debug, PartialEq, Eq)]
pub enum Refusal {
    WrongLength,
    WrongSettings,
    NotPassed,
    LongPath,
    WrongKind,
    LongContent,
    NoNode,
    LiteralParent,
    PastChildren,
    NoPlaceThere,
    ShortBuffer,
    NoFreePage,
    WrongOrigin,
    EmptyPath,
}

impl From<Refusal> for u32 {
    ghost from_gives = { λ refusal n. n ≡ refusal_number refusal };

    fn from(refusal: Refusal) -> u32 {
        match refusal {
            Refusal::WrongLength => 1,
            Refusal::WrongSettings => 2,
            Refusal::NotPassed => 3,
            Refusal::LongPath => 4,
            Refusal::WrongKind => 5,
            Refusal::LongContent => 6,
            Refusal::NoNode => 7,
            Refusal::LiteralParent => 8,
            Refusal::PastChildren => 9,
            Refusal::NoPlaceThere => 10,
            Refusal::ShortBuffer => 11,
            Refusal::NoFreePage => 12,
            Refusal::WrongOrigin => 13,
            Refusal::EmptyPath => 14,
        }
    }
}

// Why an image does not pass the check.
#[derive(Clone, Copy, Debug, PartialEq, Eq)]
pub enum Reason {
    NeverFormatted,
    BadSettings,
    BadTrailer,
    FreeNotZero,
    PastLength,
    BadNode,
    TooDeep,
    BadProxy,
    NotReached,
}

impl From<Reason> for u32 {
    ghost from_gives = { λ reason n. n ≡ reason_number reason };

    fn from(reason: Reason) -> u32 {
        match reason {
            Reason::NeverFormatted => 1,
            Reason::BadSettings => 2,
            Reason::BadTrailer => 3,
            Reason::FreeNotZero => 4,
            Reason::PastLength => 5,
            Reason::BadNode => 6,
            Reason::TooDeep => 7,
            Reason::BadProxy => 8,
            Reason::NotReached => 9,
        }
    }
}

// The following node in document order, or the end.
#[derive(Clone, Copy, Debug, PartialEq, Eq)]
pub struct NextNode {
    pub place: Place,
    pub kind: Kind,
    pub origin: Origin,
}

// Document 01 names this form, an enum with an end, in place of an Option.
#[derive(Clone, Copy, Debug, PartialEq, Eq)]
pub enum Next {
    Node(NextNode),
    End,
}

// Of insert: where the new node stands, how many records were split, and the lean of the first split.
#[derive(Clone, Copy, Debug, PartialEq, Eq)]
pub struct Inserted {
    pub place: Place,
    pub splits: u32,
    pub lean: i32,
}

// Of walk: how many entries were written, and the place of the first node that was not, if there is one.
#[derive(Clone, Copy, Debug, PartialEq, Eq)]
pub struct Walked {
    pub written: usize,
    pub next: Option<Place>,
}

// The stages of the check: page 0, the other pages by themselves, the walk from page 1.
#[derive(Clone, Copy, Debug, PartialEq, Eq)]
pub enum Stage {
    Settings,
    Pages,
    Walk,
}

impl From<Stage> for u32 {
    ghost from_gives = { λ stage n. n ≡ stage_number stage };

    fn from(stage: Stage) -> u32 {
        match stage {
            Stage::Settings => 1,
            Stage::Pages => 2,
            Stage::Walk => 3,
        }
    }
}

// The stage that finds an image broken, the page at fault and the reason.
#[derive(Clone, Copy, Debug, PartialEq, Eq)]
pub struct Fault {
    pub stage: Stage,
    pub page: usize,
    pub reason: Reason,
}

// What diagnose finds where an image does not pass the check.
#[derive(Clone, Copy, Debug, PartialEq, Eq)]
pub enum Failure {
    WrongLength,
    Broken(Fault),
}

impl From<Fault> for Failure {
    ghost from_gives = { λ fault failure. failure ≡ Broken fault };

    fn from(fault: Fault) -> Failure {
        Failure::Broken(fault)
    }
}

// Of read: the content is the part of the image that starts at `start` and has `len` bytes.
#[derive(Clone, Copy, Debug, PartialEq, Eq)]
pub struct Details {
    pub kind: Kind,
    pub origin: Origin,
    pub label: u32,
    pub children: u32,
    pub start: usize,
    pub len: usize,
}
