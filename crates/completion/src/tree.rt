// What a search has found out: for link n, at place n - 1, how it was reached; and the settled links. The steps stand in the
// struct, since there is no heap. 0 is no link in a step, as in the places of a book: two bytes each in fixed memory.
ghost use Rattle.std.specs.Prelude.{◌≡◌, length};

use network::LinkSet;

// How many links lead to a link from the beginning, or 0 where none do yet, and the link before it, or 0 where it is the first.
#[derive(Clone, Copy)]
pub struct Step {
    pub(crate) depth: u16,
    pub(crate) before: u16,
}

impl Step {
    // How a link was reached that was not.
    pub(crate) const NONE: Step = Step {
        depth: 0,
        before: 0,
    };
}

#[derive(Clone, Copy)]
pub struct Tree {
    pub(crate) steps: [Step; 1024],
    pub(crate) settled: LinkSet,
    ghost all: { length steps ≡ 1024 },
}
