// What a search among unlisted routes goes by.
use network::LinkSet;

// A listed route: its number, counted from 0, and its links; for each listed route how many links at the front of both are the
// same; and what its first links cost, one of them at place 0.
#[derive(Clone, Copy)]
pub(crate) struct Along<'a, C: Copy> {
    pub(crate) number: usize,
    pub(crate) links: &'a [u16],
    pub(crate) fronts: &'a [usize],
    pub(crate) costs: &'a [C],
}

// How listed routes go on from a beginning: the links that come next, and whether one ends there.
#[derive(Clone, Copy)]
pub(crate) struct Fork {
    pub(crate) links: LinkSet,
    pub(crate) ends: bool,
}
