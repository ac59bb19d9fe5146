// What is sought, and where a way stands. No link is 0 here, as in the places of a book and in the nodes of the frontier, which have
// two bytes each: in an Option, Some(0) would be a third thing.
use measure::Measure;
use network::{LinkSet, Network};

// Ways that go on from a beginning to a node, told by a measure. The beginning ends at `node` with the link `after`, or is empty and `after` is
// 0; it costs `cost`. No way has a banned link, none begins with a forbidden one, and none that costs the bound or more is
// sought.
#[derive(Drop)]
pub(crate) struct Quest<'a, 'b, M: Measure> {
    pub(crate) measure: &'b M,
    pub(crate) network: &'a Network,
    pub(crate) banned: &'b LinkSet,
    pub(crate) forbidden: &'b LinkSet,
    pub(crate) node: u16,
    pub(crate) after: u16,
    pub(crate) cost: M::Cost,
    pub(crate) to: u16,
    pub(crate) bound: Option<M::Cost>,
}

// Where a way stands: at a link, or at the beginning, which has the number 0; the link before the next one, or 0; the node
// that the next link starts at; what the way costs so far, and how many links it has after the beginning.
#[derive(Clone, Copy)]
pub(crate) struct Stand<C: Copy> {
    pub(crate) number: u16,
    pub(crate) after: u16,
    pub(crate) node: u16,
    pub(crate) cost: C,
    pub(crate) depth: u16,
}
