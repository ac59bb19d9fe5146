// A search: what it has found out, and the links that wait to be settled, with the labels that order them.
use crate::tree::Tree;
use frontier::LabelledFrontier;
use measure::Measure;

#[derive(Drop)]
pub struct Search<'a, M: Measure> {
    pub(crate) tree: Tree,
    pub(crate) frontier: LabelledFrontier<'a, M>,
}
