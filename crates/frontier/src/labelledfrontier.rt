// A frontier with the labels that order its links: which links wait, and what each costs.
ghost use Rattle.std.specs.Prelude.{map};
ghost use Rattle.frontier.specs.Tournament.{Sound};

use crate::frontier::Frontier;
use crate::labels::Labels;
use measure::Measure;

#[derive(Drop)]
pub struct LabelledFrontier<'a, M: Measure> {
    pub(crate) labels: Labels<'a, M>,
    pub(crate) nodes: Frontier,
    ghost sound: { Sound (map M.Measure.rank labels.costs.now) nodes },
}
