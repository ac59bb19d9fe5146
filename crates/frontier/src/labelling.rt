// What is read of labels, and what becomes of a frontier that goes by them. The calls into a frontier only hand on: both parts of a
// labelled frontier can be lent to one call, but what one part holds cannot be lent beside the other part.
ghost use Rattle.std.specs.Prelude.{◌≡◌, ◌-◌, ◌≤◌, true, false, length, map, nat_lt, slice_index_or, slice_set};
ghost use Rattle.std.specs.Option.{option_map};
ghost use Rattle.frontier.specs.Tournament.{label, Sound, Changed, Takes};

use crate::frontier::Frontier;
use crate::labels::Labels;
use crate::linknumber::LinkNumber;
use measure::Measure;

// Whether a link has a lower label than another.
pub(crate) fn is_cheaper<M: Measure>(
    measure: &M,
    labels: &[M::Cost],
    a: LinkNumber,
    b: LinkNumber,
) -> bool
    requires { 1024 ≤ length labels.now }
    ensures { result ≡ nat_lt (label (map M.Measure.rank labels.now) a.number) (label (map M.Measure.rank labels.now) b.number) }
{
    measure.is_cheaper(labels[a.place()], labels[b.place()])
}

impl<M: Measure> Labels<'_, M> {
    // The label of a link.
    pub(crate) fn get(&self, link: LinkNumber) -> M::Cost
        ensures { result ≡ slice_index_or self.now.costs.now (link.number - 1) result }
    {
        self.costs[link.place()]
    }

    // Puts a link into a frontier that goes by these labels.
    pub(crate) fn insert_into(&self, measure: &M, nodes: &mut Frontier, link: LinkNumber)
        requires sound { Sound (map M.Measure.rank self.now.costs.now) nodes.old }
        ensures sound { Sound (map M.Measure.rank self.now.costs.now) nodes.new }
        ensures waiting { Changed nodes.old nodes.new link.number true }
    {
        nodes.insert(measure, self.costs, link);
    }

    // Takes a link out of a frontier that goes by these labels.
    pub(crate) fn remove_from(&self, measure: &M, nodes: &mut Frontier, link: LinkNumber)
        requires sound { Sound (map M.Measure.rank self.now.costs.now) nodes.old }
        ensures sound { Sound (map M.Measure.rank self.now.costs.now) nodes.new }
        ensures waiting { Changed nodes.old nodes.new link.number false }
    {
        nodes.remove(measure, self.costs, link);
    }

    // Takes out of a frontier that goes by these labels a link with the least of them.
    pub(crate) fn take_least_of(&self, measure: &M, nodes: &mut Frontier) -> Option<LinkNumber>
        requires sound { Sound (map M.Measure.rank self.now.costs.now) nodes.old }
        ensures sound { Sound (map M.Measure.rank self.now.costs.now) nodes.new }
        ensures takes { Takes (map M.Measure.rank self.now.costs.now) nodes.old nodes.new (option_map (λ link. link.number) result) }
    {
        nodes.take_least(measure, self.costs)
    }

    // Gives a link a label, in a frontier that goes by these labels.
    pub(crate) fn relabel_in(
        &mut self,
        measure: &M,
        nodes: &mut Frontier,
        link: LinkNumber,
        cost: M::Cost,
    )
        requires sound { Sound (map M.Measure.rank self.old.costs.now) nodes.old }
        ensures labels { self.new.costs.now ≡ slice_set self.old.costs.now (link.number - 1) cost }
        ensures sound { Sound (map M.Measure.rank self.new.costs.now) nodes.new }
        ensures waiting { Changed nodes.old nodes.new link.number true }
    {
        nodes.relabel(measure, self.costs, link, cost);
    }
}
