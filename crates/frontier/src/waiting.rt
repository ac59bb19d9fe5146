// What a search does with the links that wait and their labels.
ghost use Rattle.std.specs.Prelude.{◌≡◌, ◌-◌, ◌≤◌, true, false, length, map, slice_index_or, slice_set};
ghost use Rattle.std.specs.Option.{option_map};
ghost use Rattle.frontier.specs.Tournament.{NoneWaits, Changed, Finds, Takes};

use crate::frontier::Frontier;
use crate::labelledfrontier::LabelledFrontier;
use crate::labels::Labels;
use crate::linknumber::LinkNumber;
use measure::Measure;

// A method that may change a frontier may change both parts, so it says of each what becomes of it, also where that stays.
impl<'a, M: Measure> LabelledFrontier<'a, M> {
    // The frontier where no link waits, with room for the labels. A caller may lend more than there are links.
    pub fn new(costs: &'a mut [M::Cost]) -> LabelledFrontier<'a, M>
        requires { 1024 ≤ length costs.old }
        ensures labels { result.labels.costs.now ≡ costs.old }
        ensures none { NoneWaits result.nodes }
    {
        let labels = Labels { costs };
        LabelledFrontier {
            labels,
            nodes: Frontier::new(),
        }
    }

    // Takes out all links. Their labels stay. Where none waits, as after a search that found nothing, the nodes need no writing.
    pub fn clear(&mut self)
        ensures labels { self.new.labels.costs.now ≡ self.old.labels.costs.now }
        ensures none { NoneWaits self.new.nodes }
    {
        if self.least().is_some() {
            self.nodes = Frontier::new();
        }
    }

    // The label of a link.
    pub fn label(&self, link: LinkNumber) -> M::Cost
        ensures { result ≡ slice_index_or self.now.labels.costs.now (link.number - 1) result }
    {
        self.labels.get(link)
    }

    // Puts a link among those that wait.
    pub fn insert(&mut self, measure: &M, link: LinkNumber)
        ensures labels { self.new.labels.costs.now ≡ self.old.labels.costs.now }
        ensures waiting { Changed self.old.nodes self.new.nodes link.number true }
    {
        self.labels.insert_into(measure, &mut self.nodes, link);
    }

    // Takes a link from those that wait. A link that does not wait changes nothing.
    pub fn remove(&mut self, measure: &M, link: LinkNumber)
        ensures labels { self.new.labels.costs.now ≡ self.old.labels.costs.now }
        ensures waiting { Changed self.old.nodes self.new.nodes link.number false }
    {
        self.labels.remove_from(measure, &mut self.nodes, link);
    }

    // A link that waits and has the least label, if any waits.
    pub fn least(&self) -> Option<LinkNumber>
        ensures { Finds (map M.Measure.rank self.now.labels.costs.now) self.now.nodes (option_map (λ link. link.number) result) }
    {
        self.nodes.least()
    }

    // Gives a link a label. The link waits then, whether it did before or not.
    pub fn relabel(&mut self, measure: &M, link: LinkNumber, cost: M::Cost)
        ensures labels { self.new.labels.costs.now ≡ slice_set self.old.labels.costs.now (link.number - 1) cost }
        ensures waiting { Changed self.old.nodes self.new.nodes link.number true }
    {
        self.labels.relabel_in(measure, &mut self.nodes, link, cost);
    }

    // Takes out a link that waits and has the least label, if any waits.
    pub fn take_least(&mut self, measure: &M) -> Option<LinkNumber>
        ensures labels { self.new.labels.costs.now ≡ self.old.labels.costs.now }
        ensures takes { Takes (map M.Measure.rank self.new.labels.costs.now) self.old.nodes self.new.nodes (option_map (λ link. link.number) result) }
    {
        self.labels.take_least_of(measure, &mut self.nodes)
    }
}
