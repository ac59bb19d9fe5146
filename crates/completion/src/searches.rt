// What a search starts with.
ghost use Rattle.std.specs.Prelude.{◌≡◌, ◌≤◌, false, length, replicate};
ghost use Rattle.network.specs.Marks.{marks};
ghost use Rattle.frontier.specs.Tournament.{NoneWaits};
ghost use Rattle.completion.specs.Steps.{no_step};

use crate::search::Search;
use crate::tree::Tree;
use frontier::LabelledFrontier;
use measure::Measure;

impl<'a, M: Measure> Search<'a, M> {
    // A search that has found out nothing, with room for labels. A caller may lend more than there are links.
    pub fn new(labels: &'a mut [M::Cost]) -> Search<'a, M>
        requires { 1024 ≤ length labels.old }
        ensures steps { result.tree.steps ≡ replicate 1024 no_step }
        ensures settled { marks result.tree.settled ≡ replicate 1024 false }
        ensures labels { result.frontier.labels.costs.now ≡ labels.old }
        ensures none { NoneWaits result.frontier.nodes }
    {
        Search {
            tree: Tree::new(),
            frontier: LabelledFrontier::new(labels),
        }
    }

    // Forgets all it has found out. The labels stay, and are heeded of no link that was not reached.
    pub(crate) fn clear(&mut self)
        ensures steps { self.new.tree.steps ≡ replicate 1024 no_step }
        ensures settled { marks self.new.tree.settled ≡ replicate 1024 false }
        ensures labels { self.new.frontier.labels.costs.now ≡ self.old.frontier.labels.costs.now }
        ensures none { NoneWaits self.new.frontier.nodes }
    {
        self.tree = Tree::new();
        self.frontier.clear();
    }
}
