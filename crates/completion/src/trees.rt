// What is done with a tree of ways.
ghost use Rattle.std.specs.Prelude.{◌≡◌, ◌-◌, true, false, replicate, slice_set};
ghost use Rattle.network.specs.Marks.{marks, marked};
ghost use Rattle.completion.specs.Steps.{no_step};

use crate::tree::{Step, Tree};
use frontier::LinkNumber;
use network::LinkSet;

impl Tree {
    // A tree with no links.
    pub(crate) fn new() -> Tree
        ensures steps { result.steps ≡ replicate 1024 no_step }
        ensures settled { marks result.settled ≡ replicate 1024 false }
    {
        Tree {
            steps: [Step::NONE; 1024],
            settled: LinkSet::new(),
        }
    }

    // Notes how a link was reached.
    pub(crate) fn put(&mut self, link: LinkNumber, step: Step)
        ensures steps { self.new.steps ≡ slice_set self.old.steps (link.number - 1) step }
        ensures settled { self.new.settled ≡ self.old.settled }
    {
        self.steps[link.place()] = step;
    }

    // Settles a link.
    pub(crate) fn settle(&mut self, link: LinkNumber)
        ensures steps { self.new.steps ≡ self.old.steps }
        ensures settled { marks self.new.settled ≡ marked (marks self.old.settled) link.number true }
    {
        self.settled.add(usize::from(link.number));
    }
}
