// What a search does with the links that wait: it puts links in and takes them out, gives a link a label, and takes out a link with the
// least label.
ghost use Rattle.std.specs.Prelude.{◌≡◌, ℕ, ◌+◌, ◌-◌, ◌*◌, ◌<◌, ◌≤◌, true, false, ◌≢◌, List, map, length, slice_set};
ghost use Rattle.std.specs.Option.{option_map};
ghost use Rattle.frontier.specs.Tournament.{label, winner, held, Sound, Mending, Within, NoneWaits, Changed, Finds, Takes};

use crate::frontier::Frontier;
use crate::labelling::is_cheaper;
use crate::linknumber::LinkNumber;
use measure::Measure;

// The labels are lent, and may change between two calls. That a frontier is sound is the law of one that has its labels, so the
// functions here name it.
impl Frontier {
    // The frontier where no link waits.
    pub fn new() -> Frontier
        ensures sound { (ls : List ℕ) → Sound ls result }
        ensures none { NoneWaits result }
    {
        Frontier { nodes: [0; 2048] }
    }

    // The cheaper of the two links that an inner node's children hold.
    fn cheaper_below<M: Measure>(&self, measure: &M, labels: &[M::Cost], node: usize) -> u16
        requires inner { (0 < node) × (node < 1024) }
        requires room { 1024 ≤ length labels.now }
        requires within { Within self.now }
        ensures { result ≡ winner (label (map M.Measure.rank labels.now)) (held self.now (2 * node)) (held self.now (2 * node + 1)) }
    {
        let first = self.nodes[2 * node];
        let second = self.nodes[2 * node + 1];
        let Some(a) = LinkNumber::held(first) else {
            return second;
        };
        let Some(b) = LinkNumber::held(second) else {
            return first;
        };
        if is_cheaper(measure, labels, b, a) {
            second
        } else {
            first
        }
    }

    // Lets each node from an inner node up to the root hold the winner of its children. Where a node does already, so
    // does each node above it. The loop halves its way up to the root, which no range of places does.
    fn mend<M: Measure>(&mut self, measure: &M, labels: &[M::Cost], mut node: usize)
        requires inner { node < 1024 }
        requires room { 1024 ≤ length labels.now }
        requires mending { Mending (map M.Measure.rank labels.now) self.old node }
        ensures sound { Sound (map M.Measure.rank labels.now) self.new }
        ensures leaves { (k : ℕ) → 1024 ≤ k → held self.new k ≡ held self.old k }
    {
        while node > 0 {
            let cheaper = self.cheaper_below(measure, labels, node);
            if self.nodes[node] == cheaper {
                return;
            }
            self.nodes[node] = cheaper;
            node /= 2;
        }
    }

    // Lets the leaf of a link hold the link or 0.
    fn set_leaf<M: Measure>(
        &mut self,
        measure: &M,
        labels: &[M::Cost],
        link: LinkNumber,
        holds: u16,
    )
        requires own { 0 < holds → holds ≡ link.number }
        requires room { 1024 ≤ length labels.now }
        requires sound { Sound (map M.Measure.rank labels.now) self.old }
        ensures sound { Sound (map M.Measure.rank labels.now) self.new }
        ensures here { held self.new (1023 + link.number) ≡ holds }
        ensures others { (n : ℕ) → 0 < n → n ≢ link.number → held self.new (1023 + n) ≡ held self.old (1023 + n) }
    {
        let leaf = 1024 + link.place();
        self.nodes[leaf] = holds;
        self.mend(measure, labels, leaf / 2);
    }

    // Puts a link among those that wait.
    pub fn insert<M: Measure>(&mut self, measure: &M, labels: &[M::Cost], link: LinkNumber)
        requires room { 1024 ≤ length labels.now }
        requires sound { Sound (map M.Measure.rank labels.now) self.old }
        ensures sound { Sound (map M.Measure.rank labels.now) self.new }
        ensures waiting { Changed self.old self.new link.number true }
    {
        self.set_leaf(measure, labels, link, link.number);
    }

    // Takes a link from those that wait. A link that does not wait changes nothing.
    pub fn remove<M: Measure>(&mut self, measure: &M, labels: &[M::Cost], link: LinkNumber)
        requires room { 1024 ≤ length labels.now }
        requires sound { Sound (map M.Measure.rank labels.now) self.old }
        ensures sound { Sound (map M.Measure.rank labels.now) self.new }
        ensures waiting { Changed self.old self.new link.number false }
    {
        self.set_leaf(measure, labels, link, 0);
    }

    // A link that waits and has the least label, if any waits.
    pub fn least(&self) -> Option<LinkNumber>
        ensures { (ls : List ℕ) → Sound ls self.now → Finds ls self.now (option_map (λ link. link.number) result) }
    {
        LinkNumber::of(self.nodes[1])
    }

    // Gives a link a label. The link waits then, whether it did before or not.
    pub fn relabel<M: Measure>(
        &mut self,
        measure: &M,
        labels: &mut [M::Cost],
        link: LinkNumber,
        cost: M::Cost,
    )
        requires room { 1024 ≤ length labels.old }
        requires sound { Sound (map M.Measure.rank labels.old) self.old }
        ensures labels { labels.new ≡ slice_set labels.old (link.number - 1) cost }
        ensures sound { Sound (map M.Measure.rank labels.new) self.new }
        ensures waiting { Changed self.old self.new link.number true }
    {
        self.remove(measure, labels, link);
        labels[link.place()] = cost;
        self.insert(measure, labels, link);
    }

    // Takes out a link that waits and has the least label, if any waits.
    pub fn take_least<M: Measure>(&mut self, measure: &M, labels: &[M::Cost]) -> Option<LinkNumber>
        requires room { 1024 ≤ length labels.now }
        requires sound { Sound (map M.Measure.rank labels.now) self.old }
        ensures sound { Sound (map M.Measure.rank labels.now) self.new }
        ensures takes { Takes (map M.Measure.rank labels.now) self.old self.new (option_map (λ link. link.number) result) }
    {
        let least = self.least()?;
        self.remove(measure, labels, least);
        Some(least)
    }
}
