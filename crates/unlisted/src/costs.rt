// What the first links of a route cost, and which links may not come after them.
ghost use Rattle.std.specs.Prelude.{◌≡◌, ◌≤◌, ◌∷◌, map, length, slice_index};
ghost use Rattle.std.specs.List.{AllByRecursion};
ghost use Rattle.network.specs.Plan.{Laid};
ghost use Rattle.network.specs.Laid.{plan};
ghost use Rattle.network.specs.Marks.{marks};
ghost use Rattle.routing.specs.Lent.{lent};
ghost use Rattle.completion.specs.Completion.{Bans};
ghost use Rattle.unlisted.specs.Along.{Priced};

use completion::cost_after;
use measure::Measure;
use network::{LinkSet, Network};
use routing::Roads;

// Writes what the first links of a route cost, one of them at place 0.
pub(crate) fn price_along<M: Measure>(
    measure: &M,
    network: &Network,
    links: &[u16],
    costs: &mut [M::Cost],
)
    requires room { length links.now ≤ length costs.old }
    requires laid { AllByRecursion (Laid (plan network.now).links) links.now }
    ensures { Priced M.Measure.rank (M.Measure.ranks measure.now) (plan network.now) links.now costs.new }
{
    let mut cost = measure.start();
    let mut before = 0;
    // counted, since of costs that a zip lends the proof does not know what was written to them
    for (i, link) in links.iter().enumerate() {
        cost = cost_after(measure, network, before, cost, *link);
        before = *link;
        costs[i] = cost;
    }
}

// What so many first links cost.
pub(crate) fn price_of<M: Measure>(measure: &M, costs: &[M::Cost], count: usize) -> M::Cost
    requires { count ≤ length costs.now }
    ensures { M.Measure.rank result ≡ slice_index ((M.Measure.ranks measure.now).start ∷ map M.Measure.rank costs.now) count }
{
    costs[..count].last().copied().unwrap_or(measure.start())
}

// The closed links and those of a route.
pub(crate) fn banned_along(roads: Roads<'_>, links: &[u16]) -> LinkSet
    ensures { Bans (lent roads.entry) links.now (marks result) }
{
    let mut banned = *roads.closed;
    for link in links {
        banned.add(usize::from(*link));
    }
    banned
}
