// The best route so far, and what a beginning makes of it.
ghost use Rattle.std.specs.Prelude.{◌≡◌, ◌<◌, ◌≤◌, not, length};
ghost use Rattle.std.specs.List.{AllByRecursion};
ghost use Rattle.network.specs.Roads.{Passable};
ghost use Rattle.network.specs.Marks.{marks};
ghost use Rattle.routing.specs.Lent.{lent};
ghost use Rattle.routing.specs.Enumeration.{ends_at};
ghost use Rattle.routing.specs.Places.{Holds};
ghost use Rattle.completion.specs.Onward.{too_dear};
ghost use Rattle.unlisted.specs.Best.{price, Improves, Itself, Completion, Either};

use completion::{Departure, Search, complete, is_dear};
use measure::Measure;
use routing::{Found, Roads};

// Whether a cost is below that of the best route, or there is none.
fn is_better<M: Measure>(measure: &M, best: Option<Found<M::Cost>>, cost: M::Cost) -> bool
    ensures { result ≡ not (too_dear (price M.Measure.rank best) (M.Measure.rank cost)) }
{
    !is_dear(measure, best.map(|found| found.cost), cost)
}

// Whether links end at a node.
fn ends_at(roads: Roads<'_>, to: u16, links: &[u16]) -> bool
    requires { AllByRecursion (Passable (lent roads)) links.now }
    ensures { result ≡ ends_at (lent roads.entry) to links.now }
{
    // A match: of a closure whose call has a `requires` the proof learns nothing.
    match links {
        [.., last] => roads.link(*last).end == to,
        [] => false,
    }
}

// Writes links to a line, and zeros after them.
fn write_line(links: &[u16], line: &mut [u16])
    requires { length links.now ≤ length line.old }
    ensures { Holds line.new links.now }
{
    let (front, rest) = line.split_at_mut(links.len());
    front.copy_from_slice(links);
    rest.fill(0);
}

// The best route so far or the beginning itself, where that is a route and cheaper, unless it is taken.
fn consider<M: Measure>(
    departure: &Departure<'_, M>,
    taken: bool,
    best: Option<Found<M::Cost>>,
    line: &mut [u16; 1024],
) -> Option<Found<M::Cost>>
    requires { length departure.now.beginning.links.now ≤ 1024 }
    ensures { Improves M.Measure.rank (M.Measure.ranks departure.now.measure.now) (lent departure.now.trip.roads)
        (Itself (lent departure.now.trip.roads) departure.now.trip.from departure.now.trip.to departure.now.beginning.links.now taken)
        best line.old result line.new }
{
    let trip = departure.trip;
    let links = departure.beginning.links;
    let cost = departure.beginning.cost;
    if taken || !ends_at(trip.roads, trip.to, links) || !is_better(departure.measure, best, cost) {
        return best;
    }
    write_line(links, line);
    let count = links.len();
    Some(Found { cost, count })
}

// The best of the best route so far, the beginning itself, unless it is taken, and the beginning with a completion.
pub(crate) fn look_from<M: Measure>(
    departure: &Departure<'_, M>,
    taken: bool,
    best: Option<Found<M::Cost>>,
    search: &mut Search<'_, M>,
    line: &mut [u16; 1024],
) -> Option<Found<M::Cost>>
    requires { length departure.now.beginning.links.now ≤ 1024 }
    ensures { Improves M.Measure.rank (M.Measure.ranks departure.now.measure.now) (lent departure.now.trip.roads)
        (Either (Itself (lent departure.now.trip.roads) departure.now.trip.from departure.now.trip.to departure.now.beginning.links.now taken)
        (Completion (lent departure.now.trip.roads) departure.now.trip.from departure.now.trip.to departure.now.beginning.links.now (marks departure.now.beginning.forbidden.now)))
        best line.old result line.new }
{
    let best = consider(departure, taken, best, line);
    let bound = best.map(|found| found.cost);
    complete(departure, bound, search, line).or(best)
}
