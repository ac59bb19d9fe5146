// The cheapest completion of a beginning.
ghost use Rattle.std.specs.Prelude.{◌≡◌, ℕ, ◌-◌, ◌<◌, ◌≤◌, length, slice_index_or};
ghost use Rattle.network.specs.Marks.{marks};
ghost use Rattle.routing.specs.Lent.{lent};
ghost use Rattle.routing.specs.Route.{last_of};
ghost use Rattle.completion.specs.Completion.{end_of, Completed};

use crate::beginning::Departure;
use crate::growing::grow;
use crate::onward::is_dear;
use crate::quest::Quest;
use crate::search::Search;
use crate::way::write_route;
use measure::Measure;
use routing::Found;

// The last of some links, or 0 where there is none.
fn last_link(links: &[u16]) -> u16
    ensures { result ≡ last_of 0 links.now }
{
    links.last().copied().unwrap_or(0)
}

// The node at which a beginning ends: the origin, where it has no links.
fn end_node<M: Measure>(departure: &Departure<'_, M>) -> u16
    ensures { result ≡ end_of (lent departure.now.trip.roads) departure.now.trip.from departure.now.beginning.links.now }
{
    let trip = departure.trip;
    // A match: of a closure whose call has a `requires` the proof learns nothing.
    match departure.beginning.links.last() {
        Some(last) => trip.roads.link(*last).end,
        None => trip.from,
    }
}

// A cheapest completion of a beginning that costs less than the bound, written to the line after the beginning, with zeros
// after it. The search forgets what it had found out before.
pub fn complete<M: Measure>(
    departure: &Departure<'_, M>,
    bound: Option<M::Cost>,
    search: &mut Search<'_, M>,
    line: &mut [u16; 1024],
) -> Option<Found<M::Cost>>
    ensures { Completed M.Measure.rank (M.Measure.ranks departure.now.measure.now) (lent departure.now.trip.roads)
        departure.now.trip.from departure.now.trip.to departure.now.beginning.links.now (marks departure.now.beginning.forbidden.now) bound line.old result line.new }
{
    if is_dear(departure.measure, bound, departure.beginning.cost) {
        return None;
    }
    let quest = Quest {
        measure: departure.measure,
        network: departure.trip.roads.network,
        banned: departure.beginning.banned,
        forbidden: departure.beginning.forbidden,
        node: end_node(departure),
        after: last_link(departure.beginning.links),
        cost: departure.beginning.cost,
        to: departure.trip.to,
        bound,
    };
    let number = grow(&quest, search)?;
    let count = write_route(&search.tree, departure.beginning.links, number, line);
    Some(Found {
        cost: search.frontier.label(number),
        count,
    })
}
