// The search along listed routes.
ghost use Rattle.std.specs.Prelude.{◌≡◌, ◌+◌, ◌≤◌, length, take};
ghost use Rattle.network.specs.Marks.{marks};
ghost use Rattle.routing.specs.Lent.{lent};
ghost use Rattle.routing.specs.Book.{Finds};
ghost use Rattle.completion.specs.Completion.{Bans};
ghost use Rattle.unlisted.specs.Leaving.{LeftAt, Left};
ghost use Rattle.unlisted.specs.Listed.{question};
ghost use Rattle.unlisted.specs.Best.{Improves};
ghost use Rattle.unlisted.specs.Along.{Ready};

use crate::along::Along;
use crate::bests::look_from;
use crate::costs::{banned_along, price_along, price_of};
use crate::forks::{fork, new_from};
use crate::legible::ListedRoutes;
use crate::reading::fronts;
use completion::{Beginning, Departure, Search};
use measure::Measure;
use network::LinkSet;
use routing::Found;

// The best of the best route so far and those that leave the listed routes after so many links of one of them.
fn look_after<'a, M: Measure>(
    measure: &M,
    routes: ListedRoutes<'_, '_>,
    along: Along<'a, M::Cost>,
    count: usize,
    banned: &'a LinkSet,
    best: Option<Found<M::Cost>>,
    search: &mut Search<'_, M>,
    line: &mut [u16; 1024],
) -> Option<Found<M::Cost>>
    requires ready { Ready M.Measure.rank (M.Measure.ranks measure.now) (question routes.listing) along }
    requires count { count ≤ length along.links.now }
    requires bans { Bans (lent routes.listing.trip.roads) (take count along.links.now) (marks banned.now) }
    ensures { Improves M.Measure.rank (M.Measure.ranks measure.now) (lent routes.entry.listing.trip.roads)
        (LeftAt (question routes.entry.listing) along.entry.links.now count)
        best line.old result line.new }
{
    let fork = fork(routes, along, count);
    let beginning = Beginning {
        links: &along.links[..count],
        cost: price_of(measure, along.costs, count),
        banned,
        forbidden: &fork.links,
    };
    let departure = Departure {
        measure,
        trip: routes.listing.trip,
        beginning,
    };
    look_from(&departure, fork.ends, best, search, line)
}

// The best of the best route so far and those that leave the listed routes along one of them.
fn look_along<M: Measure>(
    measure: &M,
    routes: ListedRoutes<'_, '_>,
    along: Along<'_, M::Cost>,
    first: Option<Found<M::Cost>>,
    search: &mut Search<'_, M>,
    line: &mut [u16; 1024],
) -> Option<Found<M::Cost>>
    requires ready { Ready M.Measure.rank (M.Measure.ranks measure.now) (question routes.listing) along }
    requires finds { Finds M.Measure.rank (M.Measure.ranks measure.now) (lent routes.listing.trip.roads) (Left (question routes.listing) along.number) line.old first }
    ensures { Finds M.Measure.rank (M.Measure.ranks measure.now) (lent routes.entry.listing.trip.roads) (Left (question routes.entry.listing) (along.entry.number + 1)) line.new result }
{
    let low = new_from(along.fronts, along.number);
    let mut banned = banned_along(routes.listing.trip.roads, along.links);
    let mut best = first;
    for count in (low..=along.links.len()).rev() {
        best = look_after(measure, routes, along, count, &banned, best, search, line);
        if count > 0 {
            banned.remove(usize::from(along.links[count - 1]));
        }
    }
    best
}

// A cheapest route that leaves the listed routes along any of them.
pub(crate) fn look_along_all<M: Measure>(
    measure: &M,
    routes: ListedRoutes<'_, '_>,
    costs: &mut [M::Cost],
    search: &mut Search<'_, M>,
    line: &mut [u16; 1024],
) -> Option<Found<M::Cost>>
    requires { 1024 ≤ length costs.old }
    ensures { Finds M.Measure.rank (M.Measure.ranks measure.now) (lent routes.entry.listing.trip.roads) (Left (question routes.entry.listing) routes.entry.listing.listed) line.new result }
{
    let mut best = None;
    for number in 0..routes.listing.listed {
        let links = routes.listing.links(number);
        let fronts = fronts(routes, number);
        price_along(measure, routes.listing.trip.roads.network, links, costs);
        let along = Along {
            number,
            links,
            fronts: &fronts,
            costs,
        };
        best = look_along(measure, routes, along, best, search, line);
    }
    best
}
