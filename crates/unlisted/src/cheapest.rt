// The cheapest route of a trip, and the cheapest that a book does not list.
ghost use Rattle.std.specs.Prelude.{◌≡◌, ◌≤◌, map, length, replicate};
ghost use Rattle.routing.specs.Route.{Simple};
ghost use Rattle.routing.specs.Lent.{lent};
ghost use Rattle.routing.specs.Book.{Unlisted, Finds, Cleared};

use crate::legible::ListedRoutes;
use crate::search::look_along_all;
use completion::{Beginning, Departure, Search, complete};
use measure::Measure;
use network::LinkSet;
use routing::{Found, Trip};

// A cheapest simple route of a trip, written to the line with zeros after it.
fn cheapest_route<M: Measure>(
    measure: &M,
    trip: Trip<'_>,
    search: &mut Search<'_, M>,
    line: &mut [u16; 1024],
) -> Option<Found<M::Cost>>
    ensures { Finds M.Measure.rank (M.Measure.ranks measure.now) (lent trip.entry.roads) (Simple (lent trip.entry.roads) trip.entry.from trip.entry.to) line.new result }
{
    let none = LinkSet::new();
    let beginning = Beginning {
        links: &[],
        cost: measure.start(),
        banned: trip.roads.closed,
        forbidden: &none,
    };
    let departure = Departure {
        measure,
        trip,
        beginning,
    };
    complete(&departure, None, search, line)
}

// A cheapest simple route that is not listed, written to the line with zeros after it. The table is the front of one that may
// be longer.
fn find_unlisted<M: Measure>(
    measure: &M,
    routes: ListedRoutes<'_, '_>,
    table: &mut [M::Cost],
    line: &mut [u16; 1024],
) -> Option<Found<M::Cost>>
    requires { 2048 ≤ length table.old }
    ensures { Finds M.Measure.rank (M.Measure.ranks measure.now) (lent routes.entry.listing.trip.roads)
        (Unlisted (lent routes.entry.listing.trip.roads) routes.entry.listing.trip.from routes.entry.listing.trip.to routes.entry.listing.book.now routes.entry.listing.listed)
        line.new result }
{
    let (labels, costs) = table.split_at_mut(1024);
    let mut search = Search::new(labels);
    if routes.listing.listed == 0 {
        cheapest_route(measure, routes.listing.trip, &mut search, line)
    } else {
        look_along_all(measure, routes, costs, &mut search, line)
    }
}

// Puts all costs back to the start.
fn clear<M: Measure>(measure: &M, costs: &mut [M::Cost])
    ensures { map M.Measure.rank costs.new ≡ replicate (length costs.old) (M.Measure.ranks measure.now).start }
{
    // a fill asks for a clone that cannot fail, which a measure does not promise of its costs
    for cost in costs.iter_mut() {
        *cost = measure.start();
    }
}

// A cheapest simple route of a question among those that a book does not list, written to the line with zeros after it.
// A caller may lend a longer table, and the contract says what it holds after.
pub fn cheapest_unlisted<M: Measure>(
    measure: &M,
    routes: ListedRoutes<'_, '_>,
    table: &mut [M::Cost],
    line: &mut [u16; 1024],
) -> Option<Found<M::Cost>>
    requires room { 2048 ≤ length table.old }
    ensures finds { Finds M.Measure.rank (M.Measure.ranks measure.now) (lent routes.entry.listing.trip.roads)
        (Unlisted (lent routes.entry.listing.trip.roads) routes.entry.listing.trip.from routes.entry.listing.trip.to routes.entry.listing.book.now routes.entry.listing.listed)
        line.new result }
    ensures table { Cleared M.Measure.rank (M.Measure.ranks measure.now) table.old table.new }
{
    let work = &mut table[..2048];
    let found = find_unlisted(measure, routes, work, line);
    clear(measure, work);
    found
}
