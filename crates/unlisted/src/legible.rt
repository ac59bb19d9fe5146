// Listed routes that a search may go by.
ghost use Rattle.std.specs.Prelude.{◌≤◌};
ghost use Rattle.routing.specs.Lent.{lent};
ghost use Rattle.routing.specs.Book.{Legible};

use routing::Listing;

// A listing of 64 routes at most, each of them a simple route of its trip.
#[derive(Clone, Copy)]
pub struct ListedRoutes<'a, 'b> {
    pub listing: Listing<'a, 'b>,
    pub ghost few: { listing.listed ≤ 64 },
    pub ghost legible: { ∥ Legible (lent listing.trip.roads) listing.trip.from listing.trip.to listing.book.now listing.listed ∥₁ },
}
