// What a quest for routes starts from.
ghost use Rattle.std.specs.Prelude.{◌≡◌};
ghost use Rattle.network.specs.Marks.{marks};
ghost use Rattle.measure.specs.Cost as costs;
ghost use Rattle.routing.specs.Lent.{lent};
ghost use Rattle.completion.specs.Completion.{Begins, Bans};

use measure::Measure;
use network::LinkSet;
pub use routing::Trip;

// Links that go on from the origin as a route does, and what they cost; the closed links and these; and the links that may not
// come straight after them.
#[derive(Clone, Copy)]
pub struct Beginning<'a, C: Copy> {
    pub links: &'a [u16],
    pub cost: C,
    pub banned: &'a LinkSet,
    pub forbidden: &'a LinkSet,
}

// A beginning of a trip, told by a measure.
#[derive(Drop)]
pub struct Departure<'a, M: Measure> {
    pub measure: &'a M,
    pub trip: Trip<'a>,
    pub beginning: Beginning<'a, M::Cost>,
    ghost begins: { ∥ Begins (lent trip.roads) trip.from beginning.links.now ∥₁ },
    ghost priced: { M.Measure.rank beginning.cost ≡ costs.cost (M.Measure.ranks measure.now) (lent trip.roads).plan beginning.links.now },
    ghost bans: { Bans (lent trip.roads) beginning.links.now (marks beginning.banned.now) },
}
