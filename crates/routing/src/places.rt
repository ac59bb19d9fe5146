// Places of a book, each route's links and then zeros.
ghost use Rattle.std.specs.Prelude.{◌≡◌, ◌==◌};
ghost use Rattle.std.specs.List.{list_all, position_or_len};
ghost use Rattle.routing.specs.Lent.{lent};
ghost use Rattle.routing.specs.Places.{ReadsRoute};

use crate::roads::Trip;

// How many places stand before the first zero.
pub(crate) fn before_zeros(places: &[u16]) -> usize
    ensures { result ≡ position_or_len (λ place. place == 0) places.now }
{
    places.iter().take_while(|place| **place != 0).count()
}

// Whether places hold zeros, and nothing else.
fn is_blank(places: &[u16]) -> bool
    ensures { result ≡ list_all (λ place. place == 0) places.now }
{
    places.iter().all(|place| *place == 0)
}

impl Trip<'_> {
    // How many links the simple route of the trip has that the places hold before zeros; nothing where they hold anything else.
    pub fn route_in(self, places: &[u16]) -> Option<usize>
        ensures { ReadsRoute (lent self.entry.roads) self.entry.from self.entry.to places.now result }
    {
        let count = before_zeros(places);
        let (links, rest) = places.split_at(count);
        (is_blank(rest) && self.is_route(links)).then_some(count)
    }
}
