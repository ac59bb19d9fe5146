// A trip, and the routes that a book lists for it.
ghost use Rattle.std.specs.Prelude.{◌≡◌, ◌*◌, ◌<◌, ◌≤◌, true, false, length};
ghost use Rattle.routing.specs.Lent.{lent};
ghost use Rattle.routing.specs.Book.{place, route, Legible};

use crate::places::before_zeros;
use crate::roads::Trip;

// A trip, and how many routes a book lists for it, 1,024 places each.
#[derive(Clone, Copy)]
pub struct Listing<'a, 'b> {
    pub trip: Trip<'a>,
    pub book: &'b [u16],
    pub listed: usize,
    pub ghost room: { 1024 * listed ≤ length book.now },
}

impl<'b> Listing<'_, 'b> {
    // The places of a listed route.
    pub fn places(self, number: usize) -> &'b [u16]
        requires { number < self.listed }
        ensures { result.now ≡ place self.entry.book.now number }
    {
        let start = 1024 * number;
        &self.book[start..start + 1024]
    }

    // The links of a listed route, up to the first zero.
    pub fn links(self, number: usize) -> &'b [u16]
        requires { number < self.listed }
        ensures { result.now ≡ route self.entry.book.now number }
    {
        let places = self.places(number);
        &places[..before_zeros(places)]
    }

    // Whether each listed place holds a simple route of the trip.
    pub fn is_legible(self) -> bool
        ensures yes { result ≡ true → Legible (lent self.entry.trip.roads) self.entry.trip.from self.entry.trip.to self.entry.book.now self.entry.listed }
        ensures no { result ≡ false → Legible (lent self.entry.trip.roads) self.entry.trip.from self.entry.trip.to self.entry.book.now self.entry.listed → ⊥ }
    {
        for number in 0..self.listed {
            if self.trip.route_in(self.places(number)).is_none() {
                return false;
            }
        }
        true
    }
}
