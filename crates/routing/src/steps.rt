// The conditions of a route, link by link.
ghost use Rattle.std.specs.Prelude.{◌≡◌, true, false, not, ◌&&◌, ◌∷◌, slice_index_or};
ghost use Rattle.network.specs.Plan.{Laid, link};
ghost use Rattle.network.specs.Marks.{marks};
ghost use Rattle.routing.specs.Enumeration.{passable, joins};
ghost use Rattle.routing.specs.Lent.{lent, route_test};

use crate::roads::{Roads, Trip};
use network::{Link, LinkSet};

impl Roads<'_> {
    // The link of a number.
    pub fn link(self, number: u16) -> Link
        requires { Laid (lent self).plan.links number }
        ensures { result ≡ link (lent self.entry).plan.links number }
    {
        self.network.links()[usize::from(number) - 1]
    }

    // Whether a link is laid and not closed.
    fn is_passable(self, number: u16) -> bool
        ensures test { result ≡ passable (lent self.entry) number }
        ensures laid { result ≡ true → Laid (lent self.entry).plan.links number }
    {
        self.network.is_laid(u32::from(number)) && !self.closed.has(usize::from(number))
    }

    // Whether a link may come straight after another.
    fn may_follow(self, before: u16, number: u16) -> bool
        requires { (Laid (lent self).plan.links before) × (Laid (lent self).plan.links number) }
        ensures { result ≡ joins (lent self.entry) before number }
    {
        self.link(before).end == self.link(number).start
            && !self.network.turn_of(before, number).is_barred()
    }

    // Whether a route may go on from a link to another that is none of those seen.
    fn may_go_on(self, before: u16, seen: &LinkSet, number: u16) -> bool
        requires { Laid (lent self).plan.links before }
        ensures { result ≡ (passable (lent self.entry) number
            && (not (slice_index_or (false ∷ marks seen.now) number false) && joins (lent self.entry) before number)) }
    {
        self.is_passable(number)
            && !seen.has(usize::from(number))
            && self.may_follow(before, number)
    }
}

impl Trip<'_> {
    // Whether links are a simple route of the trip.
    pub(crate) fn is_route(self, links: &[u16]) -> bool
        ensures { result ≡ route_test (lent self.entry.roads) self.entry.from self.entry.to links.now }
    {
        let roads = self.roads;
        let [first, rest @ ..] = links else {
            return false;
        };
        if !roads.is_passable(*first) || roads.link(*first).start != self.from {
            return false;
        }
        let mut seen = LinkSet::new();
        seen.add(usize::from(*first));
        let mut before = *first;
        for number in rest {
            if !roads.may_go_on(before, &seen, *number) {
                return false;
            }
            seen.add(usize::from(*number));
            before = *number;
        }
        roads.link(before).end == self.to
    }
}
