// How listed routes go on from a beginning, and where a beginning is a new one.
ghost use Rattle.std.specs.Prelude.{◌≡◌, ℕ, ◌<◌, ◌≤◌, true, length, slice_index, slice_set};
ghost use Rattle.unlisted.specs.Listed.{question};
ghost use Rattle.unlisted.specs.Along.{nexts, Forks, Fronts, NewFrom};

use crate::along::{Along, Fork};
use crate::legible::ListedRoutes;
use crate::reading::next_link;
use network::LinkSet;

impl Fork {
    // Puts a next link into the fork; 0 is an end, as in the places of a book.
    fn put(&mut self, link: u16)
        ensures { nexts self.new ≡ slice_set (nexts self.old) link true }
    {
        if link == 0 {
            self.ends = true;
        } else {
            self.links.add(usize::from(link));
        }
    }
}

// How the listed routes go on that have the first links of a listed route.
pub(crate) fn fork<C: Copy>(routes: ListedRoutes<'_, '_>, along: Along<'_, C>, count: usize) -> Fork
    requires { Fronts (question routes.listing) along.links.now along.fronts.now }
    ensures { Forks (question routes.entry.listing) along.entry.links.now count result }
{
    let mut fork = Fork {
        links: LinkSet::new(),
        ends: false,
    };
    let fronts = &along.fronts[..routes.listing.listed];
    for (number, front) in fronts.iter().enumerate() {
        if *front >= count {
            fork.put(next_link(routes, number, count));
        }
    }
    fork
}

// The least number of links that a listed route has at its front and that no earlier one has there.
pub(crate) fn new_from(fronts: &[usize], number: usize) -> usize
    requires room { number ≤ length fronts.now }
    requires short { (i : ℕ) → i < number → slice_index fronts.now i ≤ 1024 }
    ensures { NewFrom fronts.now number result }
{
    let mut low = 0;
    for front in &fronts[..number] {
        low = low.max(*front + 1);
    }
    low
}
