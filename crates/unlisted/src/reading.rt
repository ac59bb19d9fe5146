// What is read of listed routes.
ghost use Rattle.std.specs.Prelude.{◌≡◌, ◌<◌, ◌==◌, not, ◌&&◌, slice_index, zip};
ghost use Rattle.std.specs.List.{prefix_len};
ghost use Rattle.unlisted.specs.Listed.{question};
ghost use Rattle.unlisted.specs.Leaving.{agree};
ghost use Rattle.unlisted.specs.Along.{Fronts};

use crate::legible::ListedRoutes;
use routing::Listing;

// The number at a place, counted from 0, or 0 past the end, as 0 stands behind the links in the places of a book.
fn number_at(places: &[u16], place: usize) -> u16
    ensures { result ≡ slice_index places.now place }
{
    places.get(place).copied().unwrap_or(0)
}

// The link of a listed route at a place, counted from 0, or 0 past its end.
pub(crate) fn next_link(routes: ListedRoutes<'_, '_>, number: usize, place: usize) -> u16
    requires { number < routes.listing.listed }
    ensures { result ≡ slice_index ((question routes.entry.listing).routes number) place }
{
    number_at(routes.listing.places(number), place)
}

// How many places at the front of two lists of places hold the same links.
fn same_links(a: &[u16], b: &[u16]) -> usize
    ensures { result ≡ prefix_len (λ both. not (both.0 == 0) && both.0 == both.1) (zip a.now b.now) }
{
    a.iter()
        .zip(b)
        .take_while(|(a, b)| **a != 0 && **a == **b)
        .count()
}

// How many links at the front of two listed routes are the same.
fn agreement(listing: Listing<'_, '_>, a: usize, b: usize) -> usize
    requires { (a < listing.listed) × (b < listing.listed) }
    ensures { result ≡ agree ((question listing.entry).routes a) ((question listing.entry).routes b) }
{
    same_links(listing.places(a), listing.places(b))
}

// For each listed route, how many links at the front of it and of one of them are the same.
pub(crate) fn fronts(routes: ListedRoutes<'_, '_>, number: usize) -> [usize; 64]
    requires { number < routes.listing.listed }
    ensures { Fronts (question routes.entry.listing) ((question routes.entry.listing).routes number) result }
{
    let mut fronts = [0; 64];
    // counted, since each route is read by its number, and of what is written through `iter_mut` nothing is known
    for other in 0..routes.listing.listed {
        fronts[other] = agreement(routes.listing, other, number);
    }
    fronts
}
