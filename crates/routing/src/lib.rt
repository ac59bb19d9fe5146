// Routes over a network.
#![tactic(auto)]

ghost use Rattle.routing.specs.Enumeration.{Exact};
ghost use Rattle.routing.specs.Unstopped.{RoutesUnstopped};

mod found;
mod listing;
mod places;
mod roads;
mod steps;

pub use found::Found;
pub use listing::Listing;
pub use roads::{Roads, Trip};

// The enumeration of the simple routes has each of them, and no other list.
pub fn enumeration_is_exact()
    ensures { Exact }
{}

// No simple route meets the stop of a measure: its cost is the plain sum.
pub fn no_route_meets_a_stop()
    ensures { RoutesUnstopped }
{}
