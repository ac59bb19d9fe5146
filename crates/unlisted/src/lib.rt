// The cheapest simple route of a question that its book does not list.
#![tactic(auto)]

mod along;
mod bests;
mod cheapest;
mod costs;
mod forks;
mod legible;
mod reading;
mod search;

pub use cheapest::cheapest_unlisted;
pub use legible::ListedRoutes;
