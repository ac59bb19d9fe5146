// What is replied to a line.
use network::Refusal;

// An answer without news, a refusal, the cost of a trial, or a route: which one it is, its cost and how many of its
// links it shares with route 1. A refusal is one of four lines that are written here, and no failure, so this is no Result.
#[derive(Clone, Copy)]
pub enum Reply<C> {
    Done,
    Refused(Refusal),
    Cost(C),
    Route {
        number: usize,
        cost: C,
        shared: usize,
    },
}
