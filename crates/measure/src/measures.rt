// What a measure of routes is.
ghost use Rattle.std.specs.Prelude.{◌≡◌, ℕ, nat_lt};
ghost use Rattle.measure.specs.Ranks.{Ranks, Lawful};

use network::Link;

// A measure says what a route costs. Each cost has a rank, and the lower rank is the cheaper cost. The ranks of a
// measure are told by `ranks`, and whoever writes a measure shows by `lawful` that they keep the laws.
pub trait Measure {
    type Cost: Copy;

    ghost ranks: { Self → Ranks };

    ghost lawful: { (m : Self) → Lawful (ranks m) };

    ghost rank: { Self.Cost → ℕ };

    // The cost before the first link.
    fn start(&self) -> Self::Cost
        ensures { rank result ≡ (ranks self.now).start };

    // The cost after a link.
    fn over_link(&self, cost: Self::Cost, link: Link) -> Self::Cost
        ensures { rank result ≡ (ranks self.now).over_link (rank cost) link };

    // The cost after a turn of a class and with an extra.
    fn over_turn(&self, cost: Self::Cost, class: u8, extra: u32) -> Self::Cost
        ensures { rank result ≡ (ranks self.now).over_turn (rank cost) class extra };

    // Whether the first cost is cheaper than the second. Each measure compares its own costs, since the trait asks no
    // order of them.
    fn is_cheaper(&self, a: Self::Cost, b: Self::Cost) -> bool
        ensures { result ≡ nat_lt (rank a) (rank b) };
}
