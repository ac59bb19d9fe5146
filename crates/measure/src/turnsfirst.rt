// The measure turns-first: the fewest turns, and among those the fewest metres. A cost is the turns times
// 4,294,967,296 and the metres.
ghost use Rattle.std.specs.Prelude.{◌≡◌};
ghost use Rattle.measure.specs.TurnsFirst.{turns_first, turns_first_lawful, turn_of};

use crate::measures::Measure;
use network::Link;

// What one turn adds to a cost.
pub(crate) const ONE_TURN: u64 = 4_294_967_296;

#[derive(Clone, Copy, Debug, Default, PartialEq, Eq)]
pub struct TurnsFirst;

// What a turn of a class adds: one turn for left, right or back, and none for straight on or barred. The class is the
// number that a turn entry keeps.
fn turn_of(class: u8) -> u64
    ensures { result ≡ turn_of class }
{
    match class {
        1..=3 => ONE_TURN,
        _ => 0,
    }
}

impl Measure for TurnsFirst {
    type Cost = u64;

    ghost ranks = { λ _. turns_first };

    ghost lawful = { λ _. turns_first_lawful };

    ghost rank = { λ cost. cost };

    fn start(&self) -> u64 {
        0
    }

    fn over_link(&self, cost: u64, link: Link) -> u64 {
        cost.saturating_add(u64::from(link.length))
    }

    fn over_turn(&self, cost: u64, class: u8, extra: u32) -> u64 {
        cost.saturating_add(u64::from(extra) + turn_of(class))
    }

    fn is_cheaper(&self, a: u64, b: u64) -> bool {
        a < b
    }
}
