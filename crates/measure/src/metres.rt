// The measure metres: the lengths of the links and the extras of the turns, added up.
ghost use Rattle.std.specs.Prelude.{◌≡◌};
ghost use Rattle.measure.specs.Metres.{metres, metres_lawful};

use crate::measures::Measure;
use network::Link;

#[derive(Clone, Copy, Debug, Default, PartialEq, Eq)]
pub struct Metres;

impl Measure for Metres {
    type Cost = u32;

    ghost ranks = { λ _. metres };

    ghost lawful = { λ _. metres_lawful };

    ghost rank = { λ cost. cost };

    fn start(&self) -> u32 {
        0
    }

    fn over_link(&self, cost: u32, link: Link) -> u32 {
        cost.saturating_add(link.length)
    }

    fn over_turn(&self, cost: u32, _class: u8, extra: u32) -> u32 {
        cost.saturating_add(extra)
    }

    fn is_cheaper(&self, a: u32, b: u32) -> bool {
        a < b
    }
}
