// The measure narrowest: the tightness of the tightest link of a route.
ghost use Rattle.std.specs.Prelude.{◌≡◌};
ghost use Rattle.measure.specs.Narrowest.{narrowest, narrowest_lawful};

use crate::measures::Measure;
use network::Link;

#[derive(Clone, Copy, Debug, Default, PartialEq, Eq)]
pub struct Narrowest;

impl Measure for Narrowest {
    type Cost = u8;

    ghost ranks = { λ _. narrowest };

    ghost lawful = { λ _. narrowest_lawful };

    ghost rank = { λ cost. cost };

    fn start(&self) -> u8 {
        0
    }

    fn over_link(&self, cost: u8, link: Link) -> u8 {
        cost.max(link.tightness)
    }

    fn over_turn(&self, cost: u8, _class: u8, _extra: u32) -> u8 {
        cost
    }

    fn is_cheaper(&self, a: u8, b: u8) -> bool {
        a < b
    }
}
