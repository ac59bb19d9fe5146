#![tactic(auto, using(crate::proofs::Decimals::length_word, crate::proofs::Decimals::length_metres))]

// The texts of metres, of turns-first and of narrowest.
ghost use Rattle.std.specs.Prelude.{◌≡◌};
ghost use Rattle.measure.specs.Texts.{metres_text, turns_first_text, narrowest_text};

use crate::metres::Metres;
use crate::narrowest::Narrowest;
use crate::shown::Shown;
use crate::turnsfirst::{ONE_TURN, TurnsFirst};
use crate::writing::put_metres;
use text::{put_decimal, put_word};

impl Shown for Metres {
    ghost text = { metres_text };

    fn show(&self, cost: u32, buffer: &mut [u8; 40]) -> usize {
        put_metres(u64::from(cost), buffer, 0)
    }
}

impl Shown for TurnsFirst {
    ghost text = { turns_first_text };

    fn show(&self, cost: u64, buffer: &mut [u8; 40]) -> usize {
        let at = put_decimal(cost / ONE_TURN, buffer, 0);
        let end = put_word(b" t ", buffer, at);
        put_metres(cost % ONE_TURN, buffer, end)
    }
}

impl Shown for Narrowest {
    ghost text = { narrowest_text };

    fn show(&self, cost: u8, buffer: &mut [u8; 40]) -> usize {
        let end = put_word(b"tight ", buffer, 0);
        put_decimal(u64::from(cost), buffer, end)
    }
}
