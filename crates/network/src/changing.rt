// Changing the turn of a pair.
ghost use Rattle.std.specs.Prelude.{◌≡◌};
ghost use Rattle.network.specs.Refusals.{refusal_in};
ghost use Rattle.network.specs.Laid.{plan};
ghost use Rattle.network.specs.Changing.{set_turn_refusal, with_set_turn};

use crate::laying::check_letter;
use crate::network::Network;
use crate::refusal::Refusal;

impl Network {
    // Changes the entry of a pair, or adds one after the others where the pair has none.
    pub fn set_turn(&mut self, into: u32, out: u32, letter: char, extra: u32) -> Result<(), Refusal>
        ensures answer { refusal_in result ≡ set_turn_refusal (plan self.old) into out letter extra }
        ensures after { plan self.new ≡ with_set_turn (plan self.old) into out letter extra }
    {
        self.check_pair(into, out)?;
        let class = check_letter(letter, extra)?;
        if let Some(place) = self.place_of(into, out) {
            self.turns.change_at(place, class, extra);
            return Ok(());
        }
        self.add_turn(into, out, class, extra)
    }
}
