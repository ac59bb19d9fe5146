// Changes of a sealed map: closing and opening links, and changing the turn of a pair.
ghost use Rattle.std.specs.Prelude.{◌≡◌, true, false};
ghost use Rattle.network.specs.Refusals.{refusal_in};
ghost use Rattle.navigator.specs.State.{state};
ghost use Rattle.navigator.specs.Calls.{mark_refusal, marked_so, change_refusal, turned};

use crate::map::Map;
use crate::question::Call;
use measure::Measure;
use network::Refusal;

impl<M: Measure + Drop> Map<M> {
    // Closes a link; it may be closed already.
    pub fn close(&mut self, link: u32) -> Result<(), Refusal>
        ensures answer { refusal_in result ≡ mark_refusal (state self.old.town) link }
        ensures after { state self.new.town ≡ marked_so (state self.old.town) link true }
        ensures measure { self.new.measure ≡ self.old.measure }
    {
        self.town.mark(link, true)
    }

    // Opens a link; it may be open already.
    pub fn open(&mut self, link: u32) -> Result<(), Refusal>
        ensures answer { refusal_in result ≡ mark_refusal (state self.old.town) link }
        ensures after { state self.new.town ≡ marked_so (state self.old.town) link false }
        ensures measure { self.new.measure ≡ self.old.measure }
    {
        self.town.mark(link, false)
    }

    // Changes the entry of a pair, or adds one where the pair has none.
    pub fn set_turn(&mut self, into: u32, out: u32, letter: char, extra: u32) -> Result<(), Refusal>
        ensures answer { refusal_in result ≡ change_refusal (state self.old.town) into out letter extra }
        ensures after { state self.new.town ≡ turned (state self.old.town) into out letter extra }
        ensures measure { self.new.measure ≡ self.old.measure }
    {
        self.town.question.admit(Call::Change)?;
        self.town.network.set_turn(into, out, letter, extra)
    }
}
