// Asking a question, and ending it.
ghost use Rattle.std.specs.Prelude.{◌≡◌};
ghost use Rattle.network.specs.Refusals.{refusal_in};
ghost use Rattle.navigator.specs.State.{state};
ghost use Rattle.navigator.specs.Calls.{ask_refusal, asked, end_refusal, ended};

use crate::map::Map;
use crate::question::{Call, Question};
use measure::Measure;
use network::{Refusal, is_node};

impl<M: Measure + Drop> Map<M> {
    // Opens a question from a node to a node, with no routes listed.
    pub fn ask(&mut self, from: u32, to: u32) -> Result<(), Refusal>
        ensures answer { refusal_in result ≡ ask_refusal (state self.old.town) from to }
        ensures after { state self.new.town ≡ asked (state self.old.town) from to }
        ensures measure { self.new.measure ≡ self.old.measure }
    {
        self.town.question.admit(Call::Ask)?;
        if !is_node(from) || !is_node(to) {
            return Err(Refusal::NodeOutside);
        }
        self.town.question = Question::Open {
            from: from as u16,
            to: to as u16,
            listed: 0,
        };
        Ok(())
    }

    // Shuts the question.
    pub fn end(&mut self) -> Result<(), Refusal>
        ensures answer { refusal_in result ≡ end_refusal (state self.old.town) }
        ensures after { state self.new.town ≡ ended (state self.old.town) }
        ensures measure { self.new.measure ≡ self.old.measure }
    {
        self.town.question.admit(Call::End)?;
        self.town.question = Question::Shut;
        Ok(())
    }
}
