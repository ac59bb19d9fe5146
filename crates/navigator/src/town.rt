// What stands on a sealed map, whatever its measure.
ghost use Rattle.std.specs.Prelude.{◌≡◌};
ghost use Rattle.network.specs.Refusals.{refusal_in};
ghost use Rattle.routing.specs.Lent.{lent};
ghost use Rattle.navigator.specs.State.{state};
ghost use Rattle.navigator.specs.Calls.{mark_refusal, marked_so};

use crate::question::{Call, Question};
use network::{LinkSet, Network, Refusal};
use routing::Roads;

#[derive(Drop)]
pub struct Town {
    pub(crate) network: Network,
    pub(crate) closed: LinkSet,
    pub(crate) question: Question,
}

impl Town {
    // The roads as they stand.
    pub(crate) fn roads(&self) -> Roads<'_>
        ensures { lent result ≡ (state self.now).roads }
    {
        Roads {
            network: &self.network,
            closed: &self.closed,
        }
    }

    // Marks a link as closed, or as open; it may be marked so already. The mark is a value that is stored.
    pub(crate) fn mark(&mut self, link: u32, closed: bool) -> Result<(), Refusal>
        ensures answer { refusal_in result ≡ mark_refusal (state self.old) link }
        ensures after { state self.new ≡ marked_so (state self.old) link closed }
    {
        self.question.admit(Call::Change)?;
        if !self.network.is_laid(link) {
            return Err(Refusal::NoSuchLink);
        }
        self.closed.set(link as usize, closed);
        Ok(())
    }
}
