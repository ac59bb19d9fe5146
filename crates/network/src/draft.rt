// A town while it is laid. Sealing takes the draft, so nothing is laid in a sealed map.
ghost use Rattle.std.specs.Prelude.{◌≡◌, length};
ghost use Rattle.network.specs.Plan.{empty};
ghost use Rattle.network.specs.Laid.{drafted};

use crate::network::Network;
use crate::starthints::StartHints;
use crate::turntable::TurnTable;
use arrayvec::ArrayVec;

#[derive(Drop)]
pub struct Draft {
    pub(crate) network: Network,
}

impl Draft {
    // A draft in which nothing is laid.
    pub fn new() -> Draft
        ensures { drafted result ≡ empty }
    {
        Draft {
            network: Network {
                links: ArrayVec::new(),
                turns: TurnTable::new(),
                starts: StartHints::new(),
            },
        }
    }

    // How many links are laid.
    pub fn link_count(&self) -> usize
        ensures { result ≡ length (drafted self.now).links }
    {
        self.network.links.len()
    }

    // How many turn entries are laid.
    pub fn turn_count(&self) -> usize
        ensures { result ≡ length (drafted self.now).turns }
    {
        self.network.turns.len()
    }

    // What is laid so far.
    pub fn network(&self) -> &Network
        ensures { result.now ≡ self.now.network }
    {
        &self.network
    }

    // The network that was laid; the draft is gone.
    pub fn into_network(self) -> Network
        ensures { result ≡ self.network }
    {
        let Draft { network } = self;
        network
    }
}
