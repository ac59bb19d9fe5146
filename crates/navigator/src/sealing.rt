// Sealing: a draft is taken, and becomes a map.
ghost use Rattle.std.specs.Prelude.{◌≡◌};
ghost use Rattle.network.specs.Laid.{drafted};
ghost use Rattle.navigator.specs.State.{state, sealed};
ghost use Rattle.navigator.specs.Law.{Law};

use crate::map::Map;
use crate::question::Question;
use crate::town::Town;
use measure::Measure;
use network::{Draft, LinkSet};

// Seals a draft under a measure: every link is open, and there is no question. Whatever calls the map then gets, each question
// is served cheapest first and completely.
pub fn seal<M: Measure + Drop>(draft: Draft, measure: M) -> Map<M>
    ensures town { state result.town ≡ sealed (drafted draft) }
    ensures measure { result.measure ≡ measure }
    ensures law { Law (M.Measure.ranks result.measure) (state result.town) }
{
    Map {
        town: Town {
            network: draft.into_network(),
            closed: LinkSet::new(),
            question: Question::Shut,
        },
        measure,
    }
}
