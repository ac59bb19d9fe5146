// Growing the ways onward from a beginning, the cheapest first.
ghost use Rattle.std.specs.Prelude.{◌≡◌, ℕ, ◌+◌, ◌≤◌, length};
ghost use Rattle.std.specs.Option.{option_map};
ghost use Rattle.network.specs.Laid.{plan};
ghost use Rattle.completion.specs.Growth.{Inv};
ghost use Rattle.completion.specs.Onward.{ways};
ghost use Rattle.completion.specs.View.{state, tally, Grows, Ends};

use crate::quest::{Quest, Stand};
use crate::relaxing::relax_from;
use crate::search::Search;
use frontier::LinkNumber;
use measure::Measure;

// Starts anew: labels the links that may come straight after the beginning.
fn set_out<M: Measure>(quest: &Quest<'_, '_, M>, search: &mut Search<'_, M>)
    ensures { Grows M.Measure.ranks M.Measure.rank quest.now 0 (length (plan quest.now.network.now).links + 1) search.new }
{
    search.clear();
    let stand = Stand {
        number: 0,
        after: quest.after,
        node: quest.node,
        cost: quest.cost,
        depth: 0,
    };
    relax_from(quest, search, stand);
}

// Labels links, the cheapest ways first, until one ends at the goal whose label is the least, and answers it; or until no
// labelled link is left: no range and no list tells beforehand which links the loop takes.
pub(crate) fn grow<M: Measure>(
    quest: &Quest<'_, '_, M>,
    search: &mut Search<'_, M>,
) -> Option<LinkNumber>
    ensures ends { Ends (ways M.Measure.ranks M.Measure.rank quest.now)
        (state M.Measure.rank quest.now search.new) (option_map (λ link. link.number) result) }
    ensures inv { (s : ℕ) × Inv (ways M.Measure.ranks M.Measure.rank quest.now) s
        (length (plan quest.now.network.now).links + 1) (tally search.new.tree)
        (state M.Measure.rank quest.now search.new) }
{
    set_out(quest, search);
    loop {
        let link = search.frontier.take_least(quest.measure)?;
        let at = link.place();
        let end = quest.network.links()[at].end;
        if end == quest.to {
            return Some(link);
        }
        search.tree.settle(link);
        let stand = Stand {
            number: link.number,
            after: link.number,
            node: end,
            cost: search.frontier.label(link),
            depth: search.tree.steps[at].depth,
        };
        relax_from(quest, search, stand);
    }
}
