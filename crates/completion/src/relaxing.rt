// Going on from where a way stands to each link that may come next.
ghost use Rattle.std.specs.Prelude.{◌≡◌, ◌+◌, length};
ghost use Rattle.network.specs.Plan.{Laid, link};
ghost use Rattle.network.specs.Laid.{plan};
ghost use Rattle.completion.specs.Growth.{Relaxed, Latest};
ghost use Rattle.completion.specs.Onward.{setting, stop, ways};
ghost use Rattle.completion.specs.View.{state, IsReady, Grows, StandsAt, Tried};

use crate::onward::{cost_on, is_blocked, is_dear};
use crate::quest::{Quest, Stand};
use crate::search::Search;
use crate::tree::Step;
use frontier::LinkNumber;
use measure::Measure;

// What a way costs after it went on to a link, where it may and where no way to that link is known that costs no more.
fn tried<M: Measure>(
    quest: &Quest<'_, '_, M>,
    search: &Search<'_, M>,
    stand: Stand<M::Cost>,
    next: LinkNumber,
) -> Option<M::Cost>
    requires laid { Laid (plan quest.now.network.now).links next.number }
    requires starts { (link (plan quest.now.network.now).links next.number).start ≡ stop (setting M.Measure.rank quest.now) stand.number }
    requires stands { StandsAt M.Measure.rank quest.now search.now stand }
    ensures { Tried M.Measure.rank (ways M.Measure.ranks M.Measure.rank quest.now)
        (state M.Measure.rank quest.now search.now) stand.number next.number result }
{
    if is_blocked(quest, stand.number, next.number)
        || search.tree.settled.has(usize::from(next.number))
    {
        return None;
    }
    let cost = cost_on(
        quest.measure,
        quest.network,
        stand.after,
        stand.cost,
        next.number,
    )?;
    if is_dear(quest.measure, quest.bound, cost) {
        return None;
    }
    let known = search.tree.steps[next.place()].depth > 0;
    if known && !quest.measure.is_cheaper(cost, search.frontier.label(next)) {
        return None;
    }
    Some(cost)
}

// Goes on to a link, and labels it where that is a better way.
fn relax_one<M: Measure>(
    quest: &Quest<'_, '_, M>,
    search: &mut Search<'_, M>,
    stand: Stand<M::Cost>,
    next: LinkNumber,
)
    requires laid { Laid (plan quest.now.network.now).links next.number }
    requires starts { (link (plan quest.now.network.now).links next.number).start ≡ stop (setting M.Measure.rank quest.now) stand.number }
    requires stands { StandsAt M.Measure.rank quest.now search.old stand }
    requires ready { IsReady M.Measure.rank quest.now search.old }
    ensures relaxed { Relaxed (ways M.Measure.ranks M.Measure.rank quest.now) stand.number next.number
        (state M.Measure.rank quest.now search.old)
        (state M.Measure.rank quest.now search.new) }
    ensures ready { IsReady M.Measure.rank quest.now search.new }
    ensures settled { search.new.tree.settled ≡ search.old.tree.settled }
{
    if let Some(cost) = tried(quest, search, stand, next) {
        let step = Step {
            depth: stand.depth + 1,
            before: stand.number,
        };
        search.frontier.relabel(quest.measure, next, cost);
        search.tree.put(next, step);
    }
}

// Goes on to each link that may come next. The way stands at what was settled last, and nothing after it was looked at yet.
pub(crate) fn relax_from<M: Measure>(
    quest: &Quest<'_, '_, M>,
    search: &mut Search<'_, M>,
    stand: Stand<M::Cost>,
)
    requires stands { StandsAt M.Measure.rank quest.now search.old stand }
    requires growing { Grows M.Measure.ranks M.Measure.rank quest.now stand.number 1 search.old }
    requires late { Latest stand.number (state M.Measure.rank quest.now search.old) }
    ensures growing { Grows M.Measure.ranks M.Measure.rank quest.now stand.number (length (plan quest.now.network.now).links + 1) search.new }
    ensures settled { search.new.tree.settled ≡ search.old.tree.settled }
{
    let node = u32::from(stand.node);
    let first = quest.network.links_below(node);
    let end = quest.network.links_below(node + 1);
    // A link's number is what is sought, and a link in the list does not tell it.
    for place in first..end {
        relax_one(quest, search, stand, LinkNumber::at(place));
    }
}
