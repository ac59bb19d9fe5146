// Going on by one link.
ghost use Rattle.std.specs.Prelude.{◌≡◌, ℕ, true, false, MatchOption};
ghost use Rattle.std.specs.Option.{option_map};
ghost use Rattle.network.specs.Plan.{Laid};
ghost use Rattle.network.specs.Laid.{plan};
ghost use Rattle.completion.specs.Onward.{setting, blocked, open_turn, turn_from, step_over, step_from, too_dear};

use crate::quest::Quest;
use measure::Measure;
use network::{Link, Network, Turn};

// The turn from a link into another. From 0 there is none: no link is 0, as in a step and in the places of a book, each of two
// bytes in fixed memory.
fn turn_after(network: &Network, before: u16, number: u16) -> Option<Turn>
    ensures { result ≡ turn_from (plan network.now).turns before number }
{
    (before != 0).then(|| network.turn_of(before, number))
}

// The cost after a turn, if there is one, and a link.
fn cost_over<M: Measure>(measure: &M, turn: Option<Turn>, cost: M::Cost, link: Link) -> M::Cost
    ensures { M.Measure.rank result ≡ step_over (M.Measure.ranks measure.now) (M.Measure.rank cost) turn link }
{
    let turned = turn.map_or(cost, |turn| measure.over_turn(cost, turn.class, turn.extra));
    measure.over_link(turned, link)
}

// The cost after the turn from a link into another and that link. From 0 there is no turn.
pub fn cost_after<M: Measure>(
    measure: &M,
    network: &Network,
    before: u16,
    cost: M::Cost,
    number: u16,
) -> M::Cost
    requires { Laid (plan network.now).links number }
    ensures { M.Measure.rank result ≡ step_from (M.Measure.ranks measure.now) (plan network.now) (M.Measure.rank cost) before number }
{
    let link = network.links()[usize::from(number) - 1];
    cost_over(measure, turn_after(network, before, number), cost, link)
}

// The same, unless the turn is barred.
pub(crate) fn cost_on<M: Measure>(
    measure: &M,
    network: &Network,
    before: u16,
    cost: M::Cost,
    number: u16,
) -> Option<M::Cost>
    requires { Laid (plan network.now).links number }
    ensures { MatchOption result (open_turn (plan network.now) before number ≡ false)
        (λ c. (open_turn (plan network.now) before number ≡ true)
        × (M.Measure.rank c ≡ step_from (M.Measure.ranks measure.now) (plan network.now) (M.Measure.rank cost) before number)) }
{
    let turn = turn_after(network, before, number);
    if turn.is_some_and(Turn::is_barred) {
        return None;
    }
    let link = network.links()[usize::from(number) - 1];
    Some(cost_over(measure, turn, cost, link))
}

// Whether a cost is not below the bound, where there is one.
pub fn is_dear<M: Measure>(measure: &M, bound: Option<M::Cost>, cost: M::Cost) -> bool
    ensures { result ≡ too_dear (option_map M.Measure.rank bound) (M.Measure.rank cost) }
{
    bound.is_some_and(|bound| !measure.is_cheaper(cost, bound))
}

// Whether a link may not come after another, or after the beginning. That is 0, which is no link, as in a step of two bytes.
pub(crate) fn is_blocked<M: Measure>(quest: &Quest<'_, '_, M>, source: u16, number: u16) -> bool
    ensures { result ≡ blocked (setting M.Measure.rank quest.now) source number }
{
    let number = usize::from(number);
    quest.banned.has(number) || source == 0 && quest.forbidden.has(number)
}
