// The calls of a map, one after another.
ghost use Rattle.std.specs.Prelude.{[], ◌∷◌, length};
ghost use Rattle.network.specs.Refusals.{refusal_in};
ghost use Rattle.navigator.specs.State.{state};
ghost use Rattle.navigator.specs.Answers.{verdict, tried, handed};
ghost use Rattle.navigator.specs.Runs.{Event, Run};

use crate::map::Map;
use measure::Measure;
use network::Refusal;

// What the seven calls told.
#[derive(Drop)]
pub struct SevenAnswers<C: Copy> {
    pub ask: Result<(), Refusal>,
    pub next: Result<(C, usize, usize), Refusal>,
    pub trial: Result<C, Refusal>,
    pub end: Result<(), Refusal>,
    pub close: Result<(), Refusal>,
    pub open: Result<(), Refusal>,
    pub set_turn: Result<(), Refusal>,
}

// Each of the seven calls once: what they promise makes a run, as the law speaks of it.
pub fn each_call_once<M: Measure + Drop>(
    map: &mut Map<M>,
    from: u32,
    to: u32,
    link: u32,
    letter: char,
    extra: u32,
    book: &mut [u16],
    table: &mut [M::Cost],
) -> SevenAnswers<M::Cost>
    ensures { Run (M.Measure.ranks map.old.measure) (state map.old.town)
        (Event.set_turn link link letter extra (verdict (refusal_in result.set_turn))
        ∷ Event.open link (verdict (refusal_in result.«open»))
        ∷ Event.close link (verdict (refusal_in result.close))
        ∷ Event.end (verdict (refusal_in result.end))
        ∷ Event.trial link (length table.old) (tried M.Measure.rank result.trial)
        ∷ Event.next book.old (length table.old) book.new (handed M.Measure.rank result.next)
        ∷ Event.ask from to (verdict (refusal_in result.ask))
        ∷ [])
        (state map.new.town) }
{
    SevenAnswers {
        ask: map.ask(from, to),
        next: map.next(book, table),
        trial: map.trial(link, table),
        end: map.end(),
        close: map.close(link),
        open: map.open(link),
        set_turn: map.set_turn(link, link, letter, extra),
    }
}
