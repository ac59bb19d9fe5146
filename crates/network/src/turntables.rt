// What is done with the turn entries.
ghost use Rattle.std.specs.Prelude.{◌≡◌, ℕ, ◌<◌, ◌≤◌, true, false, [], ◌∷◌, ◌++◌, length, MatchOption, ◌==◌, slice_index_or};
ghost use Rattle.network.specs.Plan.{no_turn, same_pair};
ghost use Rattle.network.specs.Changing.{changed_at};

use crate::turn::Turn;
use crate::turntable::TurnTable;
use arrayvec::ArrayVec;

impl TurnTable {
    // A table with no entries.
    pub(crate) fn new() -> TurnTable
        ensures { result.entries.items ≡ [] }
    {
        TurnTable {
            entries: ArrayVec::new(),
            heads: [0; 1025],
            nexts: [0; 2049],
        }
    }

    // How many entries it holds.
    pub(crate) fn len(&self) -> usize
        ensures { result ≡ length self.now.entries.items }
    {
        self.entries.len()
    }

    // Whether no further entry fits.
    pub(crate) fn is_full(&self) -> bool
        ensures { result ≡ (length self.now.entries.items == 2048) }
    {
        self.entries.is_full()
    }

    // The entries in their order.
    pub(crate) fn as_slice(&self) -> &[Turn]
        ensures { result.now ≡ self.now.entries.items }
    {
        self.entries.as_slice()
    }

    // One entry more, after the others.
    pub(crate) fn push(&mut self, turn: Turn)
        requires { (length self.old.entries.items < 2048) × (turn.into ≤ 1024) }
        ensures { self.new.entries.items ≡ self.old.entries.items ++ (turn ∷ []) }
    {
        let number = self.entries.len() + 1;
        let into = usize::from(turn.into);
        self.nexts[number] = self.heads[into];
        self.heads[into] = number as u16;
        self.entries.push(turn);
    }

    // Gives the entry at a place another class and extra.
    pub(crate) fn change_at(&mut self, place: usize, class: u8, extra: u32)
        requires { place < length self.old.entries.items }
        ensures { self.new.entries.items ≡ changed_at self.old.entries.items place class extra }
    {
        self.entries[place].change(class, extra);
    }

    // A place that holds an entry of the pair.
    pub(crate) fn find(&self, into: u16, out: u16) -> Option<usize>
        requires { into ≤ 1024 }
        ensures { MatchOption result
            ((k : ℕ) → k < length self.now.entries.items → same_pair (slice_index_or self.now.entries.items k no_turn) into out ≡ false)
            (λ i. (i < length self.now.entries.items) × (same_pair (slice_index_or self.now.entries.items i no_turn) into out ≡ true)) }
    {
        // A loop: iter::successors would give the numbers, and need a test for the last, a find, and a step to the place.
        let mut number = usize::from(self.heads[usize::from(into)]);
        while number != 0 {
            let place = number - 1;
            if self.entries[place].out == out {
                return Some(place);
            }
            number = usize::from(self.nexts[number]);
        }
        None
    }
}
