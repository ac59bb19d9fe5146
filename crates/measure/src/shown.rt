// Costs as texts.
ghost use Rattle.std.specs.Prelude.{◌≡◌, ℕ, ◌≤◌, List, ◌++◌, length, drop};

use crate::measures::Measure;

// A measure whose costs can be shown. The bytes of the text of a cost are told by its rank.
pub trait Shown: Measure {
    ghost text: { ℕ → List ℕ };

    // Writes the text of a cost at the front of the buffer and leaves the rest, and says how long the text is.
    fn show(&self, cost: Self::Cost, buffer: &mut [u8; 40]) -> usize
        ensures count { result ≡ length (text (Self.Measure.rank cost)) }
        ensures fits { result ≤ 40 }
        ensures bytes { buffer.new ≡ text (Self.Measure.rank cost) ++ drop result buffer.old };
}
