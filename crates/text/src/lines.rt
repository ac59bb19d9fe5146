// Lines of a text.
ghost use Rattle.std.specs.Prelude.{◌≡◌, ◌<◌, [], ◌∷◌, length, MatchOption};
ghost use Rattle.text.specs.Lines.{lines};

use crate::cuts::cut_at;

// The first line of a text, without its line feed, and what follows that; nothing where the text is empty.
pub fn first_line(text: &[u8]) -> Option<(&[u8], &[u8])>
    ensures { MatchOption result (text.now ≡ [])
        (λ p. (lines text.now ≡ p.0.now ∷ lines p.1.now)
        × (length p.1.now < length text.now)) }
{
    if text.is_empty() {
        return None;
    }
    cut_at(text, b'\n').or(Some((text, &text[text.len()..])))
}
