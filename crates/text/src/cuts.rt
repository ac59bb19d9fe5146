// A text cut at a byte.
ghost use Rattle.std.specs.Prelude.{◌≡◌, Some, None, MatchOption};
ghost use Rattle.text.specs.Cuts.{cut_at};

// What stands before the first such byte of a text, and what stands after it; nothing where the text has none.
pub fn cut_at(text: &[u8], byte: u8) -> Option<(&[u8], &[u8])>
    ensures { MatchOption result (cut_at byte text.now ≡ None)
        (λ p. cut_at byte text.now ≡ Some (p.0.now, p.1.now)) }
{
    let i = text.iter().position(|b| *b == byte)?;
    Some((&text[..i], &text[i + 1..]))
}
