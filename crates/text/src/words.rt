// Words of a line.
ghost use Rattle.std.specs.Prelude.{◌≡◌, ◌<◌, [], ◌∷◌, length, MatchOption};
ghost use Rattle.text.specs.Words.{blank, words};

// The first word of a line and what follows it; nothing where the line has only blanks.
pub fn first_word(line: &[u8]) -> Option<(&[u8], &[u8])>
    ensures { MatchOption result (words line.now ≡ [])
        (λ p. (words line.now ≡ p.0.now ∷ words p.1.now)
        × (length p.1.now < length line.now)
        × (0 < length p.0.now)) }
{
    let start = line.iter().position(|b| !is_blank(*b))?;
    let word = &line[start..];
    let end = word.iter().position(|b| is_blank(*b)).unwrap_or(word.len());
    Some(word.split_at(end))
}

// Whether a byte is a blank: a space, a tab or a carriage return.
fn is_blank(byte: u8) -> bool
    ensures { result ≡ blank byte }
{
    matches!(byte, b' ' | b'\t' | b'\r')
}
