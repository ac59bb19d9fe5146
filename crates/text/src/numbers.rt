// Numbers as words write them.
ghost use Rattle.std.specs.Prelude.{◌≡◌, ◌≤◌, length, if◌then◌else◌, Some, None};
ghost use Rattle.text.specs.Numbers.{all_digits, value, number_of};

// The number that a word writes: 1 to 9 decimal digits, with no 0 in front of others; nothing for any other word.
#[tactic(auto, unfolding(crate::specs::Numbers::number_of))]
pub fn number(word: &[u8]) -> Option<u32>
    ensures { result ≡ number_of word.now }
{
    match word {
        [] | [b'0', _, ..] => None,
        _ if word.len() > 9 => None,
        _ => digits_value(word),
    }
}

// The number that at most 9 digits write; nothing where some byte is no digit.
fn digits_value(word: &[u8]) -> Option<u32>
    requires { length word.now ≤ 9 }
    ensures { result ≡ (if all_digits word.now then Some (value word.now) else None) }
{
    let mut n = 0;
    for byte in word {
        n = n * 10 + char::from(*byte).to_digit(10)?;
    }
    Some(n)
}
