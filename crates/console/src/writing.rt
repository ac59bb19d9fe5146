// Words, numbers, costs and links written into a lent buffer. The buffer and the place are handed on, as in `text`.
ghost use Rattle.std.specs.Prelude.{◌≡◌, ◌+◌, ◌<◌, ◌≤◌, ◌++◌, length, decimal, MatchOption};
ghost use Rattle.std.specs.List.{flat_map};
ghost use Rattle.text.specs.Put.{Put};
ghost use Rattle.console.specs.Replies.{after_blank};

use measure::{Shown, write_decimal};
use text::{put_decimal, put_word};

// Writes a word and then a number in decimal at a place, and says where they end.
pub(crate) fn put_number(word: &[u8], n: u64, buffer: &mut [u8], at: usize) -> usize
    requires { at + (length word.now + length (decimal n)) ≤ length buffer.old }
    ensures { Put (word.now ++ decimal n) buffer.old at buffer.new result }
{
    let at = put_word(word, buffer, at);
    put_decimal(n, buffer, at)
}

// Writes a word and then the text of a cost at a place, and says where they end.
pub(crate) fn put_cost<M: Shown>(
    word: &[u8],
    measure: &M,
    cost: M::Cost,
    buffer: &mut [u8],
    at: usize,
) -> usize
    requires { at + (length word.now + 40) ≤ length buffer.old }
    ensures near { result ≤ at + (length word.now + 40) }
    ensures put { Put (word.now ++ M.Shown.text (M.Measure.rank cost)) buffer.old at buffer.new result }
{
    // a cost is shown in 40 bytes of its own, since no memory is allocated
    let mut text = [0; 40];
    let count = measure.show(cost, &mut text);
    let at = put_word(word, buffer, at);
    put_word(&text[..count], buffer, at)
}

// Where links end that are written from a place on, each after a blank, if they end at the limit or before it.
pub(crate) fn end_of(links: &[u16], from: usize, limit: usize) -> Option<usize>
    requires { (from ≤ limit) × (limit < 9223372036854775808) }
    ensures { MatchOption result (limit < from + length (flat_map after_blank links.now))
        (λ end. (end ≡ from + length (flat_map after_blank links.now)) × (end ≤ limit)) }
{
    // the digits are counted by writing them, and a link more may end past the limit, so the loop stops there
    let mut digits = [0; 40];
    let mut end = from;
    for link in links {
        end += 1 + write_decimal(u64::from(*link), &mut digits);
        if end > limit {
            return None;
        }
    }
    Some(end)
}

// Writes links from a place on, each after a blank, and says where they end.
pub(crate) fn put_links(links: &[u16], buffer: &mut [u8], from: usize) -> usize
    requires { from + length (flat_map after_blank links.now) ≤ length buffer.old }
    ensures { Put (flat_map after_blank links.now) buffer.old from buffer.new result }
{
    let mut at = from;
    for link in links {
        at = put_number(b" ", u64::from(*link), buffer, at);
    }
    at
}
