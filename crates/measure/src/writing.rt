// Numbers and metres written into a lent buffer. The buffer and the place are handed on, as in `text`.
ghost use Rattle.std.specs.Prelude.{◌≡◌, ◌+◌, ◌≤◌, ◌++◌, length, drop, decimal};
ghost use Rattle.text.specs.Put.{Put};
ghost use Rattle.measure.specs.Texts.{metres_text};

use text::{put_decimal, put_word};

// Writes a number in decimal at the front of the buffer and leaves the rest, and says how many digits it has.
#[tactic(auto, using(crate::proofs::Decimals::length_long))]
pub fn write_decimal(n: u64, buffer: &mut [u8; 40]) -> usize
    ensures count { result ≡ length (decimal n) }
    ensures fits { result ≤ 20 }
    ensures bytes { buffer.new ≡ decimal n ++ drop result buffer.old }
{
    put_decimal(n, buffer, 0)
}

// Writes a number of metres at a place, and says where the text ends.
pub(crate) fn put_metres(n: u64, buffer: &mut [u8], at: usize) -> usize
    requires { at + length (metres_text n) ≤ length buffer.old }
    ensures { Put (metres_text n) buffer.old at buffer.new result }
{
    let end = put_decimal(n, buffer, at);
    put_word(b" m", buffer, end)
}
