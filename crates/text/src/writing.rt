// Words and numbers written into a lent buffer. The buffer and the place are handed on, and not held in a struct: each
// function would promise besides that the struct holds the same buffer still.
ghost use Rattle.std.specs.Prelude.{◌+◌, ◌≤◌, length, decimal};
ghost use Rattle.text.specs.Put.{Put};

// Writes a word at a place, and says where it ends.
pub fn put_word(word: &[u8], buffer: &mut [u8], at: usize) -> usize
    requires { at + length word.now ≤ length buffer.old }
    ensures { Put word.now buffer.old at buffer.new result }
{
    let end = at + word.len();
    buffer[at..end].copy_from_slice(word);
    end
}

// Writes a number in decimal at a place, and says where it ends.
pub fn put_decimal(n: u64, buffer: &mut [u8], at: usize) -> usize
    requires { at + length (decimal n) ≤ length buffer.old }
    ensures { Put (decimal n) buffer.old at buffer.new result }
{
    if n < 10 {
        return put_word(&[b'0' + n as u8], buffer, at);
    }
    let end = put_decimal(n / 10, buffer, at);
    put_word(&[b'0' + (n % 10) as u8], buffer, end)
}
