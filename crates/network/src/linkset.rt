// A set of links, sixty-four to a word: link n is bit (n - 1) % 64, counted from the lowest, of word (n - 1) / 64. The sixteen words
// are a rule of this project: links that two routes share are counted over them, and nothing is on a heap.
ghost use Rattle.std.specs.Prelude.{◌≡◌, length};

#[derive(Clone, Copy)]
pub struct LinkSet {
    pub(crate) words: [u64; 16],
    ghost long: { length words ≡ 16 },
}
