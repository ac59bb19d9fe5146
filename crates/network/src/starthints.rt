// Where the links of each node are thought to begin. A hint is checked where it is used, so a wrong one costs time and no
// answer.
ghost use Rattle.std.specs.Prelude.{◌≡◌, ℕ, ◌<◌, ◌≤◌, length, replicate, if◌then◌else◌, nat_lt, slice_index};

// For each number from 0 to 513, how many links start below it.
#[derive(Drop)]
pub(crate) struct StartHints {
    pub(crate) below: [u16; 514],
    ghost long: { length below ≡ 514 },
}

impl StartHints {
    // Before any link is laid.
    pub(crate) fn new() -> StartHints
        ensures { result.below ≡ replicate 514 0 }
    {
        StartHints { below: [0; 514] }
    }

    // After a link that starts at a node was laid as the last of so many.
    pub(crate) fn note(&mut self, start: u16, count: u16)
        requires { start ≤ 512 }
        ensures { (n : ℕ) → n < 514 → slice_index self.new.below n ≡ (if nat_lt start n then count else slice_index self.old.below n) }
    {
        self.below[usize::from(start) + 1..].fill(count);
    }

    // How many links are thought to start below a node.
    pub(crate) fn below(&self, node: u32) -> usize
        ensures { result ≡ slice_index self.now.below node }
    {
        self.below
            .get(node as usize)
            .map_or(0, |count| usize::from(*count))
    }
}
