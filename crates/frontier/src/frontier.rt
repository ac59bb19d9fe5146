// The links that wait to be settled, as a tournament: leaf 1023 + n holds link n while it waits, else 0, and each inner
// node k holds the cheaper of what its children 2k and 2k + 1 hold. The root, node 1, is a link with the least label. The
// nodes stand in the struct, since there is no heap, and 0 is no link in them, as in the places of a book: two bytes each,
// where an Option takes four.
ghost use Rattle.std.specs.Prelude.{◌≡◌, length};

#[derive(Clone, Copy)]
pub struct Frontier {
    pub(crate) nodes: [u16; 2048],
    ghost long: { length nodes ≡ 2048 },
}
