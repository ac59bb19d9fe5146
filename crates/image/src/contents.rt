// What an image tells of its records: how many links and turn entries there are, and the bytes of all their records.
ghost use Rattle.std.specs.Prelude.{◌≡◌, ◌+◌, ◌*◌, length};

#[derive(Clone, Copy)]
pub(crate) struct Contents<'a> {
    pub(crate) links: usize,
    pub(crate) turns: usize,
    pub(crate) records: &'a [u8],
    ghost fits: { length records.now ≡ 9 * (links + turns) },
}
