// Marks with one link closed for a look, and the guard that puts its old mark back.
ghost use Rattle.std.specs.Prelude.{◌≡◌, true, false, ◌∷◌, slice_index_or};
ghost use Rattle.network.specs.Marks.{marks, marked};

use network::LinkSet;

// Closed marks that were copied out, a link, and the mark that it had.
#[derive(Drop)]
pub(crate) struct CopiedMarks {
    pub(crate) closed: LinkSet,
    pub(crate) link: usize,
    pub(crate) old: bool,
}

impl CopiedMarks {
    // Copies marks out, and closes a link in the copy.
    pub(crate) fn closing(closed: LinkSet, link: usize) -> CopiedMarks
        ensures closed { marks result.closed ≡ marked (marks closed) link true }
        ensures link { result.link ≡ link }
        ensures old { result.old ≡ slice_index_or (false ∷ marks closed) link false }
    {
        let old = closed.has(link);
        let mut copied = CopiedMarks { closed, link, old };
        copied.closed.add(link);
        copied
    }
}

// While it stands, the link is closed in the copy.
pub(crate) struct Guard<'a> {
    pub(crate) copied: &'a mut CopiedMarks,
}

impl Drop for Guard<'_> {
    // Puts the old mark of the link back.
    fn drop(self)
        ensures { marks self.exit.0.now.closed ≡ marked (marks self.entry.copied.now.closed) self.entry.copied.now.link self.entry.copied.now.old }
    {
        let CopiedMarks { link, old, .. } = *self.copied;
        self.copied.closed.set(link, old);
        let Guard { copied: _ } = self;
    }
}
