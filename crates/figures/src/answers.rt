// What the calls answer, as it is printed.
ghost use Rattle.std.specs.Prelude.{◌≡◌, length};
ghost use Rattle.network.specs.Laid.{drafted};

use image::ReadFault;
use network::{Draft, Refusal};
use std::fmt;

// The answer of a call: what it did, or what it is refused for.
#[derive(Clone, Copy)]
pub struct Answer<T, E>(Result<T, E>);

impl<T: fmt::Display, E: fmt::Display> fmt::Display for Answer<T, E> {
    fn fmt<W: fmt::Write>(&self, f: &mut fmt::Formatter<W>) -> fmt::Result {
        match &self.0 {
            Ok(done) => write!(f, "{done}"),
            Err(cause) => write!(f, "refused {cause}"),
        }
    }
}

// How many bytes were written.
#[derive(Clone, Copy)]
pub struct Wrote(usize);

impl fmt::Display for Wrote {
    fn fmt<W: fmt::Write>(&self, f: &mut fmt::Formatter<W>) -> fmt::Result {
        let size = self.0;
        write!(f, "wrote {size}")
    }
}

// The answer of laying a link or a turn entry.
pub(crate) fn laying(answer: Result<(), Refusal>) -> Answer<&'static str, Refusal> {
    Answer(answer.map(|()| "laid"))
}

// The answer of reading an image.
pub(crate) fn reading(answer: Result<(), ReadFault>) -> Answer<&'static str, ReadFault> {
    Answer(answer.map(|()| "read"))
}

// The answer of writing an image.
pub(crate) fn writing(answer: Result<usize, Refusal>) -> Answer<Wrote, Refusal> {
    Answer(answer.map(Wrote))
}

// How many links and turn entries a draft holds.
#[derive(Clone, Copy)]
pub struct Counts {
    links: usize,
    turns: usize,
}

impl Counts {
    pub(crate) fn of(draft: &Draft) -> Counts
        ensures links { result.links ≡ length (drafted draft.now).links }
        ensures turns { result.turns ≡ length (drafted draft.now).turns }
    {
        Counts {
            links: draft.link_count(),
            turns: draft.turn_count(),
        }
    }
}

impl fmt::Display for Counts {
    fn fmt<W: fmt::Write>(&self, f: &mut fmt::Formatter<W>) -> fmt::Result {
        let Counts { links, turns } = *self;
        write!(f, "links {links} turns {turns}")
    }
}
