// What a draft holds before a call and after it.
use crate::answers::Counts;
use crate::images::image_so_far;
use network::Draft;
use std::alloc::{AllocError, Global};
use std::fmt;

// How much a draft holds, and its image. Each of the two functions that take it before a call and after it makes the call
// itself: for one that is handed the call as a closure, the closure's own proof stayed open at what it returns.
#[derive(Drop)]
pub struct Holding {
    counts: Counts,
    image: Vec<u8>,
}

impl Holding {
    pub(crate) fn of(heap: Global, draft: &Draft) -> Result<Holding, AllocError> {
        let counts = Counts::of(draft);
        let image = image_so_far(heap, draft)?;
        Ok(Holding { counts, image })
    }

    // Whether the image is another than that of an earlier time.
    pub(crate) fn change(&self, before: &Holding) -> &'static str {
        if self.image == before.image {
            "unchanged"
        } else {
            "changed"
        }
    }
}

impl fmt::Display for Holding {
    fn fmt<W: fmt::Write>(&self, f: &mut fmt::Formatter<W>) -> fmt::Result {
        self.counts.fmt(f)
    }
}
