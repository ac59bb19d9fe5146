// A draft that holds something when an image is read into it.
use crate::answers::{Counts, laying, reading};
use crate::holding::Holding;
use crate::records::{link, turn};
use crate::sample;
use network::{Draft, Record};
use std::io;

// A draft, and where what happens to it is printed.
#[derive(Drop)]
struct Held<'a> {
    rt: &'a HostRuntime,
    draft: Draft,
}

impl Held<'_> {
    // Reads an image into the draft, and prints the answer and what the draft holds before and after.
    fn read(&mut self, name: &str, bytes: &[u8]) -> io::Result<()> {
        let before = Holding::of(self.rt.alloc(), &self.draft)?;
        let answer = reading(image::read_image(&mut self.draft, bytes));
        let after = Holding::of(self.rt.alloc(), &self.draft)?;
        let change = after.change(&before);
        println!(self.rt; "held, {name}: {answer}, {before} then {after}, {change}")
    }

    // Lays a record, and prints the answer and what the draft then holds.
    fn lay(&mut self, name: &str, record: Record) -> io::Result<()> {
        let answer = laying(self.draft.lay(record));
        let counts = Counts::of(&self.draft);
        println!(self.rt; "held, {name}: {answer}, {counts}")
    }
}

// Two links and an entry are held. A refused image leaves them, and an accepted one takes their place.
pub(crate) fn show_held(rt: &HostRuntime) -> io::Result<()> {
    let draft = Draft::new();
    let mut held = Held { rt, draft };
    held.lay("link from 2", link!(2, 2, 10, 3))?;
    held.lay("link from 9", link!(9, 2, 10, 3))?;
    held.lay("turn from 1 into 1", turn!(1, 1, 'S', 0))?;
    let mut bad = *sample::IMAGE;
    held.read("one byte short", &bad[0..105])?;
    bad[101] = b'Q';
    held.read("last letter Q", &bad)?;
    held.lay("link from 8", link!(8, 2, 10, 3))?;
    held.lay("link from 9", link!(9, 2, 10, 3))?;
    held.lay("turn from 1 into 1", turn!(1, 1, 'S', 0))?;
    held.read("sample", sample::IMAGE)?;
    held.lay("link from 3", link!(3, 2, 10, 3))?;
    held.lay("link from 4", link!(4, 2, 10, 3))?;
    held.lay("turn from 6 into 5", turn!(6, 5, 'S', 0))?;
    held.lay("turn from 3 into 7", turn!(3, 7, 'S', 0))?;
    held.read("last letter Q", &bad)?;
    held.read("empty", sample::EMPTY)?;
    held.lay("link from 1", link!(1, 2, 10, 3))
}
