// Questions under each measure, and what the routes that come cost.
use crate::towns::Town;
use measure::{Metres, Narrowest, Shown, TurnsFirst};
use navigator::{Map, seal};
use network::Refusal;
use std::alloc::{AllocError, Global};
use std::fmt::Write;
use std::io;

// More nexts than a book has room for.
const NEXTS: usize = 17;

// The places of a route in a book.
const PLACES: usize = 1_024;

// A sealed map and its measure, and what is lent to the nexts of its questions.
#[derive(Drop)]
struct Asked<M: Shown + Drop> {
    heap: Global,
    measure: M,
    map: Map<M>,
    book: Vec<u16>,
    table: Vec<M::Cost>,
}

impl<M: Shown + Copy> Asked<M> {
    // The next route of the open question.
    fn next(&mut self) -> Result<(M::Cost, usize, usize), Refusal> {
        self.map
            .next(self.book.as_mut_slice(), self.table.as_mut_slice())
    }

    // The text of a cost.
    fn text_of(&self, cost: M::Cost) -> Result<String, AllocError> {
        let mut buffer = [0; 40];
        let size = self.measure.show(cost, &mut buffer);
        String::from_utf8_lossy(self.heap, &buffer[..size])
    }

    // Takes the routes of the open question, and gives their costs in the order in which they come; then `none`, and how
    // many links the routes have together, where none is left, and the refusal's number where next refuses for another
    // cause.
    fn costs(&mut self) -> Result<String, AllocError> {
        let mut costs = String::new(self.heap);
        let mut all = 0usize;
        for _ in 0..NEXTS {
            match self.next() {
                Ok((cost, links, _)) => {
                    all = all.saturating_add(links);
                    let text = self.text_of(cost)?;
                    write!(costs, "{text}, ")?;
                }
                Err(Refusal::NoFurtherRoute) => {
                    write!(costs, "none, links in all: {all}")?;
                    break;
                }
                Err(refusal) => {
                    write!(costs, "refused {refusal}")?;
                    break;
                }
            }
        }
        Ok(costs)
    }

    // Takes the first route of the open question, and writes links over it in the book.
    fn write_over(&mut self, links: &[u16]) {
        let _ = self.next();
        let mut links = links.iter();
        for place in self.book.iter_mut().take(PLACES) {
            *place = links.next().copied().unwrap_or(0);
        }
    }

    // Asks a question, and gives the costs of its routes, beside one that is written where there is one.
    fn answer(
        &mut self,
        from: u32,
        to: u32,
        written: Option<&[u16]>,
    ) -> Result<String, AllocError> {
        let _ = self.map.ask(from, to);
        if let Some(links) = written {
            self.write_over(links);
        }
        let costs = self.costs()?;
        let _ = self.map.end();
        Ok(costs)
    }
}

// Seals a town under a measure, makes its changes, and prints a line for each of its questions.
fn show_under<M: Shown + Copy>(
    rt: &HostRuntime,
    town: Town,
    word: &str,
    measure: M,
) -> io::Result<()>
where
    M::Cost: Clone,
{
    let name = town.name;
    let heap = rt.alloc();
    // Made here, since each function that hands on a map, of 44 KB, takes as much stack.
    let mut asked = Asked {
        heap,
        measure,
        map: seal(town.draft(), measure),
        book: vec![in heap; 0u16; 16_384]?,
        table: vec![in heap; measure.start(); 2_048]?,
    };
    town.change(&mut asked.map);
    for &(from, to) in town.questions {
        let costs = asked.answer(from, to, town.written)?;
        println!(rt; "{name}, {from} to {to}, {word}: {costs}")?;
    }
    Ok(())
}

// Prints what the routes of each question of some towns cost, under each measure.
pub(crate) fn show_towns(rt: &HostRuntime, towns: &[Town]) -> io::Result<()> {
    for town in towns {
        show_under(rt, *town, "metres", Metres)?;
        show_under(rt, *town, "turns-first", TurnsFirst)?;
        show_under(rt, *town, "narrowest", Narrowest)?;
    }
    Ok(())
}
