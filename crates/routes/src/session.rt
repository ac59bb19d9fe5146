// A map, and what is lent to its questions.
use console::{Command, Reply, read_command};
use measure::Metres;
use navigator::Map;
use network::Refusal;
use std::alloc::{AllocError, Global};

// The places that a route takes in the book, and the routes that the book has room for.
const PLACES: usize = 1_024;

const ROUTES: usize = 16;

// The costs that the calls of a question are lent.
const COSTS: usize = 2_048;

// The map with the book and the cost table that its calls are lent, and how many routes the question was handed.
#[derive(Drop)]
pub(crate) struct Session {
    map: Map<Metres>,
    book: Vec<u16>,
    table: Vec<u32>,
    routes: usize,
}

impl Session {
    pub(crate) fn new(heap: Global, map: Map<Metres>) -> Result<Session, AllocError> {
        let book = vec![in heap; 0u16; PLACES * ROUTES]?;
        let table = vec![in heap; 0u32; COSTS]?;
        Ok(Session {
            map,
            book,
            table,
            routes: 0,
        })
    }

    // Makes the call that a line says, and gives its reply.
    pub(crate) fn reply(&mut self, line: &[u8]) -> Reply<u32> {
        self.call(line).unwrap_or_else(Reply::Refused)
    }

    fn call(&mut self, line: &[u8]) -> Result<Reply<u32>, Refusal> {
        match read_command(line)? {
            Command::Ask { from, to } => {
                self.map.ask(from, to)?;
                self.routes = 0;
            }
            Command::Next => return self.next_route(),
            Command::Trial { link } => {
                let cost = self.map.trial(link, self.table.as_mut_slice());
                return cost.map(Reply::Cost);
            }
            Command::End => self.map.end()?,
            Command::Close { link } => self.map.close(link)?,
            Command::Open { link } => self.map.open(link)?,
            Command::Turn {
                into,
                out,
                letter,
                extra,
            } => self.map.set_turn(into, out, letter, extra)?,
        }
        Ok(Reply::Done)
    }

    // The next route of the question, which the book then lists.
    fn next_route(&mut self) -> Result<Reply<u32>, Refusal> {
        let (cost, _, shared) = self
            .map
            .next(self.book.as_mut_slice(), self.table.as_mut_slice())?;
        self.routes = self.routes.saturating_add(1);
        Ok(Reply::Route {
            number: self.routes,
            cost,
            shared,
        })
    }

    // The links of the route that was handed out last: what its places in the book hold before the zeros.
    pub(crate) fn links(&self) -> &[u16] {
        let before = self.routes.saturating_sub(1);
        let places = self
            .book
            .as_slice()
            .chunks(PLACES)
            .nth(before)
            .unwrap_or(&[]);
        places.split(|link| *link == 0).next().unwrap_or(places)
    }
}
