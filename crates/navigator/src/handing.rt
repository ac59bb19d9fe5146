// Handing out the routes of the open question, cheapest first.
ghost use Rattle.std.specs.Prelude.{◌≡◌, length};
ghost use Rattle.navigator.specs.State.{state};
ghost use Rattle.navigator.specs.Answers.{handed};
ghost use Rattle.navigator.specs.Searches.{Next, TableAfter};

use crate::listing::{list_route, shared_with_first};
use crate::map::Map;
use crate::question::Question;
use measure::Measure;
use network::Refusal;
use routing::{Listing, Trip};
use unlisted::cheapest_unlisted;

impl<M: Measure + Drop> Map<M> {
    // Hands out a cheapest route of the question among those that its book does not list, and lists it there: its cost, how
    // many links it has, and how many of them route 1 has.
    pub fn next(
        &mut self,
        book: &mut [u16],
        table: &mut [M::Cost],
    ) -> Result<(M::Cost, usize, usize), Refusal>
        ensures call { Next (M.Measure.ranks self.old.measure) (state self.old.town) book.old (length table.old) (handed M.Measure.rank result) (state self.new.town) book.new }
        ensures table { TableAfter M.Measure.rank (M.Measure.ranks self.old.measure) (handed M.Measure.rank result) table.old table.new }
        ensures measure { self.new.measure ≡ self.old.measure }
    {
        let routes = self.town.check_next(book, table.len())?;
        let Listing {
            trip: Trip { from, to, .. },
            listed,
            ..
        } = routes.listing;
        let mut line = [0u16; 1024];
        let found = cheapest_unlisted(&self.measure, routes, table, &mut line).ok_or(
            Refusal::NoFurtherRoute,
        )?;
        list_route(book, listed, &line);
        let shared = shared_with_first(&line[..found.count], book);
        self.town.question = Question::Open {
            from,
            to,
            listed: listed + 1,
        };
        Ok((found.cost, found.count, shared))
    }
}
