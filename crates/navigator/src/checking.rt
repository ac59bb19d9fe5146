// The checks that next and trial make before they search.
ghost use Rattle.std.specs.Prelude.{◌≡◌, Some};
ghost use Rattle.network.specs.Refusals.{refusal_in};
ghost use Rattle.navigator.specs.State.{state};
ghost use Rattle.navigator.specs.Checks.{Checked};
ghost use Rattle.navigator.specs.Searches.{next_rows, trial_rows};
ghost use Rattle.navigator.specs.Opened.{Opened, OpenedIn};

use crate::question::{Asked, Call};
use crate::town::Town;
use network::Refusal;
use routing::{Listing, Trip};
use unlisted::ListedRoutes;

impl Town {
    // The open question with its listed routes, where next may search for a route of it.
    pub(crate) fn check_next<'a, 'b>(
        &'a self,
        book: &'b [u16],
        costs: usize,
    ) -> Result<ListedRoutes<'a, 'b>, Refusal>
        ensures { Checked (next_rows (state self.now) book.now costs) (λ n. refusal_in result ≡ Some n) (OpenedIn (state self.now) book.now result) }
    {
        self.question.admit(Call::Next)?;
        let asked = self.question.asked()?;
        if book.len() < 16384 || costs < 2048 {
            return Err(Refusal::LentTooShort);
        }
        if asked.listed >= 16 {
            return Err(Refusal::BookFull);
        }
        let trip = Trip {
            roads: self.roads(),
            from: asked.from,
            to: asked.to,
        };
        let listed = asked.listed;
        let listing = Listing { trip, book, listed };
        if !listing.is_legible() {
            return Err(Refusal::BookSpoilt);
        }
        Ok(ListedRoutes { listing })
    }

    // The open question, where trial may search without a link.
    pub(crate) fn check_trial(&self, link: u32, costs: usize) -> Result<Asked, Refusal>
        ensures { Checked (trial_rows (state self.now) link costs) (λ n. refusal_in result ≡ Some n) (Opened self.now.question result) }
    {
        self.question.admit(Call::Trial)?;
        let asked = self.question.asked()?;
        if costs < 2048 {
            return Err(Refusal::LentTooShort);
        }
        if !self.network.is_laid(link) {
            return Err(Refusal::NoSuchLink);
        }
        Ok(asked)
    }
}
