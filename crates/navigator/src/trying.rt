// Trying what the open question costs without a link.
ghost use Rattle.std.specs.Prelude.{◌≡◌, ◌≤◌, length};
ghost use Rattle.network.specs.Laid.{plan};
ghost use Rattle.network.specs.Marks.{marks, marked};
ghost use Rattle.routing.specs.Book.{Cleared};
ghost use Rattle.navigator.specs.State.{state};
ghost use Rattle.navigator.specs.Answers.{tried};
ghost use Rattle.navigator.specs.Searches.{Trial, TableAfter};
ghost use Rattle.navigator.specs.Tried.{LeastTold};

use crate::guard::{CopiedMarks, Guard};
use crate::map::Map;
use crate::question::Asked;
use measure::Measure;
use network::{Network, Refusal};
use routing::{Listing, Roads, Trip};
use unlisted::{ListedRoutes, cheapest_unlisted};

impl<M: Measure + Drop> Map<M> {
    // The least cost of a route of the question without the link, listed or not.
    pub fn trial(&mut self, link: u32, table: &mut [M::Cost]) -> Result<M::Cost, Refusal>
        ensures call { Trial (M.Measure.ranks self.old.measure) (state self.old.town) link (length table.old) (tried M.Measure.rank result) }
        ensures after { state self.new.town ≡ state self.old.town }
        ensures table { TableAfter M.Measure.rank (M.Measure.ranks self.old.measure) (tried M.Measure.rank result) table.old table.new }
        ensures measure { self.new.measure ≡ self.old.measure }
    {
        let asked = self.town.check_trial(link, table.len())?;
        let mut copied = CopiedMarks::closing(self.town.closed, link as usize);
        let least = least_guarded(&self.measure, &self.town.network, asked, &mut copied, table);
        self.town.closed = copied.closed;
        least
    }
}

// The least cost of a simple route of the question over the links that are open in the copy, while a guard keeps it so.
// A caller may lend a longer table, and the contract says what it holds after.
fn least_guarded<M: Measure>(
    measure: &M,
    network: &Network,
    asked: Asked,
    copied: &mut CopiedMarks,
    table: &mut [M::Cost],
) -> Result<M::Cost, Refusal>
    requires { 2048 ≤ length table.old }
    ensures told { LeastTold M.Measure.rank (M.Measure.ranks measure.now) (plan network.now) (marks copied.entry.now.closed) asked.from asked.to result }
    ensures back { marks copied.exit.now.closed ≡ marked (marks copied.entry.now.closed) copied.entry.now.link copied.entry.now.old }
    ensures table { Cleared M.Measure.rank (M.Measure.ranks measure.now) table.old table.new }
{
    let guard = Guard { copied };
    least_cost(measure, network, guard.copied, asked, table)
}

// The least cost of a simple route of the question over links that are not closed.
// A caller may lend a longer table, and the contract says what it holds after.
fn least_cost<'a, M: Measure>(
    measure: &M,
    network: &'a Network,
    copied: &'a CopiedMarks,
    asked: Asked,
    table: &mut [M::Cost],
) -> Result<M::Cost, Refusal>
    requires { 2048 ≤ length table.old }
    ensures told { LeastTold M.Measure.rank (M.Measure.ranks measure.now) (plan network.now) (marks copied.entry.now.closed) asked.from asked.to result }
    ensures table { Cleared M.Measure.rank (M.Measure.ranks measure.now) table.old table.new }
{
    let roads = Roads {
        network,
        closed: &copied.closed,
    };
    let trip = Trip {
        roads,
        from: asked.from,
        to: asked.to,
    };
    let routes = ListedRoutes {
        listing: Listing {
            trip,
            book: &[],
            listed: 0,
        },
    };
    let mut line = [0u16; 1024];
    let found = cheapest_unlisted(measure, routes, table, &mut line).ok_or(
        Refusal::NoFurtherRoute,
    )?;
    Ok(found.cost)
}
