// The links and turn entries of a town, under the laws that they keep.
ghost use Rattle.std.specs.Prelude.{◌≤◌, length};
ghost use Rattle.network.specs.Plan.{LinksWithin, StartsRise, EntriesWithin, EntriesMeet, PairsApart};

use crate::link::Link;
use crate::starthints::StartHints;
use crate::turntable::TurnTable;
use arrayvec::ArrayVec;

#[derive(Drop)]
pub struct Network {
    pub(crate) links: ArrayVec<Link, 1024>,
    pub(crate) turns: TurnTable,
    pub(crate) starts: StartHints,
    ghost few: { length links.items ≤ 1024 },
    ghost sound: { LinksWithin links.items },
    ghost rising: { StartsRise links.items },
    ghost marked: { EntriesWithin turns.entries.items },
    ghost meeting: { EntriesMeet links.items turns.entries.items },
    ghost apart: { PairsApart turns.entries.items },
}
