// The turn entries, and an index of them by their link in.
ghost use Rattle.std.specs.Prelude.{◌≡◌, ◌≤◌, length};
ghost use Rattle.network.specs.Index.{HeadsWithin, HeadsHave, HeadsLast, NextsWithin, NextsHave, NextsLast};

use crate::turn::Turn;
use arrayvec::ArrayVec;

#[derive(Drop)]
pub(crate) struct TurnTable {
    pub(crate) entries: ArrayVec<Turn, 2048>,
    // Two arrays of entry numbers, since entries are handed out as a slice in their order and nothing is on a heap. Numbers count
    // from 1, two bytes each, and 0 is no entry.
    pub(crate) heads: [u16; 1025],
    pub(crate) nexts: [u16; 2049],
    ghost headed: { length heads ≡ 1025 },
    ghost chained: { length nexts ≡ 2049 },
    ghost few: { length entries.items ≤ 2048 },
    ghost head: { HeadsWithin entries.items heads },
    ghost held: { HeadsHave entries.items heads },
    ghost latest: { HeadsLast entries.items heads },
    ghost back: { NextsWithin entries.items nexts },
    ghost kept: { NextsHave entries.items nexts },
    ghost between: { NextsLast entries.items nexts },
}
