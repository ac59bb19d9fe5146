// Laying one turn entry, at each edge of what is allowed.
use crate::cases::{Case, Town, show_cases};
use crate::records::turn;
use std::io;

// Pairs that are not laid, apart, taken or free.
const PAIRS: [Case; 14] = [
    Case("link in 0", Town::Crossing, turn!(0, 3, 'S', 0)),
    Case("link out 0", Town::Crossing, turn!(1, 0, 'S', 0)),
    Case("link in 4", Town::Crossing, turn!(4, 3, 'S', 0)),
    Case("link out 4", Town::Crossing, turn!(1, 4, 'S', 0)),
    Case("link in 65,537", Town::Crossing, turn!(65_537, 3, 'S', 0)),
    Case("link out 65,539", Town::Crossing, turn!(1, 65_539, 'S', 0)),
    Case(
        "link in 4,294,967,295",
        Town::Crossing,
        turn!(4_294_967_295, 3, 'S', 0),
    ),
    Case(
        "link out 4,294,967,295",
        Town::Crossing,
        turn!(1, 4_294_967_295, 'S', 0),
    ),
    Case("links 2 and 1 apart", Town::Crossing, turn!(2, 1, 'S', 0)),
    Case(
        "link 1 and itself apart",
        Town::Crossing,
        turn!(1, 1, 'S', 0),
    ),
    Case("pair taken", Town::Crossing, turn!(1, 2, 'L', 5)),
    Case("pair free", Town::Crossing, turn!(1, 3, 'S', 0)),
    Case(
        "pair taken the other way round",
        Town::Turns(2),
        turn!(2, 1, 'S', 0),
    ),
    Case("link 2 into itself", Town::Turns(2), turn!(2, 2, 'S', 0)),
];

// Letters, extras and the number of entries.
const EDGES: [Case; 19] = [
    Case("letter S", Town::Crossing, turn!(1, 3, 'S', 7)),
    Case("letter L", Town::Crossing, turn!(1, 3, 'L', 7)),
    Case("letter R", Town::Crossing, turn!(1, 3, 'R', 7)),
    Case("letter U", Town::Crossing, turn!(1, 3, 'U', 7)),
    Case("letter X", Town::Crossing, turn!(1, 3, 'X', 7)),
    Case("letter Q", Town::Crossing, turn!(1, 3, 'Q', 7)),
    Case("letter s", Town::Crossing, turn!(1, 3, 's', 7)),
    Case("letter blank", Town::Crossing, turn!(1, 3, ' ', 7)),
    Case("letter zero", Town::Crossing, turn!(1, 3, '\0', 7)),
    Case("letter é", Town::Crossing, turn!(1, 3, 'é', 7)),
    Case("letter œ", Town::Crossing, turn!(1, 3, 'œ', 7)),
    Case("extra 0", Town::Crossing, turn!(1, 3, 'L', 0)),
    Case(
        "extra 1,000,000",
        Town::Crossing,
        turn!(1, 3, 'L', 1_000_000),
    ),
    Case(
        "extra 1,000,001",
        Town::Crossing,
        turn!(1, 3, 'L', 1_000_001),
    ),
    Case(
        "extra 4,294,967,295",
        Town::Crossing,
        turn!(1, 3, 'L', 4_294_967_295),
    ),
    Case(
        "barred, extra 1,000,001",
        Town::Crossing,
        turn!(1, 3, 'X', 1_000_001),
    ),
    Case("entry 2,047", Town::Turns(2046), turn!(32, 63, 'S', 0)),
    Case("entry 2,048", Town::Turns(2047), turn!(32, 64, 'S', 0)),
    Case("entry 2,049", Town::Turns(2048), turn!(33, 1, 'S', 0)),
];

// Two causes or more at once: the earlier answers.
const TOGETHER: [Case; 11] = [
    Case(
        "link out 4 and no link after link 2",
        Town::Crossing,
        turn!(2, 4, 'S', 0),
    ),
    Case("apart and letter Q", Town::Crossing, turn!(2, 1, 'Q', 0)),
    Case(
        "apart and extra 1,000,001",
        Town::Crossing,
        turn!(2, 1, 'S', 1_000_001),
    ),
    Case("taken and letter Q", Town::Crossing, turn!(1, 2, 'Q', 0)),
    Case(
        "letter Q and extra 1,000,001",
        Town::Crossing,
        turn!(1, 3, 'Q', 1_000_001),
    ),
    Case(
        "extra 1,000,001 and full",
        Town::Turns(2048),
        turn!(33, 1, 'S', 1_000_001),
    ),
    Case(
        "link in 66 and full",
        Town::Turns(2048),
        turn!(66, 1, 'S', 0),
    ),
    Case("apart and full", Town::Turns(2048), turn!(65, 1, 'S', 0)),
    Case("taken and full", Town::Turns(2048), turn!(1, 1, 'S', 0)),
    Case("letter Q and full", Town::Turns(2048), turn!(33, 1, 'Q', 0)),
    Case(
        "link in 0, letter Q, extra and full",
        Town::Turns(2048),
        turn!(0, 1, 'Q', 4_294_967_295),
    ),
];

// Lays each entry of the tables.
pub(crate) fn show_turns(rt: &HostRuntime) -> io::Result<()> {
    show_cases(rt, "turn", &PAIRS)?;
    show_cases(rt, "turn", &EDGES)?;
    show_cases(rt, "turn", &TOGETHER)
}
