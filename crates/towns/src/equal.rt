// Towns with equally dear routes, with sixteen routes and with more, and with the greatest lengths.
use crate::asking::show_towns;
use crate::towns::Town;
use std::io;

pub(crate) const ZERO_LENGTHS: Town = Town {
    name: "zero lengths",
    links: &[
        (1, 2, 0, 0),
        (1, 3, 0, 0),
        (2, 1, 0, 0),
        (2, 3, 0, 0),
        (3, 1, 0, 0),
        (3, 2, 0, 0),
    ],
    turns: &[
        (1, 3, 'X', 0),
        (2, 6, 'L', 0),
        (5, 2, 'U', 1),
        (3, 2, 'X', 1_000_000),
    ],
    questions: &[(1, 3), (1, 1), (2, 3)],
    ..Town::EMPTY
};

// Three by three nodes, a street to the right and one down from each.
const TIES: Town = Town {
    name: "ties",
    links: &[
        (1, 2, 100, 5),
        (1, 4, 100, 5),
        (2, 3, 100, 5),
        (2, 5, 100, 5),
        (3, 6, 100, 5),
        (4, 5, 100, 5),
        (4, 7, 100, 5),
        (5, 6, 100, 5),
        (5, 8, 100, 6),
        (6, 9, 100, 5),
        (7, 8, 100, 5),
        (8, 9, 100, 5),
    ],
    turns: &[
        (1, 4, 'R', 0),
        (2, 6, 'L', 0),
        (4, 8, 'L', 0),
        (6, 9, 'R', 0),
    ],
    questions: &[(1, 9), (1, 5), (4, 6), (9, 1)],
    ..Town::EMPTY
};

// Four blocks of two lanes.
pub(crate) const SIXTEEN: Town = Town {
    name: "sixteen",
    links: &[
        (1, 2, 10, 1),
        (1, 2, 11, 2),
        (2, 3, 20, 3),
        (2, 3, 22, 4),
        (3, 4, 40, 5),
        (3, 4, 44, 6),
        (4, 5, 80, 7),
        (4, 5, 88, 8),
    ],
    questions: &[(1, 5), (1, 4), (2, 5)],
    ..Town::EMPTY
};

// Three blocks of three lanes, and changing lanes is a turn.
const TWENTY_SEVEN: Town = Town {
    name: "twenty-seven",
    links: &[
        (1, 2, 100, 9),
        (1, 2, 101, 8),
        (1, 2, 102, 7),
        (2, 3, 200, 6),
        (2, 3, 203, 5),
        (2, 3, 206, 4),
        (3, 4, 300, 3),
        (3, 4, 309, 2),
        (3, 4, 318, 1),
    ],
    turns: &[
        (1, 5, 'R', 20),
        (1, 6, 'R', 20),
        (2, 4, 'L', 20),
        (2, 6, 'R', 20),
        (3, 4, 'L', 20),
        (3, 5, 'L', 20),
    ],
    questions: &[(1, 4), (1, 3)],
    ..Town::EMPTY
};

const GREATEST: Town = Town {
    name: "greatest",
    links: &[
        (1, 512, 1_000_000, 255),
        (1, 512, 0, 0),
        (512, 1, 1_000_000, 255),
        (512, 512, 1_000_000, 254),
    ],
    turns: &[
        (1, 4, 'R', 1_000_000),
        (4, 3, 'U', 1_000_000),
        (1, 3, 'X', 1_000_000),
    ],
    questions: &[(1, 512), (1, 1), (512, 512), (512, 1)],
    ..Town::EMPTY
};

// Asks each of these towns.
pub(crate) fn show_equal(rt: &HostRuntime) -> io::Result<()> {
    show_towns(rt, &[ZERO_LENGTHS, TIES, SIXTEEN, TWENTY_SEVEN, GREATEST])
}
