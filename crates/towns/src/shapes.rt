// Towns whose routes come to a node more than once, and towns with several links between two nodes.
use crate::asking::show_towns;
use crate::towns::Town;
use std::io;

const PARALLEL: Town = Town {
    name: "parallel links",
    links: &[
        (1, 2, 100, 1),
        (1, 2, 100, 2),
        (1, 2, 70, 9),
        (2, 3, 50, 3),
        (2, 3, 60, 1),
        (2, 3, 50, 4),
    ],
    turns: &[(1, 4, 'L', 0), (3, 6, 'X', 0), (2, 5, 'R', 40)],
    questions: &[(1, 3), (1, 2), (3, 1)],
    ..Town::EMPTY
};

const LOOPS: Town = Town {
    name: "loops",
    links: &[
        (1, 1, 10, 1),
        (1, 1, 20, 7),
        (1, 2, 100, 2),
        (2, 2, 5, 4),
        (2, 2, 0, 0),
    ],
    turns: &[(1, 2, 'U', 3), (4, 5, 'X', 0)],
    questions: &[(1, 2), (1, 1), (2, 2), (2, 1)],
    ..Town::EMPTY
};

// Routes go on through their destination and come back to it.
pub(crate) const THROUGH: Town = Town {
    name: "through the destination",
    links: &[
        (1, 2, 100, 2),
        (2, 3, 10, 3),
        (2, 4, 20, 1),
        (3, 2, 10, 5),
        (4, 2, 30, 0),
    ],
    turns: &[
        (1, 2, 'R', 5),
        (4, 2, 'X', 0),
        (4, 3, 'L', 7),
        (5, 2, 'U', 0),
        (5, 3, 'X', 0),
    ],
    questions: &[(1, 2), (1, 3), (2, 2), (3, 4)],
    ..Town::EMPTY
};

const ROUND_TRIPS: Town = Town {
    name: "round trips",
    links: &[
        (1, 2, 40, 3),
        (1, 3, 60, 2),
        (2, 1, 50, 1),
        (2, 3, 10, 6),
        (3, 1, 30, 4),
    ],
    turns: &[(3, 1, 'U', 100), (3, 2, 'L', 15), (5, 1, 'S', 8)],
    questions: &[(1, 1), (2, 2), (3, 3)],
    ..Town::EMPTY
};

// A two-way street of three blocks.
const TURN_BACKS: Town = Town {
    name: "turn-backs",
    links: &[
        (1, 2, 100, 2),
        (2, 1, 100, 2),
        (2, 3, 80, 3),
        (3, 2, 80, 3),
        (3, 4, 60, 1),
        (4, 3, 60, 1),
    ],
    turns: &[
        (1, 2, 'U', 250),
        (3, 4, 'X', 0),
        (5, 6, 'U', 90),
        (6, 5, 'U', 90),
        (4, 3, 'X', 0),
        (2, 1, 'U', 5),
    ],
    questions: &[(1, 4), (1, 1), (4, 4), (2, 3), (1, 3)],
    ..Town::EMPTY
};

// Asks each of these towns.
pub(crate) fn show_shapes(rt: &HostRuntime) -> io::Result<()> {
    show_towns(rt, &[PARALLEL, LOOPS, THROUGH, ROUND_TRIPS, TURN_BACKS])
}
