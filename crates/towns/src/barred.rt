// Towns where turns are barred, links are closed or nodes lie apart.
use crate::asking::show_towns;
use crate::towns::Town;
use std::io;

// Straight on from 1 over 2 to 3 is barred: routes go around a block and come to node 2 again.
const DETOUR: Town = Town {
    name: "detour",
    links: &[
        (1, 2, 50, 1),
        (2, 3, 50, 1),
        (2, 4, 30, 2),
        (4, 5, 30, 5),
        (5, 2, 30, 2),
        (5, 3, 500, 0),
    ],
    turns: &[(1, 2, 'X', 0), (5, 2, 'R', 10), (1, 3, 'L', 5)],
    questions: &[(1, 3), (1, 2), (2, 3), (2, 2)],
    ..Town::EMPTY
};

// One bar is lifted and two are set.
const CHANGED: Town = Town {
    name: "detour, turns changed",
    changed: &[
        (1, 2, 'S', 7),
        (4, 6, 'X', 0),
        (5, 2, 'X', 10),
        (3, 4, 'R', 2),
    ],
    ..DETOUR
};

// The only way on is barred.
const SHUT_OFF: Town = Town {
    name: "detour, no way on",
    closed: &[6],
    changed: &[(5, 2, 'X', 10)],
    ..DETOUR
};

const APART: Town = Town {
    name: "apart",
    links: &[(1, 2, 10, 1), (2, 1, 10, 1), (3, 4, 10, 1), (4, 3, 0, 2)],
    questions: &[(1, 3), (1, 4), (3, 1), (1, 2), (3, 3), (5, 6), (1, 512)],
    ..Town::EMPTY
};

const BRIDGE: Town = Town {
    name: "bridge closed",
    links: &[
        (1, 2, 10, 1),
        (1, 2, 20, 2),
        (2, 3, 30, 3),
        (3, 4, 5, 4),
        (3, 4, 5, 0),
    ],
    closed: &[3],
    questions: &[(1, 4), (1, 2), (2, 3), (3, 4)],
    ..Town::EMPTY
};

// Four nodes, each with a link to each other.
const CROWDED: Town = Town {
    name: "crowded",
    links: &[
        (1, 2, 13, 4),
        (1, 3, 29, 2),
        (1, 4, 71, 8),
        (2, 1, 17, 3),
        (2, 3, 11, 6),
        (2, 4, 43, 5),
        (3, 1, 23, 1),
        (3, 2, 19, 7),
        (3, 4, 31, 2),
        (4, 1, 37, 3),
        (4, 2, 41, 9),
        (4, 3, 7, 1),
    ],
    turns: &[
        (1, 4, 'X', 0),
        (5, 8, 'U', 50),
        (5, 9, 'L', 25),
        (2, 9, 'X', 0),
        (9, 12, 'X', 0),
        (12, 9, 'U', 3),
        (6, 11, 'X', 0),
        (1, 6, 'R', 9),
        (8, 6, 'R', 2),
    ],
    closed: &[10],
    changed: &[(2, 8, 'R', 14)],
    questions: &[(1, 4), (2, 2), (4, 1)],
    ..Town::EMPTY
};

// Asks each of these towns.
pub(crate) fn show_barred(rt: &HostRuntime) -> io::Result<()> {
    show_towns(rt, &[DETOUR, CHANGED, SHUT_OFF, APART, BRIDGE, CROWDED])
}
