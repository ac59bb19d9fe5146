// The calls of the three measures.
use measure::{Measure, Metres, Narrowest, TurnsFirst};
use network::{Link, Turn};
use std::{fmt, io};

// The classes of turns, for the letters S, L, R, U and X, spelled here again, so that the program tells what a number means.
const STRAIGHT: u8 = 0;

const LEFT: u8 = 1;

const RIGHT: u8 = 2;

const BACK: u8 = 3;

const BARRED: u8 = 4;

// What a cost goes on over: a link of a length and a tightness, or a turn of a class and an extra. A
// row does not name its numbers: it is a line of a table.
#[derive(Clone, Copy)]
enum Way {
    Street(u32, u8),
    Bend(u8, u32),
}

impl Way {
    // The cost after it.
    fn after<M: Measure>(self, measure: &M, cost: M::Cost) -> M::Cost {
        match self {
            Way::Street(length, tightness) => {
                let link = Link {
                    start: 1,
                    end: 2,
                    length,
                    tightness,
                };
                measure.over_link(cost, link)
            }
            Way::Bend(class, extra) => measure.over_turn(cost, class, extra),
        }
    }
}

// The letter of a class.
fn letter_of(class: u8) -> char {
    let turn = Turn {
        into: 1,
        out: 2,
        class,
        extra: 0,
    };
    char::from(turn.letter())
}

impl fmt::Display for Way {
    fn fmt<W: fmt::Write>(&self, f: &mut fmt::Formatter<W>) -> fmt::Result {
        match *self {
            Way::Street(length, tightness) => write!(f, "link {length} {tightness}"),
            Way::Bend(class, extra) => {
                let letter = letter_of(class);
                write!(f, "turn {letter} {extra}")
            }
        }
    }
}

// Metres: lengths and extras are added, whatever the tightness and the class, up to the stop.
const METRES: [(u32, Way); 17] = [
    (0, Way::Street(0, 2)),
    (0, Way::Street(1_000_000, 2)),
    (730, Way::Street(0, 255)),
    (730, Way::Street(1_000_000, 0)),
    (4_293_967_295, Way::Street(1_000_000, 2)),
    (4_293_967_296, Way::Street(1_000_000, 2)),
    (4_294_967_294, Way::Street(1, 2)),
    (4_294_967_295, Way::Street(0, 2)),
    (4_294_967_295, Way::Street(1, 2)),
    (0, Way::Bend(STRAIGHT, 0)),
    (0, Way::Bend(LEFT, 30)),
    (300, Way::Bend(RIGHT, 1_000_000)),
    (300, Way::Bend(BACK, 200)),
    (300, Way::Bend(BARRED, 50)),
    (4_294_967_294, Way::Bend(STRAIGHT, 1)),
    (4_294_967_295, Way::Bend(LEFT, 1)),
    (4_294_967_295, Way::Bend(BACK, 1_000_000)),
];

// Turns-first: left, right and back add a turn, straight on and barred none, up to the stop.
const TURNS_FIRST: [(u64, Way); 21] = [
    (0, Way::Street(0, 2)),
    (0, Way::Street(1_000_000, 2)),
    (4_294_967_295, Way::Street(1, 2)),
    (4_294_967_296, Way::Street(730, 255)),
    (18_446_744_073_709_551_614, Way::Street(1, 2)),
    (18_446_744_073_709_551_615, Way::Street(0, 2)),
    (18_446_744_073_709_551_615, Way::Street(1, 2)),
    (0, Way::Bend(STRAIGHT, 0)),
    (0, Way::Bend(LEFT, 0)),
    (0, Way::Bend(RIGHT, 0)),
    (0, Way::Bend(BACK, 0)),
    (0, Way::Bend(BARRED, 0)),
    (200, Way::Bend(STRAIGHT, 120)),
    (200, Way::Bend(LEFT, 120)),
    (200, Way::Bend(BARRED, 120)),
    (4_294_967_296, Way::Bend(RIGHT, 1_000_000)),
    (18_446_744_069_414_584_319, Way::Bend(BACK, 0)),
    (18_446_744_069_414_584_319, Way::Bend(BACK, 1)),
    (18_446_744_069_414_584_320, Way::Bend(STRAIGHT, 0)),
    (18_446_744_069_414_584_320, Way::Bend(LEFT, 0)),
    (18_446_744_073_709_551_615, Way::Bend(BARRED, 1)),
];

// Narrowest: the greater tightness is kept, whatever the lengths and the turns.
const NARROWEST: [(u8, Way); 15] = [
    (0, Way::Street(0, 0)),
    (0, Way::Street(1_000_000, 0)),
    (0, Way::Street(0, 5)),
    (0, Way::Street(350, 255)),
    (5, Way::Street(350, 0)),
    (5, Way::Street(350, 4)),
    (5, Way::Street(350, 5)),
    (5, Way::Street(350, 6)),
    (5, Way::Street(350, 255)),
    (255, Way::Street(1_000_000, 5)),
    (0, Way::Bend(STRAIGHT, 1_000_000)),
    (5, Way::Bend(LEFT, 120)),
    (5, Way::Bend(RIGHT, 0)),
    (5, Way::Bend(BARRED, 1)),
    (255, Way::Bend(BACK, 1_000_000)),
];

// Prints the start, and the cost after each way. A measure and its name stand side by side at three calls each: a struct
// for the two would be longer.
fn show_ways<M: Measure>(
    rt: &HostRuntime,
    name: &str,
    measure: &M,
    ways: &[(M::Cost, Way)],
) -> io::Result<()>
where
    M::Cost: fmt::Display,
{
    let start = measure.start();
    println!(rt; "{name}, start: {start}")?;
    for (cost, way) in ways {
        let after = way.after(measure, *cost);
        println!(rt; "{name}, {cost} over {way}: {after}")?;
    }
    Ok(())
}

// Prints of each two costs whether the first is cheaper.
fn show_order<M: Measure>(
    rt: &HostRuntime,
    name: &str,
    measure: &M,
    pairs: &[(M::Cost, M::Cost)],
) -> io::Result<()>
where
    M::Cost: fmt::Display,
{
    for (a, b) in pairs {
        let cheaper = measure.is_cheaper(*a, *b);
        println!(rt; "{name}, {a} cheaper than {b}: {cheaper}")?;
    }
    Ok(())
}

// Prints what the calls of each measure answer.
pub(crate) fn show_measures(rt: &HostRuntime) -> io::Result<()> {
    show_ways(rt, "metres", &Metres, &METRES)?;
    let metres = [(730, 730), (729, 730), (730, 729), (0, 4_294_967_295)];
    show_order(rt, "metres", &Metres, &metres)?;
    show_ways(rt, "turns-first", &TurnsFirst, &TURNS_FIRST)?;
    let turns_first = [
        (4_294_968_026, 4_294_968_026),
        (4_294_967_295, 4_294_967_296),
        (4_294_967_296, 4_294_967_295),
        (8_589_936_122, 4_294_968_026),
    ];
    show_order(rt, "turns-first", &TurnsFirst, &turns_first)?;
    show_ways(rt, "narrowest", &Narrowest, &NARROWEST)?;
    let narrowest = [(5, 5), (2, 5), (5, 2), (254, 255), (255, 255)];
    show_order(rt, "narrowest", &Narrowest, &narrowest)
}
