// Laying one link, at each edge of what is allowed.
use crate::cases::Town::Rings;
use crate::cases::{Case, show_cases};
use crate::records::link;
use std::io;

// Each cause alone, and what lies just inside it.
const EDGES: [Case; 24] = [
    Case("length 0", Rings(0, 1), link!(1, 2, 0, 3)),
    Case("length 1,000,000", Rings(0, 1), link!(1, 2, 1_000_000, 3)),
    Case("length 1,000,001", Rings(0, 1), link!(1, 2, 1_000_001, 3)),
    Case(
        "length 4,294,967,295",
        Rings(0, 1),
        link!(1, 2, 4_294_967_295, 3),
    ),
    Case("nodes 512 and 1", Rings(0, 1), link!(512, 1, 10, 3)),
    Case("nodes 1 and 512", Rings(0, 1), link!(1, 512, 10, 3)),
    Case("start 0", Rings(0, 1), link!(0, 2, 10, 3)),
    Case("start 513", Rings(0, 1), link!(513, 2, 10, 3)),
    Case("start 65,537", Rings(0, 1), link!(65_537, 2, 10, 3)),
    Case(
        "start 4,294,967,295",
        Rings(0, 1),
        link!(4_294_967_295, 2, 10, 3),
    ),
    Case("end 0", Rings(0, 1), link!(1, 0, 10, 3)),
    Case("end 513", Rings(0, 1), link!(1, 513, 10, 3)),
    Case("end 65,537", Rings(0, 1), link!(1, 65_537, 10, 3)),
    Case(
        "end 4,294,967,295",
        Rings(0, 1),
        link!(1, 4_294_967_295, 10, 3),
    ),
    Case("tightness 0", Rings(0, 1), link!(1, 2, 10, 0)),
    Case("tightness 255", Rings(0, 1), link!(1, 2, 10, 255)),
    Case("start equal to end", Rings(0, 1), link!(7, 7, 10, 3)),
    Case("start above the last", Rings(1, 5), link!(6, 1, 10, 3)),
    Case("start equal to the last", Rings(1, 5), link!(5, 1, 10, 3)),
    Case("start below the last", Rings(1, 5), link!(4, 9, 10, 3)),
    Case(
        "start far below the last",
        Rings(3, 512),
        link!(1, 9, 10, 3),
    ),
    Case("link 1,023", Rings(1022, 1), link!(1, 2, 10, 3)),
    Case("link 1,024", Rings(1023, 1), link!(1, 2, 10, 3)),
    Case("link 1,025", Rings(1024, 1), link!(1, 2, 10, 3)),
];

// Two causes or more at once: the earlier answers.
const TOGETHER: [Case; 8] = [
    Case("full and start 0", Rings(1024, 1), link!(0, 2, 10, 3)),
    Case("full and end 513", Rings(1024, 1), link!(1, 513, 10, 3)),
    Case("start 0, which falls", Rings(1, 5), link!(0, 2, 10, 3)),
    Case("end 513 and start falls", Rings(1, 5), link!(4, 513, 10, 3)),
    Case(
        "start falls and too long",
        Rings(1, 5),
        link!(4, 2, 1_000_001, 3),
    ),
    Case("end 0 and too long", Rings(1, 5), link!(5, 0, 1_000_001, 3)),
    Case(
        "full and too long",
        Rings(1024, 1),
        link!(1, 2, 1_000_001, 3),
    ),
    Case(
        "full, start 0, which falls, and too long",
        Rings(1024, 5),
        link!(0, 2, 4_294_967_295, 3),
    ),
];

// Lays each link of the tables.
pub(crate) fn show_links(rt: &HostRuntime) -> io::Result<()> {
    show_cases(rt, "link", &EDGES)?;
    show_cases(rt, "link", &TOGETHER)
}
