// Books in which another hand wrote over the first route.
use crate::asking::show_towns;
use crate::equal::{SIXTEEN, ZERO_LENGTHS};
use crate::sample::SAMPLE;
use crate::shapes::THROUGH;
use crate::towns::Town;
use std::io;

// A beginning of the route that is written is a route too, and is not listed.
const PAST_THE_END: [Town; 4] = [
    Town {
        name: "sample, 1 3 6 5 written",
        questions: &[(1, 4)],
        written: Some(&[1, 3, 6, 5]),
        ..SAMPLE
    },
    Town {
        name: "sample, 2 4 3 6 5 written",
        questions: &[(1, 4)],
        written: Some(&[2, 4, 3, 6, 5]),
        ..SAMPLE
    },
    Town {
        name: "through the destination, 1 2 4 3 5 written",
        questions: &[(1, 2)],
        written: Some(&[1, 2, 4, 3, 5]),
        ..THROUGH
    },
    Town {
        name: "zero lengths, 2 6 4 written",
        questions: &[(1, 3)],
        written: Some(&[2, 6, 4]),
        ..ZERO_LENGTHS
    },
];

// The dearest route of sixteen; and lists of links that are no routes of the question.
const OTHERS: [Town; 3] = [
    Town {
        name: "sixteen, 2 4 6 8 written",
        questions: &[(1, 5)],
        written: Some(&[2, 4, 6, 8]),
        ..SIXTEEN
    },
    Town {
        name: "sample, 2 4 written",
        questions: &[(1, 4)],
        written: Some(&[2, 4]),
        ..SAMPLE
    },
    Town {
        name: "sample, 1 3 6 5 6 5 written",
        questions: &[(1, 4)],
        written: Some(&[1, 3, 6, 5, 6, 5]),
        ..SAMPLE
    },
];

// Asks towns for the routes beside the one that was written.
pub(crate) fn show_written(rt: &HostRuntime) -> io::Result<()> {
    show_towns(rt, &PAST_THE_END)?;
    show_towns(rt, &OTHERS)
}
