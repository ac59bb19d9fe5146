// The sample image cut, or lengthened by zeros.
use crate::sample;
use crate::tally::Tally;
use std::io;

// Reads the image at each length from one to another, and prints how they were answered.
fn show_span(rt: &HostRuntime, from: usize, to: usize) -> io::Result<()> {
    let mut tally = Tally::default();
    for length in from..=to {
        let mut bytes = Vec::from_slice(rt.alloc(), sample::IMAGE)?;
        bytes.resize(length, 0)?;
        tally.count(rt.alloc(), bytes.as_slice())?;
    }
    println!(rt; "lengths {from} to {to}: {tally}")
}

// Every length from 0 to 130: below the image, its own, and above it.
pub(crate) fn show_lengths(rt: &HostRuntime) -> io::Result<()> {
    show_span(rt, 0, 105)?;
    show_span(rt, 106, 106)?;
    show_span(rt, 107, 130)
}
