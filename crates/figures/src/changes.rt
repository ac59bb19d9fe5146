// The sample image with some bytes changed.
use crate::tally::Tally;
use crate::{images, sample};
use std::alloc::{AllocError, Global};
use std::io;
use std::ops::Range;

// A place in the image, and the byte that is put there. Neither it nor a case names its parts: a case is a line or two of a
// table, and would be five and more.
#[derive(Clone, Copy)]
struct Edit(usize, u8);

// The sample image with edits.
#[derive(Clone, Copy)]
struct ImageCase(&'static str, &'static [Edit]);

// Records that are bad one at a time: first, in the middle and last.
const RECORDS: [ImageCase; 18] = [
    ImageCase("start of link 1 is 0", &[Edit(17, 0)]),
    ImageCase("start of link 3 is 0", &[Edit(35, 0)]),
    ImageCase("start of link 6 is 0", &[Edit(62, 0)]),
    ImageCase("letter of turn 1 is Q", &[Edit(74, b'Q')]),
    ImageCase("letter of turn 2 is Q", &[Edit(83, b'Q')]),
    ImageCase("letter of turn 4 is Q", &[Edit(101, b'Q')]),
    ImageCase("letter of turn 1 is r", &[Edit(74, b'r')]),
    ImageCase("letter of turn 1 is the byte E9", &[Edit(74, 0xE9)]),
    ImageCase("start of link 6 is 2", &[Edit(62, 2)]),
    ImageCase("end of link 2 is 513", &[Edit(27, 2), Edit(28, 1)]),
    ImageCase("end of link 6 is 512", &[Edit(63, 2), Edit(64, 0)]),
    ImageCase(
        "length of link 4 is 1,000,001",
        &[Edit(48, 0x0F), Edit(49, 0x42), Edit(50, 0x41)],
    ),
    ImageCase(
        "length of link 4 is 1,000,000",
        &[Edit(48, 0x0F), Edit(49, 0x42), Edit(50, 0x40)],
    ),
    ImageCase(
        "extra of turn 3 is 1,000,001",
        &[Edit(94, 0x0F), Edit(95, 0x42), Edit(96, 0x41)],
    ),
    ImageCase(
        "extra of turn 3 is 1,000,000",
        &[Edit(94, 0x0F), Edit(95, 0x42), Edit(96, 0x40)],
    ),
    ImageCase(
        "turn 4 has the pair of turn 1",
        &[Edit(98, 2), Edit(100, 5)],
    ),
    ImageCase("turn 1 is from link 7", &[Edit(71, 7)]),
    ImageCase(
        "turn 1 is from link 65,535",
        &[Edit(70, 0xFF), Edit(71, 0xFF)],
    ),
];

// Two bad records, of which the first is told, and contents that tell other counts.
const TOGETHER: [ImageCase; 8] = [
    ImageCase("link 3 and turn 1 are bad", &[Edit(35, 0), Edit(74, b'Q')]),
    ImageCase("turns 2 and 4 are bad", &[Edit(83, b'Q'), Edit(101, b'Q')]),
    ImageCase(
        "link 1 is bad and a kind is wrong",
        &[Edit(17, 0), Edit(8, 0x4C)],
    ),
    ImageCase("kinds exchanged", &[Edit(0, 0x54), Edit(8, 0x4C)]),
    ImageCase(
        "7 links and 3 turns told",
        &[Edit(3, 7), Edit(11, 3), Edit(15, 79)],
    ),
    ImageCase(
        "5 links and 5 turns told",
        &[Edit(3, 5), Edit(11, 5), Edit(15, 61)],
    ),
    ImageCase(
        "10 links and no turns told",
        &[Edit(3, 10), Edit(11, 0), Edit(15, 106)],
    ),
    ImageCase(
        "no links and 10 turns told",
        &[Edit(3, 0), Edit(11, 10), Edit(15, 16)],
    ),
];

// The sample image with the edits made.
fn edited(heap: Global, edits: &[Edit]) -> Result<Vec<u8>, AllocError> {
    let mut bytes = Vec::from_slice(heap, sample::IMAGE)?;
    for &Edit(place, value) in edits {
        if let Some(byte) = bytes.get_mut(place) {
            *byte = value;
        }
    }
    Ok(bytes)
}

// Raises each byte of the table of contents, from 255 to 0, and prints each answer.
fn show_contents(rt: &HostRuntime) -> io::Result<()> {
    for (place, byte) in sample::IMAGE.iter().take(16).enumerate() {
        let bytes = edited(rt.alloc(), &[Edit(place, byte.wrapping_add(1))])?;
        let name = format!(in rt.alloc(); "contents byte {place} raised")?;
        images::show_reading(rt, name.as_str(), bytes.as_slice())?;
    }
    Ok(())
}

// Raises each byte of the image in turn, and prints how the images were answered.
fn show_raised(rt: &HostRuntime) -> io::Result<()> {
    let mut tally = Tally::default();
    for (place, byte) in sample::IMAGE.iter().enumerate() {
        let bytes = edited(rt.alloc(), &[Edit(place, byte.wrapping_add(1))])?;
        tally.count(rt.alloc(), bytes.as_slice())?;
    }
    println!(rt; "each byte raised in turn: {tally}")
}

// Counts how the image is answered with each value in turn at a place.
fn count_values(heap: Global, place: usize, tally: &mut Tally) -> Result<(), AllocError> {
    for value in 0..=255u8 {
        let bytes = edited(heap, &[Edit(place, value)])?;
        tally.count(heap, bytes.as_slice())?;
    }
    Ok(())
}

// Sets the byte at each of the places to each value, and prints how the images were answered.
fn show_values(rt: &HostRuntime, name: &str, places: Range<usize>) -> io::Result<()> {
    let mut tally = Tally::default();
    for place in places {
        count_values(rt.alloc(), place, &mut tally)?;
    }
    println!(rt; "each value at each byte of {name}: {tally}")
}

fn show_cases(rt: &HostRuntime, cases: &[ImageCase]) -> io::Result<()> {
    for &ImageCase(name, edits) in cases {
        let bytes = edited(rt.alloc(), edits)?;
        images::show_reading(rt, name, bytes.as_slice())?;
    }
    Ok(())
}

// Reads each changed image.
pub(crate) fn show_changes(rt: &HostRuntime) -> io::Result<()> {
    show_contents(rt)?;
    show_raised(rt)?;
    show_values(rt, "the contents", 0..16)?;
    show_values(rt, "the links", 16..70)?;
    show_values(rt, "the turns", 70..106)?;
    show_cases(rt, &RECORDS)?;
    show_cases(rt, &TOGETHER)
}
