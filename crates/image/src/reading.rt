// Reading an image into a draft.
ghost use Rattle.std.specs.Prelude.{◌≡◌, ◌+◌, ◌≤◌, true, false, length, drop, MatchOption};
ghost use Rattle.network.specs.Laid.{drafted};
ghost use Rattle.network.specs.Plan.{empty};
ghost use Rattle.image.specs.Image.{link_in, turn_in, record_in, records_in, lay_all, contents_right, links_told, turns_told};
ghost use Rattle.image.specs.Steps.{Octets, reading_of};
ghost use Rattle.image.specs.Reads.{Reads};

use crate::contents::Contents;
use crate::entry::ContentsEntry;
use crate::fault::ReadFault;
use network::{Draft, Record};

// What an image tells of its records, where its length and its table of contents are right.
fn read_contents(bytes: &[u8]) -> Option<Contents>
    ensures { MatchOption result (contents_right bytes.now ≡ false)
        (λ c. (contents_right bytes.now ≡ true)
        × (c.links ≡ links_told bytes.now)
        × (c.turns ≡ turns_told bytes.now)
        × (c.records.now ≡ drop 16 bytes.now)
        × Octets bytes.now) }
{
    let (first, rest) = ContentsEntry::read(bytes)?;
    let (second, records) = ContentsEntry::read(rest)?;
    let links = usize::from(first.count);
    let turns = usize::from(second.count);
    // An `if`, since a Contents is made only where the lengths fit.
    if first == ContentsEntry::of_links(first.count)
        && second == ContentsEntry::of_turns(second.count, first.count)
        && records.len() == 9 * (links + turns)
    {
        Some(Contents {
            links,
            turns,
            records,
        })
    } else {
        None
    }
}

// The link in the first nine bytes, and the bytes after it. Links and turn entries are read by a pattern each, since
// their fields have other places and sizes; a rule of this project has the patterns name the rest too, so the bytes are a slice.
fn read_link(bytes: &[u8]) -> (Record, &[u8])
    requires { 9 ≤ length bytes.now }
    ensures { (result.0 ≡ link_in bytes.now) × (result.1.now ≡ drop 9 bytes.now) }
{
    let [s1, s0, e1, e0, l3, l2, l1, l0, tightness, rest @ ..] = bytes else {
        unreachable()
    };
    let record = Record::Link {
        start: u32::from(u16::from_be_bytes([*s1, *s0])),
        end: u32::from(u16::from_be_bytes([*e1, *e0])),
        length: u32::from_be_bytes([*l3, *l2, *l1, *l0]),
        tightness: *tightness,
    };
    (record, rest)
}

// The turn entry in the first nine bytes, and the bytes after it.
fn read_turn(bytes: &[u8]) -> (Record, &[u8])
    requires { 9 ≤ length bytes.now }
    ensures { (result.0 ≡ turn_in bytes.now) × (result.1.now ≡ drop 9 bytes.now) }
{
    let [i1, i0, o1, o0, letter, x3, x2, x1, x0, rest @ ..] = bytes else {
        unreachable()
    };
    let record = Record::Turn {
        into: u32::from(u16::from_be_bytes([*i1, *i0])),
        out: u32::from(u16::from_be_bytes([*o1, *o0])),
        letter: char::from(*letter),
        extra: u32::from_be_bytes([*x3, *x2, *x1, *x0]),
    };
    (record, rest)
}

// Record i, counted from 0, in the first nine bytes, and the bytes after it; the first records are those of links.
fn read_record(i: usize, links: usize, bytes: &[u8]) -> (Record, &[u8])
    requires { 9 ≤ length bytes.now }
    ensures { (result.0 ≡ record_in i links bytes.now) × (result.1.now ≡ drop 9 bytes.now) }
{
    if i < links {
        read_link(bytes)
    } else {
        read_turn(bytes)
    }
}

// A draft with the records laid in their order: the links, and then the turn entries.
fn lay_records(contents: Contents) -> Result<Draft, ReadFault>
    ensures { reading_of result
        ≡ lay_all 0 empty (records_in 0 contents.entry.links (contents.entry.links + contents.entry.turns)
        contents.entry.records.now) }
{
    let mut draft = Draft::new();
    let mut left = contents.records;
    for i in 0..contents.links + contents.turns {
        let (record, rest) = read_record(i, contents.links, left);
        draft.lay(record).or(Err(ReadFault::RecordNotLaid(i + 1)))?;
        left = rest;
    }
    Ok(draft)
}

// Reads an image, and replaces the draft by what it holds; an image that is refused leaves the draft.
pub fn read_image(draft: &mut Draft, bytes: &[u8]) -> Result<(), ReadFault>
    ensures { Reads bytes.now (drafted draft.old) result (drafted draft.new) }
{
    *draft = lay_records(read_contents(bytes).ok_or(ReadFault::ContentsWrong)?)?;
    Ok(())
}
