// An entry of an image's table of contents.
ghost use Rattle.std.specs.Prelude.{◌≡◌, ◌+◌, ◌*◌, ◌<◌, length, MatchOption};
ghost use Rattle.image.specs.Steps.{of_links, of_turns, entry_bytes, EntryIn};

// The kind is a byte as it was read: an enum would need a third member for all other bytes.
#[derive(Clone, Copy, PartialEq, Eq)]
pub(crate) struct ContentsEntry {
    pub(crate) kind: u8,
    pub(crate) zero: u8,
    pub(crate) count: u16,
    pub(crate) place: u32,
}

impl ContentsEntry {
    // The entry of so many links, whose records stand behind the table of contents.
    pub(crate) fn of_links(count: u16) -> ContentsEntry
        ensures { result ≡ of_links count }
    {
        ContentsEntry {
            kind: b'L',
            zero: 0,
            count,
            place: 16,
        }
    }

    // The entry of so many turn entries, whose records stand behind those of so many links.
    pub(crate) fn of_turns(count: u16, links: u16) -> ContentsEntry
        ensures { result ≡ of_turns count links }
    {
        ContentsEntry {
            kind: b'T',
            zero: 0,
            count,
            place: 16 + 9 * u32::from(links),
        }
    }

    // The entry in the first eight bytes, and the bytes after it.
    pub(crate) fn read(bytes: &[u8]) -> Option<(ContentsEntry, &[u8])>
        ensures { MatchOption result (length bytes.now < 8) (λ p. EntryIn bytes.now p.0 p.1.now) }
    {
        let [kind, zero, c1, c0, p3, p2, p1, p0, rest @ ..] = bytes else {
            return None;
        };
        let entry = ContentsEntry {
            kind: *kind,
            zero: *zero,
            count: u16::from_be_bytes([*c1, *c0]),
            place: u32::from_be_bytes([*p3, *p2, *p1, *p0]),
        };
        Some((entry, rest))
    }

    // The eight bytes of the entry.
    pub(crate) fn to_bytes(self) -> [u8; 8]
        ensures { result ≡ entry_bytes self }
    {
        let [c1, c0] = self.count.to_be_bytes();
        let [p3, p2, p1, p0] = self.place.to_be_bytes();
        [self.kind, self.zero, c1, c0, p3, p2, p1, p0]
    }
}
