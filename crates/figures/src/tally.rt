// How many images are read, and how many are refused by which number.
use crate::images;
use image::ReadFault;
use network::Draft;
use std::alloc::{AllocError, Global};
use std::fmt;

#[derive(Clone, Copy, Default)]
pub struct Tally {
    read: u32,
    contents: u32,
    records: u32,
    same: u32,
}

impl Tally {
    // Counts the answer for an image, and whether what is read is written the same.
    pub(crate) fn count(&mut self, heap: Global, bytes: &[u8]) -> Result<(), AllocError> {
        let mut draft = Draft::new();
        match image::read_image(&mut draft, bytes) {
            Ok(()) => {
                self.read = self.read.saturating_add(1);
                let same = images::writes(heap, draft, bytes)?;
                self.same = self.same.saturating_add(u32::from(same));
            }
            Err(ReadFault::ContentsWrong) => self.contents = self.contents.saturating_add(1),
            Err(ReadFault::RecordNotLaid(_)) => self.records = self.records.saturating_add(1),
        }
        Ok(())
    }
}

impl fmt::Display for Tally {
    fn fmt<W: fmt::Write>(&self, f: &mut fmt::Formatter<W>) -> fmt::Result {
        let Tally {
            read,
            contents,
            records,
            same,
        } = *self;
        write!(
            f,
            "{read} read, {same} written the same, {contents} refused 17, {records} refused 18"
        )
    }
}
