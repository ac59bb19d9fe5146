// The file of the map.
use std::fs::File;
use std::io;
use std::io::Read;

const FILE: &str = "map.img";

const MOST_BYTES: u64 = 65_536;

// What the file holds, but no more than one byte above the limit.
fn read_file(rt: &HostRuntime) -> io::Result<Vec<u8>> {
    let mut image = Vec::new(rt.alloc());
    File::open(rt, FILE)?
        .take(MOST_BYTES + 1)
        .read_to_end(&mut image)?;
    Ok(image)
}

// What the file holds. A file that is missing, cannot be read or has over 65,536 bytes counts as no bytes.
pub(crate) fn read_map(rt: &HostRuntime) -> Vec<u8> {
    // A `usize` has no `From` into a `u64`, so the length is widened by `as`.
    match read_file(rt) {
        Ok(image) if image.len() as u64 <= MOST_BYTES => image,
        _ => Vec::new(rt.alloc()),
    }
}
