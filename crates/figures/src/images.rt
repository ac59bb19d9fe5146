// Reading an image, and writing again what was read.
use crate::answers::{Counts, reading};
use measure::Metres;
use network::{Draft, Refusal};
use std::alloc::{AllocError, Global};
use std::io;

// The bytes of a full map's image.
const FULL: usize = 27_664;

// The image that a call writes into a buffer that has room for any.
fn written<F: FnOnce(&mut [u8]) -> Result<usize, Refusal>>(
    heap: Global,
    write: F,
) -> Result<Vec<u8>, AllocError>
    requires { F.IsAlwaysCallable write }
{
    let mut buffer = vec![in heap; 0u8; FULL]?;
    let size = write(buffer.as_mut_slice()).unwrap_or(0);
    buffer.truncate(size);
    Ok(buffer)
}

// The image of what a draft holds, sealed.
pub(crate) fn image_of(heap: Global, draft: Draft) -> Result<Vec<u8>, AllocError> {
    let map = navigator::seal(draft, Metres);
    written(heap, |buffer| navigator::write_image(&map, buffer))
}

// The image of what a draft holds so far.
pub(crate) fn image_so_far(heap: Global, draft: &Draft) -> Result<Vec<u8>, AllocError> {
    written(heap, |buffer| image::write_network(draft.network(), buffer))
}

// Whether a draft, sealed, has the bytes as its image.
pub(crate) fn writes(heap: Global, draft: Draft, bytes: &[u8]) -> Result<bool, AllocError> {
    let image = image_of(heap, draft)?;
    Ok(image.as_slice() == bytes)
}

// Reads bytes into a fresh draft, and prints the answer and, where they are read, what the draft holds.
pub(crate) fn show_reading(rt: &HostRuntime, name: &str, bytes: &[u8]) -> io::Result<()> {
    let mut draft = Draft::new();
    let result = image::read_image(&mut draft, bytes);
    let answer = reading(result);
    if result.is_err() {
        return println!(rt; "image, {name}: {answer}");
    }
    let counts = Counts::of(&draft);
    let again = if writes(rt.alloc(), draft, bytes)? {
        "written the same"
    } else {
        "written otherwise"
    };
    println!(rt; "image, {name}: {answer}, {counts}, {again}")
}
