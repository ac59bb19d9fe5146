// The image of a sealed map, and how it differs from an earlier one.
use measure::Metres;
use navigator::Map;
use std::alloc::{AllocError, Global};

// The bytes of a full map's image.
const FULL: usize = 27_664;

// The image of a map. `figures` has the like of it: a crate for the two would be longer than both.
pub(crate) fn image_of(heap: Global, map: &Map<Metres>) -> Result<Vec<u8>, AllocError> {
    let mut buffer = vec![in heap; 0u8; FULL]?;
    let size = navigator::write_image(map, buffer.as_mut_slice()).unwrap_or(0);
    buffer.truncate(size);
    Ok(buffer)
}

// The places, as far as both images go, that hold different bytes.
fn places_changed(heap: Global, before: &[u8], after: &[u8]) -> Result<Vec<usize>, AllocError> {
    before
        .iter()
        .zip(after)
        .enumerate()
        .filter(|(_, (old, new))| **old != **new)
        .map(|(place, _)| place)
        .collect(heap)
}

// How the image of a map differs from one that was written before: its size, the places changed, and the bytes added.
pub(crate) fn change(heap: Global, before: &[u8], map: &Map<Metres>) -> Result<String, AllocError> {
    let image = image_of(heap, map)?;
    let after = image.as_slice();
    if after == before {
        return String::from_str(heap, "same image");
    }
    let size = after.len();
    let places = places_changed(heap, before, after)?;
    let added = after
        .iter()
        .skip(before.len())
        .copied()
        .collect::<Vec<u8>>(heap)?;
    format!(in heap; "image of {size}, changed at {places:?}, added {added:?}")
}
