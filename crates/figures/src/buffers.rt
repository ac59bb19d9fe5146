// Writing images into buffers of several sizes.
use crate::answers::writing;
use crate::{images, sample};
use measure::Metres;
use network::Draft;
use std::io;

// What fills a buffer before it is written into. The sample and the empty image have no such byte.
const MARK: u8 = 0xAA;

// Whether the bytes begin as an image is listed.
fn begins(bytes: &[u8], image: &[u8]) -> &'static str {
    if bytes.starts_with(image) {
        "as listed"
    } else {
        "not as listed"
    }
}

// Seals a draft, writes its image into a marked buffer of a size, and prints the answer and what the buffer holds.
pub(crate) fn show_buffer(
    rt: &HostRuntime,
    draft: Draft,
    size: usize,
    image: &[u8],
) -> io::Result<()> {
    let map = navigator::seal(draft, Metres);
    let mut buffer = vec![in rt.alloc(); MARK; size]?;
    let answer = writing(navigator::write_image(&map, buffer.as_mut_slice()));
    let front = begins(buffer.as_slice(), image);
    let left = buffer.iter().filter(|byte| **byte == MARK).count();
    println!(rt; "buffer of {size}: {answer}, front {front}, {left} left as they were")
}

// Writes the image of a draft into a buffer of each of the sizes.
fn show_sizes<F: Fn() -> Draft>(
    rt: &HostRuntime,
    draft: F,
    image: &[u8],
    sizes: &[usize],
) -> io::Result<()>
    requires { F.IsAlwaysCallable draft }
{
    for size in sizes {
        show_buffer(rt, draft(), *size, image)?;
    }
    Ok(())
}

// Writes the sample and the empty image, and reads them back.
pub(crate) fn show_buffers(rt: &HostRuntime) -> io::Result<()> {
    let sizes = [0, 15, 16, 105, 106, 107, 120];
    show_sizes(rt, sample::draft, sample::IMAGE, &sizes)?;
    show_sizes(rt, Draft::new, sample::EMPTY, &[0, 15, 16, 17])?;
    show_buffer(rt, sample::recorded(), 106, sample::IMAGE)?;
    images::show_reading(rt, "sample", sample::IMAGE)?;
    images::show_reading(rt, "empty", sample::EMPTY)
}
