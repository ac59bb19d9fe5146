// The image of a map as a file.
use anyhow::{anyhow, ensure};
use image::read_image;
use measure::Metres;
use navigator::{seal, write_image};
use network::Draft;
use std::alloc::Global;
use std::fs;

const FILE: &str = "map.img";

// The size of the image of a full map: 1,024 links and 2,048 turn entries.
const LARGEST_IMAGE: usize = 27_664;

// The image of a draft, sealed under metres.
fn image_of(heap: Global, draft: Draft) -> anyhow::Result<Vec<u8>> {
    let map = seal(draft, Metres);
    let mut image = vec![in heap; 0u8; LARGEST_IMAGE]?;
    let size = write_image(&map, &mut image).map_err(|_| anyhow!(
        "the image is larger than that of a full map"
    ))?;
    image.truncate(size);
    Ok(image)
}

// Whether an image is read, and written again as the same bytes.
fn reads_back(heap: Global, image: &[u8]) -> anyhow::Result<bool> {
    let mut draft = Draft::new();
    Ok(read_image(&mut draft, image).is_ok() && image_of(heap, draft)?.as_slice() == image)
}

// Seals a draft, writes its image to the file, and reads the file back.
pub(crate) fn write_map(rt: &HostRuntime, draft: Draft) -> anyhow::Result<()> {
    let heap = rt.alloc();
    let image = image_of(heap, draft)?;
    fs::write(rt, FILE, image.as_slice()).map_err(|error| anyhow!("cannot write {FILE}: {error}"))?;
    let size = image.len();
    println!(rt; "wrote {size} bytes to {FILE}")?;
    let file = fs::read(rt, FILE)?;
    let same = file.as_slice() == image.as_slice() && reads_back(heap, file.as_slice())?;
    ensure!(same, "{FILE} does not read back the same");
    println!(rt; "{FILE} reads back the same")?;
    Ok(())
}
