// Lists of calls on one map.
use crate::images;
use crate::steps::Step;
use measure::Metres;
use network::Draft;
use std::io;

// Seals a draft and makes calls on it in order. Prints for each the answer, and how the image then differs from the
// image at sealing.
pub(crate) fn show_script(
    rt: &HostRuntime,
    name: &str,
    draft: Draft,
    steps: &[Step],
) -> io::Result<()> {
    let mut map = navigator::seal(draft, Metres);
    let sealed = images::image_of(rt.alloc(), &map)?;
    let size = sealed.len();
    println!(rt; "{name}: sealed, image of {size}")?;
    for step in steps {
        let answer = step.call(&mut map);
        let change = images::change(rt.alloc(), sealed.as_slice(), &map)?;
        println!(rt; "{name}: {step}: {answer}, {change}")?;
    }
    Ok(())
}
