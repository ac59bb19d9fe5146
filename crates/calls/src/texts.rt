// Costs as texts.
use measure::{Metres, Narrowest, Shown, TurnsFirst};
use std::{fmt, io};

// What fills a buffer before a text is written into it.
const MARK: u8 = 0xAA;

// Prints the text of each cost, its size, and how many bytes after it are as they were.
fn show_costs<M: Shown>(
    rt: &HostRuntime,
    name: &str,
    measure: &M,
    costs: &[M::Cost],
) -> io::Result<()>
where
    M::Cost: fmt::Display,
{
    for cost in costs {
        let mut buffer = [MARK; 40];
        let size = measure.show(*cost, &mut buffer);
        let (text, after) = buffer.split_at(size);
        let text = String::from_utf8_lossy(rt.alloc(), text)?;
        let left = after.iter().filter(|byte| **byte == MARK).count();
        println!(rt; "{name}, text of {cost}: {text}, {size} bytes, {left} left as they were")?;
    }
    Ok(())
}

// Prints texts of each measure.
pub(crate) fn show_texts(rt: &HostRuntime) -> io::Result<()> {
    let metres = [0, 5, 730, 1_000_000, 4_294_967_295];
    show_costs(rt, "metres", &Metres, &metres)?;
    let turns_first = [
        0,
        5,
        730,
        1_000_000,
        4_294_967_295,
        4_294_967_296,
        4_294_968_026,
        8_589_936_122,
        18_446_744_073_709_551_615,
    ];
    show_costs(rt, "turns-first", &TurnsFirst, &turns_first)?;
    show_costs(rt, "narrowest", &Narrowest, &[0, 5, 10, 255])
}
