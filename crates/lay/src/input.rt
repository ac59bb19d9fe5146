// The text of a town, from a file that is named or from standard input.
use crate::stop::Stop;
use anyhow::anyhow;
use std::alloc::Global;
use std::fs::File;
use std::io::Read;
use std::{env, io};

// More than any town needs, comments included.
const MOST_BYTES: u64 = 1_048_576;

// All that an input gives, but no more than one byte above the limit.
fn read_some<R: Read + Drop>(input: R, heap: Global) -> io::Result<Vec<u8>> {
    let mut text = Vec::new(heap);
    input.take(MOST_BYTES + 1).read_to_end(&mut text)?;
    Ok(text)
}

// All that a file holds, up to the limit.
fn read_file(rt: &HostRuntime, path: &str) -> Result<Vec<u8>, Stop> {
    let file = File::open(rt, path).try_map_err(|error| -> Result<Stop, Stop> {
        let line = format!(in rt.alloc(); "cannot read {path}: {error}")?;
        Ok(Stop::Line(line))
    })?;
    Ok(read_some(file, rt.alloc())?)
}

pub(crate) fn read_town(rt: &HostRuntime) -> Result<Vec<u8>, Stop> {
    let text = match env::args(rt)?.nth(1) {
        Some(path) => read_file(rt, path.as_str())?,
        None => read_some(rt.stdin(), rt.alloc())?,
    };
    // A `usize` has no `From` into a `u64`, so the length is widened by `as`.
    if text.len() as u64 > MOST_BYTES {
        return Err(anyhow!("the town text is over 1,048,576 bytes").into());
    }
    Ok(text)
}
