// Lines read, and replies written.
use crate::session::Session;
use console::write_reply;
use measure::Metres;
use std::io;
use std::io::{BufRead, BufReader, BufWriter, Write};

// More than the reply of a route of 1,024 links has.
const LONGEST: usize = 8_192;

// Replies to each line of standard input. Replies wait only while another whole line is at hand, so that whoever types a
// line sees its reply; where reading fails, those that wait are handed on before the program ends.
pub(crate) fn talk_about(rt: &HostRuntime, mut session: Session) -> io::Result<()> {
    let mut input = BufReader::new(rt.alloc(), rt.stdin())?;
    let mut output = BufWriter::new(rt.alloc(), rt.stdout())?;
    let mut line = Vec::new(rt.alloc());
    for _ in 0..u64::MAX {
        if !input.buffer().contains(&b'\n') {
            output.flush()?;
        }
        line.clear();
        if input.read_until(b'\n', &mut line)? == 0 {
            break;
        }
        write_answer(&mut output, &mut session, line.as_slice())?;
    }
    output.flush()
}

// Writes the reply to one line, which may end with a line feed.
fn write_answer<W: Write>(output: &mut W, session: &mut Session, line: &[u8]) -> io::Result<()> {
    let reply = session.reply(line.strip_suffix(b"\n").unwrap_or(line));
    let mut text = [0; LONGEST];
    write_reply(&Metres, reply, session.links(), &mut text).map_or(
        Ok(()),
        |size| output.write_all(&text[..size]),
    )
}
