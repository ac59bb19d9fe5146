// Replies written as lines.
ghost use Rattle.std.specs.Prelude.{◌≡◌, length};
ghost use Rattle.text.specs.Put.{Put};
ghost use Rattle.console.specs.Replies.{reply_line, Writes};
ghost use Rattle.console.specs.Heads.{head, listed, whole};

use crate::reply::Reply;
use crate::writing::{end_of, put_cost, put_links, put_number};
use measure::Shown;
use network::Refusal;
use text::put_word;

// Writes the line of a reply to the front of a buffer, and answers how many bytes it has. The links are a route's.
pub fn write_reply<M: Shown>(
    measure: &M,
    reply: Reply<M::Cost>,
    links: &[u16],
    buffer: &mut [u8],
) -> Result<usize, Refusal>
    ensures { Writes (reply_line (λ cost. M.Shown.text (M.Measure.rank cost)) links.now reply)
        buffer.old result buffer.new }
{
    let mut front = [0; 160];
    let end = put_head(measure, reply, links.len(), &mut front);
    write_line(&front[..end], listed_in(reply, links), buffer)
}

// The links that a reply lists: those of a route, else none.
fn listed_in<C: Copy>(reply: Reply<C>, links: &[u16]) -> &[u16]
    ensures { result.now ≡ listed links.now reply }
{
    match reply {
        Reply::Route { .. } => links,
        _ => &[],
    }
}

// Writes what stands in a reply before the links, where there are so many of them, and says how long it is.
fn put_head<M: Shown>(measure: &M, reply: Reply<M::Cost>, links: usize, buffer: &mut [u8]) -> usize
    requires { length buffer.old ≡ 160 }
    ensures { Put (head (λ cost. M.Shown.text (M.Measure.rank cost)) links reply)
        buffer.old 0 buffer.new result }
{
    // A `usize` has no `From` into a `u64`, so counts are widened by `as`.
    match reply {
        Reply::Done => put_word(b"ok", buffer, 0),
        Reply::Refused(refusal) => put_number(b"refused ", u64::from(refusal.number()), buffer, 0),
        Reply::Cost(cost) => put_cost(b"cost ", measure, cost, buffer, 0),
        Reply::Route {
            number,
            cost,
            shared,
        } => {
            let at = put_number(b"route ", number as u64, buffer, 0);
            let at = put_cost(b" cost ", measure, cost, buffer, at);
            let at = put_number(b" links ", links as u64, buffer, at);
            let at = put_number(b" shared ", shared as u64, buffer, at);
            put_word(b" via", buffer, at)
        }
    }
}

// Writes a line to the front of a buffer: what stands before the links, the links each after a blank, a line feed.
fn write_line(front: &[u8], links: &[u16], buffer: &mut [u8]) -> Result<usize, Refusal>
    ensures { Writes (whole front.now links.now)
        buffer.old result buffer.new }
{
    if buffer.len() <= front.len() {
        return Err(Refusal::BufferTooShort);
    }
    end_of(links, front.len(), buffer.len() - 1).ok_or(Refusal::BufferTooShort)?;
    let at = put_word(front, buffer, 0);
    let end = put_links(links, buffer, at);
    Ok(put_word(b"\n", buffer, end))
}

#[cfg(test)]
mod tests {
    use super::*;
    use measure::{Metres, TurnsFirst};

    // A route of 730 metres, the first of a question.
    fn first_route() -> Reply<u32> {
        Reply::Route {
            number: 1,
            cost: 730,
            shared: 3,
        }
    }

    // Whether a reply under metres is written as a line, and the byte behind it left.
    fn is_written(reply: Reply<u32>, links: &[u16], line: &[u8]) -> bool {
        let mut buffer = [7; 64];
        write_reply(&Metres, reply, links, &mut buffer).is_ok_and(|size| size < 64
            && &buffer[..size] == line
            && buffer[size] == 7)
    }

    #[test]
    fn writes_short_replies(rt: HostRuntime) {
        assert!(rt; is_written(Reply::Done, &[], b"ok\n"));
        assert!(rt; is_written(Reply::Done, &[2, 4], b"ok\n"));
        assert!(rt; is_written(Reply::Refused(Refusal::QuestionOpen), &[], b"refused 11\n"));
        assert!(rt; is_written(Reply::Cost(770), &[], b"cost 770 m\n"));
    }

    #[test]
    fn writes_a_route(rt: HostRuntime) {
        assert!(rt;
            is_written(
                first_route(),
                &[2, 4, 3],
                b"route 1 cost 730 m links 3 shared 3 via 2 4 3\n",
            )
        );
        assert!(rt;
            is_written(
                first_route(),
                &[],
                b"route 1 cost 730 m links 0 shared 3 via\n",
            )
        );
    }

    #[test]
    fn takes_any_shown_measure(rt: HostRuntime) {
        let mut buffer = [0; 15];
        let answer = write_reply(&TurnsFirst, Reply::Cost(4_294_968_026), &[], &mut buffer);
        assert_eq!(rt; answer.map_err(Refusal::number), Ok(15));
        assert!(rt; &buffer == b"cost 1 t 730 m\n");
    }

    #[test]
    fn refuses_a_buffer_that_is_too_short(rt: HostRuntime) {
        let mut buffer = [7; 45];
        let answer = write_reply(&Metres, first_route(), &[2, 4, 3], &mut buffer);
        assert_eq!(rt; answer.map_err(Refusal::number), Err(19));
        assert!(rt; buffer == [7; 45]);
        let mut enough = [7; 46];
        let answer = write_reply(&Metres, first_route(), &[2, 4, 3], &mut enough);
        assert_eq!(rt; answer.map_err(Refusal::number), Ok(46));
    }
}
