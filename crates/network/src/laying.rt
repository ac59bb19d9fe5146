// Laying links and turn entries in a draft.
ghost use Rattle.std.specs.Prelude.{◌≡◌, ◌≤◌, false, not, IfOk, Some, None};
ghost use Rattle.network.specs.Refusals.{refusal_in, first_refusal};
ghost use Rattle.network.specs.Laid.{plan, drafted};
ghost use Rattle.network.specs.Letters.{class_of};
ghost use Rattle.network.specs.Plan.{has_entry};
ghost use Rattle.network.specs.Laying.{outside, link_refusal, with_link, with_entry, pair_rows, letter_rows, room_rows, turn_refusal, with_turn, record_refusal, with_record};

use crate::draft::Draft;
use crate::link::Link;
use crate::network::Network;
use crate::record::Record;
use crate::refusal::Refusal;
use crate::turn::{Turn, class_of};

// Whether the number is a node.
pub fn is_node(node: u32) -> bool
    ensures { result ≡ not (outside node) }
{
    (1..=512).contains(&node)
}

// The class of a letter, where letter and extra are lawful.
pub(crate) fn check_letter(letter: char, extra: u32) -> Result<u8, Refusal>
    ensures answer { refusal_in result ≡ first_refusal (letter_rows letter extra) }
    ensures class { IfOk result (λ class. class_of letter ≡ Some class) }
{
    let class = class_of(letter).ok_or(Refusal::NoSuchLetter)?;
    if extra > 1_000_000 {
        return Err(Refusal::ExtraTooLarge);
    }
    Ok(class)
}

impl Network {
    // Whether both links of a pair are laid and meet.
    pub(crate) fn check_pair(&self, into: u32, out: u32) -> Result<(), Refusal>
        ensures { refusal_in result ≡ first_refusal (pair_rows (plan self.now) into out) }
    {
        if !self.is_laid(into) || !self.is_laid(out) {
            return Err(Refusal::NoSuchLink);
        }
        if self.link(into).end != self.link(out).start {
            return Err(Refusal::LinksApart);
        }
        Ok(())
    }

    // Adds the entry of a checked pair after the others, where there is room.
    pub(crate) fn add_turn(
        &mut self,
        into: u32,
        out: u32,
        class: u8,
        extra: u32,
    ) -> Result<(), Refusal>
        requires pair { first_refusal (pair_rows (plan self.old) into out) ≡ None }
        requires apart { has_entry (plan self.old).turns into out ≡ false }
        requires within { (class ≤ 4) × (extra ≤ 1000000) }
        ensures answer { refusal_in result ≡ first_refusal (room_rows (plan self.old)) }
        ensures after { plan self.new ≡ with_entry (plan self.old) into out class extra }
    {
        if self.turns.is_full() {
            return Err(Refusal::TurnsFull);
        }
        self.turns.push(Turn {
            into: into as u16,
            out: out as u16,
            class,
            extra,
        });
        Ok(())
    }
}

impl Draft {
    // Lays a link after those that are laid.
    pub fn lay_link(
        &mut self,
        start: u32,
        end: u32,
        length: u32,
        tightness: u8,
    ) -> Result<(), Refusal>
        ensures answer { refusal_in result ≡ link_refusal (drafted self.old) start end length }
        ensures after { drafted self.new ≡ with_link (drafted self.old) start end length tightness }
    {
        if self.network.links.is_full() {
            return Err(Refusal::LinksFull);
        }
        if !is_node(start) || !is_node(end) {
            return Err(Refusal::NodeOutside);
        }
        if start < u32::from(self.network.last_start()) {
            return Err(Refusal::StartsFall);
        }
        if length > 1_000_000 {
            return Err(Refusal::TooLong);
        }
        let link = Link {
            start: start as u16,
            end: end as u16,
            length,
            tightness,
        };
        self.network.links.push(link);
        let count = self.network.links.len() as u16;
        self.network.starts.note(link.start, count);
        Ok(())
    }

    // Lays the entry of a pair after those that are laid.
    pub fn lay_turn(&mut self, into: u32, out: u32, letter: char, extra: u32) -> Result<(), Refusal>
        ensures answer { refusal_in result ≡ turn_refusal (drafted self.old) into out letter extra }
        ensures after { drafted self.new ≡ with_turn (drafted self.old) into out letter extra }
    {
        self.network.check_pair(into, out)?;
        if self.network.has_entry(into, out) {
            return Err(Refusal::PairTaken);
        }
        let class = check_letter(letter, extra)?;
        self.network.add_turn(into, out, class, extra)
    }

    // Lays what a record holds.
    pub fn lay(&mut self, record: Record) -> Result<(), Refusal>
        ensures answer { refusal_in result ≡ record_refusal (drafted self.old) «record» }
        ensures after { drafted self.new ≡ with_record (drafted self.old) «record» }
    {
        match record {
            Record::Link {
                start,
                end,
                length,
                tightness,
            } => self.lay_link(start, end, length, tightness),
            Record::Turn {
                into,
                out,
                letter,
                extra,
            } => self.lay_turn(into, out, letter, extra),
        }
    }
}
