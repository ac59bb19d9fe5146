// Small towns, laid in drafts and changed once they are sealed.
use measure::Measure;
use navigator::Map;
use network::Draft;

// Start, end, length and tightness of links; link in, link out, letter and extra of turns; links that are closed, and turns
// that are changed, after sealing; origins and destinations of questions; and links that are written over the first route of
// each question, if any are. Links and turns do not name their numbers: each is a line of a table, and would be six.
#[derive(Clone, Copy)]
pub(crate) struct Town {
    pub(crate) name: &'static str,
    pub(crate) links: &'static [(u32, u32, u32, u8)],
    pub(crate) turns: &'static [(u32, u32, char, u32)],
    pub(crate) closed: &'static [u32],
    pub(crate) changed: &'static [(u32, u32, char, u32)],
    pub(crate) questions: &'static [(u32, u32)],
    pub(crate) written: Option<&'static [u16]>,
}

impl Town {
    // What a town has where nothing is said of it.
    pub(crate) const EMPTY: Town = Town {
        name: "",
        links: &[],
        turns: &[],
        closed: &[],
        changed: &[],
        questions: &[],
        written: None,
    };

    // Its links and turns in a draft.
    pub(crate) fn draft(self) -> Draft {
        let mut draft = Draft::new();
        for &(start, end, length, tightness) in self.links {
            let _ = draft.lay_link(start, end, length, tightness);
        }
        self.lay_turns(&mut draft);
        draft
    }

    fn lay_turns(self, draft: &mut Draft) {
        for &(into, out, letter, extra) in self.turns {
            let _ = draft.lay_turn(into, out, letter, extra);
        }
    }

    // Closes its closed links and changes its changed turns on a map.
    pub(crate) fn change<M: Measure + Drop>(self, map: &mut Map<M>) {
        for link in self.closed {
            let _ = map.close(*link);
        }
        self.set_turns(map);
    }

    fn set_turns<M: Measure + Drop>(self, map: &mut Map<M>) {
        for &(into, out, letter, extra) in self.changed {
            let _ = map.set_turn(into, out, letter, extra);
        }
    }
}
