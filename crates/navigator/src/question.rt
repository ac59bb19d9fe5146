// The question that a sealed map is asked, and which calls it lets through.
ghost use Rattle.std.specs.Prelude.{◌≡◌, MatchResult};
ghost use Rattle.network.specs.declared.refusal.Refusal.TheVariants.{NoQuestion};
ghost use Rattle.network.specs.Refusals.{refusal_in};
ghost use Rattle.navigator.specs.declared.question.Question.TheVariants.{Shut, Open};
ghost use Rattle.navigator.specs.Questions.{question_refusal};

use network::Refusal;

// Shut, or open from a node to a node, with so many routes listed. An enum and no Option, by a rule of this project: one match on
// the state and the call tells which call goes through.
#[derive(Clone, Copy)]
pub enum Question {
    Shut,
    Open { from: u16, to: u16, listed: usize },
}

// What an open question asks, as it is handed on.
#[derive(Clone, Copy)]
pub(crate) struct Asked {
    pub(crate) from: u16,
    pub(crate) to: u16,
    pub(crate) listed: usize,
}

// A call, as far as the question decides whether it goes through.
#[derive(Clone, Copy)]
pub(crate) enum Call {
    Ask,
    Next,
    Trial,
    End,
    Change,
}

impl Question {
    // What is asked; refused where nothing is.
    pub(crate) fn asked(&self) -> Result<Asked, Refusal>
        ensures { MatchResult result (λ a. self.now ≡ Open a.from a.to a.listed) (λ refusal. (self.now ≡ Shut) × (refusal ≡ NoQuestion)) }
    {
        match *self {
            Question::Shut => Err(Refusal::NoQuestion),
            Question::Open { from, to, listed } => Ok(Asked { from, to, listed }),
        }
    }

    // Whether the call goes through, decided by the question's state and the call.
    pub(crate) fn admit(&self, call: Call) -> Result<(), Refusal>
        ensures { refusal_in result ≡ question_refusal self.now call }
    {
        match (self, call) {
            (Question::Shut, Call::Next | Call::Trial | Call::End) => Err(Refusal::NoQuestion),
            (Question::Shut, Call::Ask | Call::Change) => Ok(()),
            (Question::Open { .. }, Call::Next | Call::Trial | Call::End) => Ok(()),
            (Question::Open { .. }, Call::Ask | Call::Change) => Err(Refusal::QuestionOpen),
        }
    }
}
