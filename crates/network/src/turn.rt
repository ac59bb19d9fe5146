// A turn entry: what it costs to go on from one link into another, or that it is barred.
ghost use Rattle.std.specs.Prelude.{◌≡◌, ◌==◌};
ghost use Rattle.network.specs.Letters.{class_of, letter_of};
ghost use Rattle.network.specs.Roads.{barred};

// The classes of turns. It is a rule of this project that an entry keeps its class as one of these numbers.
pub(crate) const STRAIGHT_ON: u8 = 0;

const LEFT: u8 = 1;

const RIGHT: u8 = 2;

const BACK: u8 = 3;

const BARRED: u8 = 4;

#[derive(Clone, Copy, PartialEq, Eq, Debug, Default)]
pub struct Turn {
    pub into: u16,
    pub out: u16,
    pub class: u8,
    pub extra: u32,
}

impl Turn {
    // The letter of the turn's class, as a byte.
    pub fn letter(self) -> u8
        ensures { result ≡ letter_of self.class }
    {
        match self.class {
            STRAIGHT_ON => b'S',
            LEFT => b'L',
            RIGHT => b'R',
            BACK => b'U',
            _ => b'X',
        }
    }

    // Whether the turn is barred.
    pub fn is_barred(self) -> bool
        ensures { result ≡ (self.class == barred) }
    {
        self.class == BARRED
    }

    // Gives the entry another class and extra.
    pub(crate) fn change(&mut self, class: u8, extra: u32)
        ensures { self.new ≡ record { into = self.old.into; out = self.old.out; class = class; extra = extra } }
    {
        self.class = class;
        self.extra = extra;
    }
}

// The class that a letter stands for, if it is one of the five: a rule of this project has it matched against the five literals here.
pub(crate) fn class_of(letter: char) -> Option<u8>
    ensures { result ≡ class_of letter }
{
    match letter {
        'S' => Some(STRAIGHT_ON),
        'L' => Some(LEFT),
        'R' => Some(RIGHT),
        'U' => Some(BACK),
        'X' => Some(BARRED),
        _ => None,
    }
}
