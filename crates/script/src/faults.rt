// Why a line is no command.
ghost use Rattle.std.specs.Prelude.{Some};
ghost use Rattle.script.specs.Reasons.{reason};

use std::fmt;

// A place counts the words of the line from 1.
#[derive(Clone, Copy, PartialEq, Eq)]
pub enum Fault {
    UnknownCommand,
    TooFewWords,
    TooManyWords,
    NotANumber { word: usize },
    UnknownHostKind,
    UnknownQuestion,
    // A kind, class, wrap or mode whose number no member of its list has.
    OutsideList { word: usize },
}

impl fmt::Display for Fault {
    ghost output = { λ fault. Some (reason fault) };

    fn fmt<W: fmt::Write>(&self, f: &mut fmt::Formatter<W>) -> fmt::Result {
        match *self {
            Fault::UnknownCommand => write!(f, "word 1 is not a command"),
            Fault::TooFewWords => write!(f, "too few words"),
            Fault::TooManyWords => write!(f, "too many words"),
            Fault::NotANumber { word } => write!(
                f,
                "word {word} is not a number from 0 to 4294967295"
            ),
            Fault::UnknownHostKind => write!(f, "word 3 is not a kind of host"),
            Fault::UnknownQuestion => write!(f, "word 3 is not a question from 1 to 10"),
            Fault::OutsideList { word } => write!(f, "word {word} is not a number of its list"),
        }
    }
}
