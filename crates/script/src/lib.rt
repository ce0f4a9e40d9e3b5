// What a line of a script says.
#![tactic(auto)]

ghost use Rattle.std.specs.Prelude.{◌≡◌};
ghost use Rattle.script.specs.Grammar.{texts, host_kind, host_line, row_line, open_line, ask_line, parsed};

mod commands;
mod faults;
mod questions;
mod words;

pub use commands::{Command, HostKind};
pub use faults::Fault;
use questions::numbered_question;
use rows::Row;
use words::{number_at, numbers};

// The place on its line of the word behind the command.
const SECOND: usize = 2;

// No `FromStr`: the fault speaks of the word's place on its line.
#[tactic(auto, unfolding(crate::specs::Grammar::host_kind))]
fn host_kind(word: &str) -> Result<HostKind, Fault>
    ensures { result ≡ host_kind word.now }
{
    match word {
        "tabled" => Ok(HostKind::Tabled),
        "empty" => Ok(HostKind::Empty),
        _ => Err(Fault::UnknownHostKind),
    }
}

// What follows `host`: ID tabled, or ID empty.
#[tactic(auto, unfolding(crate::specs::Grammar::host_line))]
fn host_line(words: &[&str]) -> Result<Command, Fault>
    ensures { result ≡ host_line (texts words.now) }
{
    match words {
        [] | [_] => Err(Fault::TooFewWords),
        [id, kind] => {
            let id = number_at(id, SECOND)?;
            let kind = host_kind(kind)?;
            Ok(Command::Host { id, kind })
        }
        _ => Err(Fault::TooManyWords),
    }
}

// What follows `row`: Q A1 A2 A3 A4 A5 A6 A7 R1 R2 R3.
#[tactic(auto, unfolding(crate::specs::Grammar::row_line))]
fn row_line(words: &[&str]) -> Result<Command, Fault>
    ensures { result ≡ row_line (texts words.now) }
{
    let row = Row::from(numbers::<11>(words, SECOND)?);
    Ok(Command::Row(row))
}

// What follows `open`: ID.
#[tactic(auto, unfolding(crate::specs::Grammar::open_line))]
fn open_line(words: &[&str]) -> Result<Command, Fault>
    ensures { result ≡ open_line (texts words.now) }
{
    let [id] = numbers::<1>(words, SECOND)?;
    Ok(Command::Open { id })
}

// What follows `ask`: ID QUESTION ARGUMENT...
#[tactic(auto, unfolding(crate::specs::Grammar::ask_line))]
fn ask_line(words: &[&str]) -> Result<Command, Fault>
    ensures { result ≡ ask_line (texts words.now) }
{
    let [id, number, arguments @ ..] = words else {
        return Err(Fault::TooFewWords);
    };
    let id = number_at(id, SECOND)?;
    let number = number_at(number, 3)?;
    let question = numbered_question(number, arguments)?;
    Ok(Command::Ask { id, question })
}

// What the line of these words says.
#[tactic(auto, unfolding(crate::specs::Grammar::parsed))]
pub fn parse(words: &[&str]) -> Result<Command, Fault>
    ensures { result ≡ parsed (texts words.now) }
{
    let [command, rest @ ..] = words else {
        return Ok(Command::Nothing);
    };
    match *command {
        "host" => host_line(rest),
        "row" => row_line(rest),
        "open" => open_line(rest),
        "ask" => ask_line(rest),
        _ => Err(Fault::UnknownCommand),
    }
}

#[cfg(test)]
mod tests {
    use super::*;
    use host::{CandidateClass, ContainerKind, ItemId, Mode, Question, TraitItem, Trial, Wrap};
    use rows::Key;

    #[test]
    fn commands(rt: HostRuntime) {
        let key = Key {
            question: 1,
            a1: 2,
            a2: 3,
            a3: 4,
            a4: 5,
            a5: 6,
            a6: 7,
            a7: 8,
        };
        let row = Row {
            key,
            r1: 9,
            r2: 10,
            r3: 11,
        };
        let tabled = HostKind::Tabled;
        let empty = HostKind::Empty;
        let lines: [(&[&str], Command); 5] = [
            (&[], Command::Nothing),
            (
                &["host", "0", "tabled"],
                Command::Host {
                    id: 0,
                    kind: tabled,
                },
            ),
            (
                &["host", "007", "empty"],
                Command::Host { id: 7, kind: empty },
            ),
            (&["open", "4294967295"], Command::Open { id: 4294967295 }),
            (
                &[
                    "row", "1", "2", "3", "4", "5", "6", "7", "8", "9", "10", "11",
                ],
                Command::Row(row),
            ),
        ];
        for (words, command) in lines {
            assert!(rt; parse(words) == Ok(command));
        }
    }

    #[test]
    fn questions(rt: HostRuntime) {
        let visible = Question::Visible(ItemId {
            kind: ContainerKind::Trait,
            container: 2,
            place: 3,
        });
        let applies = Question::Applies(Trial {
            class: CandidateClass::Bound,
            container: 20,
            place: 30,
            origin: 40,
            ty: 50,
            wrap: Wrap::RefMut,
            mode: Mode::Path,
        });
        let source = Question::Source(TraitItem {
            tr: 20,
            place: 30,
            ty: 40,
            wrap: Wrap::Ref,
            mode: Mode::MethodCall,
        });
        let lines: [(&[&str], Question); 4] = [
            (
                &["ask", "5", "6", "8", "9"],
                Question::Supers { tr: 8, place: 9 },
            ),
            (&["ask", "5", "7", "1", "2", "3"], visible),
            (
                &["ask", "5", "9", "3", "20", "30", "40", "50", "2", "1"],
                applies,
            ),
            (&["ask", "5", "10", "20", "30", "40", "1", "0"], source),
        ];
        for (words, question) in lines {
            assert!(rt; parse(words) == Ok(Command::Ask { id: 5, question }));
        }
    }

    #[test]
    fn faults(rt: HostRuntime) {
        let lines: [(&[&str], Fault); 10] = [
            (&["close", "1"], Fault::UnknownCommand),
            (&["open"], Fault::TooFewWords),
            (&["host", "x", "tabled", "1"], Fault::TooManyWords),
            (&["open", "4294967296"], Fault::NotANumber { word: 2 }),
            (&["ask", "1", "+5"], Fault::NotANumber { word: 3 }),
            (&["host", "1", "Tabled"], Fault::UnknownHostKind),
            (&["ask", "1", "11"], Fault::UnknownQuestion),
            (&["ask", "1", "1"], Fault::TooFewWords),
            // The word that is no number comes before the class that is outside its list.
            (
                &["ask", "1", "9", "4", "0", "0", "0", "0", "4", ""],
                Fault::NotANumber { word: 10 },
            ),
            (
                &["ask", "1", "9", "3", "0", "0", "0", "0", "4", "2"],
                Fault::OutsideList { word: 9 },
            ),
        ];
        for (words, fault) in lines {
            assert!(rt; parse(words) == Err(fault));
        }
    }
}
