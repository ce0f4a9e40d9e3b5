// How answers are written.
use host::Answer;
use registry::Reply;
use std::fmt;

// Words, joined by one blank; not by the library's `join`, which needs memory.
#[derive(Drop)]
pub(crate) struct Joined<'a>(pub(crate) &'a [&'a str]);

impl fmt::Display for Joined<'_> {
    fn fmt<W: fmt::Write>(&self, f: &mut fmt::Formatter<W>) -> fmt::Result {
        for (place, word) in self.0.iter().enumerate() {
            if place > 0 {
                write!(f, " ")?;
            }
            write!(f, "{word}")?;
        }
        Ok(())
    }
}

// Numbers, each with a blank in front, or a word for none.
#[derive(Drop)]
pub(crate) struct Numbers<'a>(pub(crate) &'a [u32]);

impl fmt::Display for Numbers<'_> {
    fn fmt<W: fmt::Write>(&self, f: &mut fmt::Formatter<W>) -> fmt::Result {
        if self.0.is_empty() {
            return write!(f, " none");
        }
        for number in self.0 {
            write!(f, " {number}")?;
        }
        Ok(())
    }
}

// What a command was answered: the number 0 or a refusal's for an opening; for a question its answer's numbers, separated by
// blanks, marks as 0 and 1.
#[derive(Drop)]
pub(crate) struct Shown(pub(crate) Reply);

impl fmt::Display for Shown {
    fn fmt<W: fmt::Write>(&self, f: &mut fmt::Formatter<W>) -> fmt::Result {
        match self.0 {
            Reply::Opened(Ok(())) => write!(f, "0"),
            Reply::Opened(Err(refusal)) => {
                let number = u32::from(refusal);
                write!(f, "refused {number}")
            }
            Reply::Answered(answer) => {
                let answer = Answered(answer);
                write!(f, "{answer}")
            }
        }
    }
}

#[derive(Drop)]
struct Answered(Answer);

impl fmt::Display for Answered {
    fn fmt<W: fmt::Write>(&self, f: &mut fmt::Formatter<W>) -> fmt::Result {
        match self.0 {
            Answer::Form(form) => {
                let number = u32::from(form.form);
                let definition = form.definition;
                let boxed = u8::from(form.boxed_slice);
                write!(f, "{number} {definition} {boxed}")
            }
            Answer::Item(Some(item)) => {
                let name = item.name;
                let sort = u32::from(item.sort);
                let has_self = u8::from(item.has_self);
                write!(f, "{name} {sort} {has_self}")
            }
            Answer::Number(Some(number)) => write!(f, "{number}"),
            Answer::Number(None) | Answer::Item(None) => write!(f, "absent"),
            Answer::Mark(mark) => {
                let mark = u8::from(mark);
                write!(f, "{mark}")
            }
            Answer::Marks(array, boxed) => {
                let array = u8::from(array);
                let boxed = u8::from(boxed);
                write!(f, "{array} {boxed}")
            }
        }
    }
}
