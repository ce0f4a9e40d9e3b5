// Playing a script: each line is read, carried out and answered.
use super::printing::{Joined, Shown};
use registry::{Registry, Reply, Trouble};
use script::{Fault, parse};
use std::alloc::{AllocError, Global};
use std::io::BufRead;
use std::{fmt, io};

// Why a line was not carried out: it is no command, or its command failed.
#[derive(Clone, Copy)]
enum LineError {
    Fault(Fault),
    Trouble(Trouble),
}

impl From<Fault> for LineError {
    fn from(fault: Fault) -> LineError {
        LineError::Fault(fault)
    }
}

impl From<Trouble> for LineError {
    fn from(trouble: Trouble) -> LineError {
        LineError::Trouble(trouble)
    }
}

impl fmt::Display for LineError {
    fn fmt<W: fmt::Write>(&self, f: &mut fmt::Formatter<W>) -> fmt::Result {
        match self {
            LineError::Fault(fault) => write!(f, "{fault}"),
            LineError::Trouble(trouble) => write!(f, "{trouble}"),
        }
    }
}

// The words of a line, up to a comment.
fn words_of(heap: Global, line: &str) -> Result<Vec<&str>, AllocError> {
    let said = line.split_once('#').map_or(line, |(said, _)| said);
    said.split_whitespace().collect(heap)
}

fn carry_out(registry: &mut Registry, words: &[&str]) -> Result<Option<Reply>, LineError> {
    let command = parse(words)?;
    Ok(registry.execute(command)?)
}

// The line, and what it was answered.
fn print_reply<'a>(rt: &HostRuntime, words: &'a [&'a str], reply: Reply) -> io::Result<()> {
    let line = Joined(words);
    let shown = Shown(reply);
    println!(rt; "{line} = {shown}")
}

// Plays a script, and answers how many of its lines were in error.
pub fn play<R: BufRead + Drop>(rt: &HostRuntime, reader: R) -> anyhow::Result<usize> {
    let heap = rt.alloc();
    let mut registry = Registry::new(heap);
    let mut bad = 0usize;
    for (number, line) in (1usize..).zip(reader.lines(heap)) {
        let line = line?;
        let words = words_of(heap, &line)?;
        match carry_out(&mut registry, &words) {
            Ok(Some(reply)) => print_reply(rt, &words, reply)?,
            Ok(None) => {}
            Err(error) => {
                println!(rt; "error at line {number}: {error}")?;
                bad = bad.saturating_add(1);
            }
        }
    }
    Ok(bad)
}
