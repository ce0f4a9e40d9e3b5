// What a line can say.
use host::Question;
use rows::Row;

// The kinds of hosts that a script can begin.
#[derive(Clone, Copy, PartialEq, Eq)]
pub enum HostKind {
    Tabled,
    Empty,
}

// A command, with its arguments.
#[derive(Clone, Copy, PartialEq, Eq)]
pub enum Command {
    // A line with no words.
    Nothing,
    // A host begins; its tables follow.
    Host { id: u32, kind: HostKind },
    // A row of the host begun last.
    Row(Row),
    Open { id: u32 },
    Ask { id: u32, question: Question },
}
