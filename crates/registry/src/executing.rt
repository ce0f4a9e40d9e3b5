// Carrying a command out.
ghost use Rattle.std.specs.Prelude.{◌≡◌};
ghost use Rattle.registry.specs.Executing.{Executes};

use super::entries::Registry;
use super::troubles::Trouble;
use host::{Answer, Refusal};
use script::Command;

// What a command answers that is not carried out in silence.
#[derive(Clone, Copy)]
pub enum Reply {
    Opened(Result<(), Refusal>),
    Answered(Answer),
}

impl Registry {
    // Carries a command out; only an opening and a question are answered.
    pub fn execute(&mut self, command: Command) -> Result<Option<Reply>, Trouble>
        ensures { Executes self.old command result self.new }
    {
        match command {
            Command::Nothing => {}
            Command::Host { id, kind } => self.declare(id, kind)?,
            Command::Row(row) => self.add_row(row)?,
            Command::Open { id } => return Ok(Some(Reply::Opened(self.open(id)?))),
            Command::Ask { id, question } => {
                return Ok(Some(Reply::Answered(self.ask(id, question)?)));
            }
        }
        Ok(None)
    }
}
