//! What an event of the task table answers.
ghost use Rattle.std.specs.Prelude.{◌≡◌};
ghost use Rattle.hp_model.specs.beside.Told.{told_reply};
ghost use Rattle.hp_events.specs.Replies.{table_reply};

use hp_model::answer::Reply;
use hp_model::refusal::Refusal;
use hp_model::told::{Told, into_reply};

/// An answer that can be told as often as it is wanted.
#[derive(Clone, Copy, Debug, PartialEq, Eq)]
pub enum TableTold {
    Done,
    /// A task's home node.
    Home(u64),
    Refused(Refusal),
}

impl TableTold {
    /// As a reply, for an entry or a receipt.
    pub fn reply(&self) -> Reply
        ensures { result ≡ table_reply self.now }
    {
        into_reply(self.told())
    }

    /// For the caller.
    pub fn told(self) -> Result<Told<'static>, Refusal>
        ensures { told_reply result ≡ table_reply self }
    {
        match self {
            TableTold::Done => Ok(Told::Done),
            TableTold::Home(home) => Ok(Told::Home(home)),
            TableTold::Refused(refusal) => Err(refusal),
        }
    }
}
