//! What a command is answered.
ghost use Rattle.std.specs.Prelude.{Some};
ghost use Rattle.commands.specs.Reply.{reply_text};

use flow_rules::{Name, Refusal};
use std::fmt;

/// The answer to a command of a script. It prints as its line, without the line feed.
#[derive(Debug, Drop)]
pub enum Reply {
    /// `cap C`: the capacity that is enforced.
    Capacity(usize),
    /// `late`: a closing error waits for the items.
    Ordered,
    /// `sub NAME`: the name of the new subscription.
    Name(Name),
    /// `offer R`: the greatest lag, or minus the number of drops for want of room; 0 where nobody takes the item.
    Offered(i64),
    /// `retry R calls K`: what an offer answers, and how often the text was offered once more.
    Retried(i64, u64),
    /// `submit R`: the greatest lag, or 0 where nobody takes the item.
    Submitted(i64),
    /// `ok`
    Done,
    /// `idle`: no turn is owed.
    Idle,
    /// `refused N WORD`
    Refused(Refusal),
}

impl fmt::Display for Reply {
    ghost output = { λ reply. Some (reply_text reply) };

    fn fmt<W: fmt::Write>(&self, f: &mut fmt::Formatter<W>) -> fmt::Result {
        match self {
            Reply::Capacity(capacity) => write!(f, "cap {capacity}"),
            Reply::Ordered => f.write_str("late"),
            Reply::Name(name) => write!(f, "sub {name}"),
            Reply::Offered(answer) => write!(f, "offer {answer}"),
            Reply::Retried(answer, calls) => write!(f, "retry {answer} calls {calls}"),
            Reply::Submitted(answer) => write!(f, "submit {answer}"),
            Reply::Done => f.write_str("ok"),
            Reply::Idle => f.write_str("idle"),
            Reply::Refused(refusal) => write!(f, "{refusal}"),
        }
    }
}
