//! The beginning of a script: `cap` and `late`, which say how its publisher is made.
ghost use Rattle.std.specs.Prelude.{◌≡◌};
ghost use Rattle.lines_demo.specs.Script.Obeying.{cap_result, late_result, state_at_command};
ghost use Rattle.lines_demo.specs.Script.Playing.{Replies};
ghost use Rattle.commands.specs.Reply.{reply_or_refusal};

use super::Session;
use commands::{Command, Reply};
use flow_rules::{ErrorOrder, Listener, Refusal, capacity};
use publisher_hub::Hub;
use std::alloc::Global;

/// What the beginning of a script said of its publisher, beside the capacity.
#[derive(Clone, Copy)]
pub struct Beginning {
    /// Whether it is over: a command other than `cap` and `late` was read.
    pub is_over: bool,
    /// In which order a closing error is told.
    pub order: ErrorOrder,
}

impl<B: Listener> Session<B> {
    /// This command was read. Any but `cap` and `late` ends the beginning.
    pub(super) fn begin(&mut self, command: &Command<'_>)
        ensures { self.new ≡ state_at_command command.now self.old }
    {
        if !matches!(command, Command::Cap(_) | Command::Late) {
            self.beginning.is_over = true;
        }
    }

    /// Asks for a capacity. Refused after the beginning, and if the capacity is 0.
    pub(super) fn set_capacity(&mut self, alloc: Global, asked: usize) -> Result<Reply, Refusal>
        ensures { Replies (λ refusals. cap_result self.old refusals asked)
            (reply_or_refusal result) self.new }
    {
        if self.beginning.is_over {
            return Err(Refusal::BadCommand);
        }
        let enforced = capacity(asked)?;
        self.hub = Hub::new(alloc, asked)?;
        Ok(Reply::Capacity(enforced))
    }

    /// Asks that closing errors wait for the items. Refused after the beginning.
    pub(super) fn set_late(&mut self) -> Result<Reply, Refusal>
        ensures { Replies (λ refusals. late_result self.old refusals)
            (reply_or_refusal result) self.new }
    {
        if !self.beginning.is_over {
            self.beginning.order = ErrorOrder::AfterItems;
            return Ok(Reply::Ordered);
        }
        Err(Refusal::BadCommand)
    }
}
