//! The session: where a script stands, and what each command changes there.
mod acting;
mod beginning;
mod publishing;
mod showing;
mod subscribing;
mod turning;

ghost use Rattle.std.specs.Prelude.{◌≡◌, [], true, All, length, IfOk};
ghost use Rattle.lines_demo.specs.Prelude.{Ending};
ghost use Rattle.commands.specs.Command.{IsInRange};
ghost use Rattle.lines_demo.specs.Script.Laws.{KeepsFlow, IsSettledSession, TellsAllBeforeErrors, SerialsRiseIn, AgreesOnItems, TellsInOneOrder, CountsPublications};
ghost use Rattle.lines_demo.specs.Script.Obeying.{command_result, closing_result, call_result, state_at_command};
ghost use Rattle.lines_demo.specs.Script.Playing.{Replies};
ghost use Rattle.commands.specs.Reply.{reply_or_refusal};
ghost use Rattle.lines_demo.specs.Script.State.{state_at_start};
ghost use Rattle.lines_demo.specs.Script.Waking.{has_woken};

use super::woken::Woken;
use acting::Act;
use beginning::Beginning;
use commands::{Command, Reply};
use feed_core::Desk;
use flow_rules::{Ending, ErrorOrder, Listener, NoMemory, Refusal};
use publisher_hub::{Hub, Work};
use std::alloc::Global;
use std::collections::VecDeque;
use std::marker::Model;

/// The capacity of the buffers if none is asked for (`Flow.defaultBufferSize`, Java SE 17).
pub const DEFAULT_CAPACITY: usize = 256;

/// Where a script stands: the publisher, the subscribers that are left, and who is woken.
#[derive(Drop)]
pub struct Session<B: Listener> {
    hub: Hub<Desk<B>>,
    stock: VecDeque<B>,
    woken: Woken,
    /// The tasks that a call has started. Between two calls there are none.
    due: Vec<Work<()>>,
    beginning: Beginning,
}

impl<B: Listener> Model for Session<B> {
    ghost use Rattle.std.specs.Prelude.{◌≡◌, [], true, length, All};
    ghost use Rattle.lines_demo.specs.Script.State.{SessionState};
    ghost use Rattle.lines_demo.specs.Script.Session.{state_of, IsSession};

    ghost Value = { SessionState };

    ghost view = { λ s. state_of s.hub (length s.stock.items) s.woken s.beginning };

    ghost invariant = { λ s. All (λ b. (B.told b ≡ []) × (B.replied b ≡ [])) s.stock.items
        × All (λ b. B.is_steady b ≡ true) s.stock.items
        × IsSession s.hub (length s.stock.items) s.woken s.beginning
        × (s.due.items ≡ []) };
}

impl<B: Listener> Session<B> {
    /// The start of a script, with these subscribers to take from. They are steady, and have neither been told nor
    /// replied anything.
    pub fn new(alloc: Global, stock: Vec<B>) -> Result<Session<B>, NoMemory>
        requires untold { All (λ b. (B.told b ≡ []) × (B.replied b ≡ [])) stock.items }
        requires steady { All (λ b. B.is_steady b ≡ true) stock.items }
        ensures { IfOk result (λ session. session ≡ state_at_start (length stock.items)) }
    {
        let Ok(hub) = Hub::new(alloc, DEFAULT_CAPACITY) else {
            return Err(NoMemory);
        };
        Ok(Session {
            hub,
            stock: VecDeque::from_vec(stock),
            woken: Woken::new(alloc)?,
            due: Vec::new(alloc),
            beginning: Beginning {
                is_over: false,
                order: ErrorOrder::Overtake,
            },
        })
    }

    /// Does what a command says, and answers it. Of a `run` the turns are made before, by [`Session::turn`].
    pub fn obey(&mut self, alloc: Global, command: Command<'_>) -> Reply
        requires { IsInRange command }
        ensures { Replies
            (λ refusals. command_result command.entry self.old refusals) result self.new }
    {
        self.begin(&command);
        match self.call(alloc, command) {
            Ok(reply) => reply,
            Err(refusal) => Reply::Refused(refusal),
        }
    }

    /// Does what a command says that was read.
    fn call(&mut self, alloc: Global, command: Command<'_>) -> Result<Reply, Refusal>
        requires range { IsInRange command }
        requires begun { state_at_command command self.old ≡ self.old }
        ensures { Replies (λ refusals. call_result command.entry self.old refusals)
            (reply_or_refusal result) self.new }
    {
        match command {
            Command::Cap(capacity) => self.set_capacity(alloc, capacity as usize),
            Command::Late => self.set_late(),
            Command::Sub(name, number) => self.subscribe(alloc, name, number),
            Command::Offer(text) => self.offer(alloc, text.as_bytes()),
            Command::Retry(text) => self.retry(alloc, text.as_bytes()),
            Command::Submit(text) => self.submit(alloc, text.as_bytes()),
            Command::Request(name, number) => self.act(name, Act::Request(number)),
            Command::Cancel(name) => self.act(name, Act::Cancel),
            Command::Close => self.close(Ending::Normal),
            Command::Fail(code) => self.close(Ending::Failed(code)),
            Command::Run => Ok(Reply::Idle),
        }
    }

    /// Closes the publisher so. Only the first call does anything.
    fn close(&mut self, ending: Ending) -> Result<Reply, Refusal>
        requires begun { self.old.beginning.is_over ≡ true }
        ensures { Replies (λ refusals. closing_result ending self.old refusals)
            (reply_or_refusal result) self.new }
    {
        if self.hub.ending().is_some() {
            return Ok(Reply::Done);
        }
        let _ = self.hub.end(ending, &mut self.due)?;
        self.woken.push_all(&mut self.due);
        Ok(Reply::Done)
    }

    /// Whether anybody is woken. Each subscriber that isn't was told all that its demand and its ending allow. The laws
    /// of scripts hold in any case.
    pub fn has_woken(&self) -> bool
        ensures value { result ≡ has_woken self.now.woken }
        ensures flow { KeepsFlow self.now }
        ensures settled { IsSettledSession self.now }
        ensures waited { TellsAllBeforeErrors self.now }
        ensures rise { SerialsRiseIn self.now }
        ensures agrees { AgreesOnItems self.now }
        ensures order { TellsInOneOrder self.now }
        ensures counted { CountsPublications self.now }
    {
        !self.woken.is_empty()
    }
}
