//! The player: it has a session obey the lines of a script, and writes what they are answered.
ghost use Rattle.std.specs.Prelude.{◌≡◌, ◌<◌, Some, [], true, All, length, is_ok, IfOk, OnOk, false};
ghost use Rattle.commands.specs.Line.{lines_of};
ghost use Rattle.commands.specs.Writing.{Writes, line_of};
ghost use Rattle.commands.specs.Command.{IsInRange};
ghost use Rattle.lines_demo.specs.Script.Answering.{line_result, lines_result, spelled_result};
ghost use Rattle.lines_demo.specs.Script.Laws.{IsSettledSession};
ghost use Rattle.lines_demo.specs.Script.Playing.{Answers, PrintsTurn};
ghost use Rattle.commands.specs.Reply.{reply_text};
ghost use Rattle.lines_demo.specs.Script.Running.{first_turn_result, most_turns, run_turns};
ghost use Rattle.lines_demo.specs.Script.State.{state_at_start};
ghost use Rattle.lines_demo.specs.Script.Waking.{has_woken};

use super::explaining::{Explain, Line, explain_reply};
use super::session::Session;
use super::turn_lines::write_turn;
use commands::{Command, LONGEST_LINE, OutputFault, Reply, split_line, strip_return, write_line};
use feed_core::Seen;
use flow_rules::{Listener, NoMemory, Refusal};
use std::alloc::Global;
use std::io::Write;

/// A session, and the room for its turns and its lines, which is used again for each.
#[derive(Drop)]
pub struct Player<B: Listener> {
    pub session: Session<B>,
    alloc: Global,
    seen: Seen,
    buffer: Vec<u8>,
}

impl<B: Listener> Player<B> {
    /// The start of a script, with these subscribers to take from. They are steady, and have neither been told nor
    /// replied anything.
    pub fn new(alloc: Global, stock: Vec<B>) -> Result<Player<B>, NoMemory>
        requires untold { All (λ b. (B.told b ≡ []) × (B.replied b ≡ [])) stock.items }
        requires steady { All (λ b. B.is_steady b ≡ true) stock.items }
        ensures { IfOk result (λ player. player.session ≡ state_at_start (length stock.items)) }
    {
        Ok(Player {
            seen: Seen::new(alloc)?,
            session: Session::new(alloc, stock)?,
            alloc,
            buffer: Vec::new(alloc),
        })
    }

    /// Plays the lines of these bytes, and has them explained.
    pub fn play_lines<W: Write, E: Explain>(
        &mut self,
        bytes: &[u8],
        writer: &mut W,
        explain: &mut E,
    ) -> Result<(), OutputFault>
        ensures { Answers (is_ok result)
            (λ refusals. lines_result (lines_of bytes.now) self.old.session refusals)
            (W.contents writer.old) (W.contents writer.new) self.new.session }
    {
        let mut rest = bytes;
        let mut number: u64 = 0;
        while !rest.is_empty() {
            let (line, after) = split_line(rest);
            number = number.saturating_add(1);
            self.play_line(number, strip_return(line), writer, explain)?;
            rest = after;
        }
        Ok(())
    }

    /// Plays a line: nothing if it is empty, and a refusal if it is too long or spells no command.
    fn play_line<W: Write, E: Explain>(
        &mut self,
        number: u64,
        line: &[u8],
        writer: &mut W,
        explain: &mut E,
    ) -> Result<(), OutputFault>
        ensures { Answers (is_ok result)
            (λ refusals. line_result self.old.session refusals line.now)
            (W.contents writer.old) (W.contents writer.new) self.new.session }
    {
        if line.is_empty() {
            return Ok(());
        }
        let at = Line {
            number,
            bytes: line,
        };
        if line.len() > LONGEST_LINE {
            return self.answer(at, Reply::Refused(Refusal::LineTooLong), writer, explain);
        }
        match Command::parse(line) {
            Some(command) => self.play_command(at, command, writer, explain),
            None => self.answer(at, Reply::Refused(Refusal::BadCommand), writer, explain),
        }
    }

    /// Plays a command: the turns of a `run`, and then what the session answers.
    fn play_command<W: Write, E: Explain>(
        &mut self,
        at: Line<'_>,
        command: Command<'_>,
        writer: &mut W,
        explain: &mut E,
    ) -> Result<(), OutputFault>
        requires { IsInRange command }
        ensures { Answers (is_ok result)
            (λ refusals. spelled_result (Some command.entry) self.old.session refusals)
            (W.contents writer.old) (W.contents writer.new) self.new.session }
    {
        if matches!(command, Command::Run) {
            self.play_turns(writer)?;
        }
        let reply = self.session.obey(self.alloc, command);
        self.answer(at, reply, writer, explain)
    }

    /// Makes turns until nobody is woken, and writes the lines of each.
    fn play_turns<W: Write>(&mut self, writer: &mut W) -> Result<(), OutputFault>
        ensures turns { Answers (is_ok result) (λ refusals. run_turns self.old.session refusals)
            (W.contents writer.old) (W.contents writer.new) self.new.session }
        ensures rests { OnOk result (has_woken self.new.session.woken ≡ false) }
        ensures settled { OnOk result (IsSettledSession self.new.session) }
    {
        while self.session.has_woken() {
            self.play_turn(writer)?;
        }
        Ok(())
    }

    /// Makes the turn of the first of the woken, and writes its lines.
    fn play_turn<W: Write>(&mut self, writer: &mut W) -> Result<(), OutputFault>
        requires { has_woken self.old.session.woken ≡ true }
        ensures turn { Answers (is_ok result)
            (λ refusals. first_turn_result self.old.session.woken self.old.session refusals)
            (W.contents writer.old) (W.contents writer.new) self.new.session }
        ensures prints { PrintsTurn (is_ok result) self.old.session self.new.session
            (W.contents writer.old) (W.contents writer.new) }
        ensures fewer { most_turns self.new.session < most_turns self.old.session }
    {
        let (name, outlook) = self.session.turn(&mut self.seen);
        write_turn(
            writer,
            &mut self.buffer,
            &name,
            self.seen.as_slice(),
            outlook,
        )
    }

    /// Writes the reply to a line, which is explained before.
    fn answer<W: Write, E: Explain>(
        &mut self,
        at: Line<'_>,
        reply: Reply,
        writer: &mut W,
        explain: &mut E,
    ) -> Result<(), OutputFault>
        ensures line { Writes (is_ok result) (W.contents writer.old) (W.contents writer.new)
            (line_of (reply_text reply)) }
        ensures kept { self.new.session ≡ self.old.session }
    {
        explain_reply(explain, at, &reply, &self.session);
        write_line(writer, &mut self.buffer, reply)
    }
}
