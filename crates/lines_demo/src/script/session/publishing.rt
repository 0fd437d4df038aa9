//! `offer`, `retry` and `submit`.
ghost use Rattle.std.specs.Prelude.{◌≡◌, true, IfOk, IfErr};
ghost use Rattle.lines_demo.specs.Script.Playing.{Replies, IsTextOf, OffersText, RefusesText};
ghost use Rattle.lines_demo.specs.Script.Publishing.{offer_result, retry_result, submit_result, drops_in};
ghost use Rattle.commands.specs.Reply.{reply_or_refusal};

use super::Session;
use commands::Reply;
use flow_rules::{DropHandler, Item, Listener, Name, Refusal, Text};
use publisher_hub::{Need, Unpublished};
use std::alloc::Global;

/// The source of all items of a script.
const SOURCE: u32 = 0;

impl<B: Listener> Session<B> {
    /// Offers a text to all live subscriptions.
    pub(super) fn offer(&mut self, alloc: Global, text: &[u8]) -> Result<Reply, Refusal>
        requires begun { self.old.beginning.is_over ≡ true }
        ensures { Replies (λ refusals. offer_result self.old refusals text.now)
            (reply_or_refusal result) self.new }
    {
        let text = text_of(alloc, text)?;
        let answer = self.offer_text(text, None)?;
        Ok(Reply::Offered(answer))
    }

    /// Offers a text to all live subscriptions, and once more to each that had no room.
    pub(super) fn retry(&mut self, alloc: Global, text: &[u8]) -> Result<Reply, Refusal>
        requires begun { self.old.beginning.is_over ≡ true }
        ensures { Replies (λ refusals. retry_result self.old refusals text.now)
            (reply_or_refusal result) self.new }
    {
        let text = text_of(alloc, text)?;
        let Ok(handler) = Box::new(alloc, AlwaysAgain) else {
            return Err(Refusal::NoMemory);
        };
        let mut handler: Box<dyn DropHandler> = handler;
        let answer = self.offer_text(text, Some(&mut handler))?;
        Ok(Reply::Retried(answer, drops_of(answer)))
    }

    /// Offers a text to all live subscriptions. If a handler is given, each drop is tried once more as it answers.
    fn offer_text(
        &mut self,
        text: Text,
        handler: Option<&mut Box<dyn DropHandler>>,
    ) -> Result<i64, Refusal>
        requires begun { self.old.beginning.is_over ≡ true }
        ensures ok { IfOk result (λ answer. OffersText self.old text answer self.new) }
        ensures refusals { IfErr result (λ refusal. RefusesText self.old refusal self.new) }
    {
        let answer = self.hub.offer(SOURCE, text, handler, &mut self.due)?;
        self.woken.push_all(&mut self.due);
        Ok(answer)
    }

    /// Publishes a text to all live subscriptions, and is refused if that would wait for room.
    pub(super) fn submit(&mut self, alloc: Global, text: &[u8]) -> Result<Reply, Refusal>
        requires begun { self.old.beginning.is_over ≡ true }
        ensures { Replies (λ refusals. submit_result self.old refusals text.now)
            (reply_or_refusal result) self.new }
    {
        let text = text_of(alloc, text)?;
        match self.hub.publish(SOURCE, &[text], Need::All, &mut self.due) {
            Ok(publication) => {
                self.woken.push_all(&mut self.due);
                Ok(Reply::Submitted(publication.lag as i64))
            }
            Err(Unpublished::Refused(refusal)) => Err(refusal),
            Err(Unpublished::NoRoom) => Err(Refusal::WouldWait),
        }
    }
}

/// A text to publish.
fn text_of(alloc: Global, text: &[u8]) -> Result<Text, Refusal>
    ensures { IsTextOf text.now result }
{
    if text.len() > Text::LONGEST {
        return Err(Refusal::LineTooLong);
    }
    Ok(Text::new(alloc, text)?)
}

/// The number of drops that an offer was answered.
fn drops_of(answer: i64) -> u64
    ensures { result ≡ drops_in answer }
{
    if answer < 0 { answer.unsigned_abs() } else { 0 }
}

/// Who asks for one more try, always.
#[derive(Drop)]
struct AlwaysAgain;

impl DropHandler for AlwaysAgain {
    fn on_drop(&mut self, _: Name, _: &Item) -> bool {
        true
    }
}
