//! A listener without ghost members: what looks at the items of a subscription, and nothing else.
ghost use Rattle.std.specs.Prelude.{◌≡◌, []};

use crate::answer::Answer;
use crate::item::Item;
use crate::listener::Listener;
use crate::refusal::NoMemory;
use crate::signal::{Fault, Signal};
use crate::told::Told;
use std::marker::Model;

/// What looks at the items of a subscription, and promises nothing about them: a type of one's own meets it by three
/// short methods, with no clause and no proof. [`Watching`] makes a [`Listener`] of it. A listener whose own promise is
/// proved is written on a field [`Told`](crate::Told), as [`Tally`](crate::Tally) is.
///
/// ```
/// /// Adds up the bytes of the texts, a few items at a time.
/// #[derive(Drop)]
/// struct Bytes(u64);
///
/// impl Watch for Bytes {
///     fn on_start(&mut self) -> Answer { Answer::Request(8) }
///     fn on_item(&mut self, item: &Item) -> Answer {
///         self.0 = self.0.saturating_add(item.text.len() as u64);
///         Answer::Request(1)
///     }
///     fn on_end(&mut self, _fault: Option<Fault>) {}
/// }
/// ```
pub trait Watch: Drop {
    /// Called once, before any item (`Flow.Subscriber.onSubscribe`). No item comes before one is requested: by this
    /// answer, by that to an item, or by the owner of the subscription. `Request(i64::MAX)` requests all items for
    /// good, as `SubmissionPublisher.consume` does.
    fn on_start(&mut self) -> Answer;

    /// Called with each item, in order (`Flow.Subscriber.onNext`). A watch that fails, because it ran out of memory for
    /// example, answers `Fail` with a code of its own, which ends the subscription.
    fn on_item(&mut self, item: &Item) -> Answer;

    /// Called once, after the last item: with nothing once the publisher is closed and every item was given
    /// (`Flow.Subscriber.onComplete`), and with the fault otherwise (`Flow.Subscriber.onError`). A subscription that
    /// was cancelled, or that a callback ended, ends without this call.
    fn on_end(&mut self, fault: Option<Fault>);
}

/// A listener that hands each signal to a [`Watch`], and answers what that answers. It is not steady, and no callback
/// of it is refused memory.
#[derive(Debug, Drop)]
pub struct Watching<W: Watch> {
    told: Told,
    watch: W,
}

impl<W: Watch> Model for Watching<W> {
    ghost use Rattle.flow_rules.specs.Watched.{Watched};

    ghost Value = { Watched W };

    ghost view = { λ w. record { told = w.told.signals; replied = w.told.replies; watch = w.watch } };
}

impl<W: Watch> Watching<W> {
    /// A listener that was told nothing, with this watch.
    pub fn new(watch: W) -> Watching<W>
        ensures untold { (result.told ≡ []) × (result.replied ≡ []) }
        ensures watch { result.watch ≡ watch }
    {
        Watching {
            told: Told::new(),
            watch,
        }
    }

    /// Shows the watch.
    pub fn watch(&self) -> &W
        ensures { result.now ≡ self.now.watch }
    {
        &self.watch
    }

    /// Takes the watch out, once the subscription is done with it.
    pub fn into_watch(self) -> W
        ensures { result ≡ self.watch }
    {
        self.watch
    }
}

impl<W: Watch> Listener for Watching<W> {
    ghost use Rattle.std.specs.Prelude.{false};

    ghost told = { λ w. w.told };

    ghost replied = { λ w. w.replied };

    ghost is_steady = { λ _. false };

    fn on_subscribe(&mut self) -> Result<Answer, NoMemory> {
        let answer = self.watch.on_start();
        Ok(self.told.tell(&Signal::Subscribed, answer))
    }

    fn on_next(&mut self, item: &Item) -> Result<Answer, NoMemory> {
        let answer = self.watch.on_item(item);
        Ok(self.told.tell_next(item, answer))
    }

    fn on_error(&mut self, fault: Fault) -> Result<Answer, NoMemory> {
        self.watch.on_end(Some(fault));
        Ok(self.told.tell_last(&Signal::Error(fault)))
    }

    fn on_complete(&mut self) -> Result<Answer, NoMemory> {
        self.watch.on_end(None);
        Ok(self.told.tell_last(&Signal::Complete))
    }
}
