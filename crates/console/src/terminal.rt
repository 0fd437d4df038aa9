//! The terminal: it obeys one line after the other, and answers each at once.
mod acting;
mod ending;
mod leaving;
mod publishing;
mod settling;

use crate::desk::Desk;
use crate::echo::Echoes;
use crate::fault::ConsoleFault;
use crate::input::Heard;
use crate::order::Order;
use crate::report::say_left;
use crate::site::Site;
use commands::{Command, OutputFault, Reply};
use flow_rules::{Ending, Name, Refusal};
use inbox::Queue;
use publisher::{Ledgers, OnFull, Stats, Submitter, Subscription};
use std::sync::atomic::AtomicU64;
use std::sync::{Arc, Wait};
use std::thread::{Scope, Threads};
use std::time::Clock;

/// How many milliseconds the terminal sleeps before it looks again whether the sources have done what they can.
const PAUSE: u64 = 1;

/// What `help` prints.
const HELP: [&str; 20] = [
    "sub NAME N          subscribes with this name, and requests N items",
    "sub NAME N drop     as above, for a subscriber that loses a text if publish finds its buffer full",
    "request NAME N      the latest of this name requests N items more; an N below 1 is a bad request",
    "cancel NAME         cancels the latest of this name",
    "leave NAME          frees the latest of this name once it has ended, and says how it did",
    "offer TEXT          publishes, and drops the text for each subscriber whose buffer is full",
    "retry TEXT          publishes; if a buffer is full, tries it once more and then drops the text",
    "submit SOURCE TEXT  a thread of this source publishes, after its earlier texts, and waits for room",
    "publish SOURCE TEXT as above, but waits only for subscribers without drop; the others lose the text",
    "wait                waits until the sources have published what they can, and says which still wait",
    "close               as wait; then each subscriber completes after its items",
    "fail C              as wait; then closes with the error C, which overtakes the items that wait",
    "lag                 the longest backlog of any subscriber",
    "stats               how much was published, and how each live subscription stands",
    "subscribers         how many subscriptions are live",
    "closed              whether the publisher is closed, and how",
    "help, ?             this",
    "quit, exit          the end, as at the end of the input",
    "# TEXT              a comment",
    "A number has 19 digits at most, a line 4,200 bytes, a text 4,096, a name 32; SOURCE and C go up to 4,294,967,295.",
];

/// A subscription of the terminal.
#[derive(Drop)]
pub struct Named<L: Ledgers + Send, R: Print + Clock + Wait + Copy + Send + Sync + 'static> {
    name: Name,
    subscription: Subscription<L, Echoes<R>>,
    /// How many items its subscriber was told.
    told: Arc<AtomicU64>,
    /// What it said of a published text that finds its buffer full.
    on_full: OnFull,
    /// Whether it ends at its next turn: it was cancelled, or a request was bad, or its name was subscribed a second
    /// time.
    is_ending: bool,
}

/// A source that the terminal has started.
#[derive(Drop)]
struct Source {
    /// The number that it has on the terminal.
    number: u32,
    desk: Arc<Desk>,
}

/// What the terminal has for itself: its own source, its subscriptions, and the sources that it has started.
#[derive(Drop)]
pub struct Terminal<'e, L: Ledgers + Send, R: Print + Clock + Wait + Copy + Send + Sync + 'static> {
    site: &'e Site<L, R>,
    submitter: Submitter<L, Echoes<R>>,
    /// How many publications it has made itself.
    offered: u64,
    named: Vec<Named<L, R>>,
    sources: Vec<Source>,
}

impl<
    'e,
    L: Ledgers + Send + Sync + 'static,
    R: Print + Clock + Threads + Wait + Copy + Send + Sync + 'static,
> Terminal<'e, L, R> {
    /// A terminal without subscriptions. Refused as [`Publisher::submitter`](publisher::Publisher::submitter) is.
    pub fn new(site: &'e Site<L, R>) -> Result<Terminal<'e, L, R>, Refusal> {
        Ok(Terminal {
            site,
            submitter: site.submitter()?,
            offered: 0,
            named: Vec::new(site.alloc),
            sources: Vec::new(site.alloc),
        })
    }

    /// Obeys the lines of the input up to its end, or up to `quit`, and has the sources end then.
    pub fn run<'s, 'v: 's>(
        &mut self,
        scope: &'s Scope<'s, &'v ()>,
        input: &Queue<Heard>,
    ) -> Result<(), ConsoleFault>
    where
        'e: 's,
    {
        let heard = self.obey_all(scope, input);
        input.cut(&self.site.rt);
        self.end_sources();
        heard
    }

    /// Obeys line after line.
    fn obey_all<'s, 'v: 's>(
        &mut self,
        scope: &'s Scope<'s, &'v ()>,
        input: &Queue<Heard>,
    ) -> Result<(), ConsoleFault>
    where
        'e: 's,
    {
        for _ in self.site.rt.forever() {
            match input.pop(&self.site.rt) {
                None => break,
                Some(Heard::ReadFault) => return Err(ConsoleFault::Read),
                Some(Heard::NoMemory) => return Err(ConsoleFault::Memory),
                Some(Heard::LongLine) => self.refuse(Refusal::LineTooLong)?,
                Some(Heard::Line(line)) => {
                    if !line.is_empty() && !self.hear(scope, line.as_slice())? {
                        break;
                    }
                }
            }
        }
        Ok(())
    }

    /// Obeys a line, and tells whether another one may come.
    fn hear<'s, 'v: 's>(
        &mut self,
        scope: &'s Scope<'s, &'v ()>,
        line: &[u8],
    ) -> Result<bool, OutputFault>
    where
        'e: 's,
    {
        match Order::parse(line) {
            Ok(Order::Quit) => return Ok(false),
            Ok(Order::Script(command)) => self.answer(command, OnFull::Wait)?,
            Ok(Order::Lossy(command)) => self.answer(command, OnFull::Drop)?,
            Ok(Order::Publish(call, number, text)) => {
                if let Err(refusal) = self.publish(scope, call, number, text.as_bytes()) {
                    let answer = format_args!("= {} {number} {refusal}", call.word());
                    self.site.screen.say(answer)?;
                }
            }
            Ok(Order::Leave(word)) => match self.leave(word) {
                Ok(left) => say_left(&self.site.screen, &left)?,
                Err(refusal) => self.refuse(refusal)?,
            },
            Ok(Order::Wait) => match self.wait() {
                Ok(answer) => self.site.screen.say(format_args!("= {answer}"))?,
                Err(refusal) => self.refuse(refusal)?,
            },
            Ok(Order::Comment) => {}
            Ok(look) => self.look(look)?,
            Err(mistake) => {
                let answer = format_args!("= {}: {mistake}", Refusal::BadCommand);
                self.site.screen.say(answer)?;
            }
        }
        Ok(true)
    }

    /// Does what a command asks for that scripts have, too, and says what came of it. A new subscription says this of
    /// its full buffer.
    fn answer(&mut self, command: Command<'_>, on_full: OnFull) -> Result<(), OutputFault> {
        match self.call(command, on_full) {
            Ok(reply) => self.site.screen.say(format_args!("= {reply}")),
            Err(refusal) => self.refuse(refusal),
        }
    }

    fn call(&mut self, command: Command<'_>, on_full: OnFull) -> Result<Reply, Refusal> {
        match command {
            Command::Sub(name, number) => self.subscribe(name, number, on_full),
            Command::Offer(text) => self.offer(text.as_bytes()),
            Command::Retry(text) => self.retry(text.as_bytes()),
            Command::Request(name, number) => self.request(name, number),
            Command::Cancel(name) => self.cancel(name),
            Command::Close => self.close_after_all(Ending::Normal),
            Command::Fail(code) => self.close_after_all(Ending::Failed(code)),
            _ => Err(Refusal::BadCommand),
        }
    }

    /// Prints what is asked for and changes nothing.
    fn look(&self, order: Order<'_>) -> Result<(), OutputFault> {
        let Site {
            rt,
            publisher,
            screen,
            ..
        } = self.site;
        match order {
            Order::Lag => {
                let lag = publisher.estimate_maximum_lag(rt);
                screen.say(format_args!("= lag {lag}"))
            }
            Order::Stats => match publisher.stats(rt, self.site.alloc) {
                Ok(stats) => self.show(&stats),
                Err(refusal) => self.refuse(refusal),
            },
            Order::Subscribers => {
                let live = publisher.number_of_subscribers(rt);
                screen.say(format_args!("= subscribers {live}"))
            }
            Order::Closed => match publisher.closed_with(&mut publisher.note()) {
                None => screen.say("= closed 0"),
                Some(Ending::Normal) => screen.say("= closed 1"),
                Some(Ending::Failed(code)) => screen.say(format_args!("= closed 1 error {code}")),
            },
            _ => {
                for line in HELP {
                    screen.say(format_args!("= {line}"))?;
                }
                Ok(())
            }
        }
    }

    /// Prints how the publisher stands.
    fn show(&self, stats: &Stats) -> Result<(), OutputFault> {
        let screen = &self.site.screen;
        screen.say(format_args!(
            "= stats published {}, subscribed {}, reclaimed {}, live {}",
            stats.published,
            stats.made,
            stats.reclaimed,
            stats.live.len()
        ))?;
        for one in &stats.live {
            let policy = match one.on_full {
                OnFull::Wait => "",
                OnFull::Drop => " drop",
            };
            screen.say(format_args!(
                "= {}{policy} lag {}, accepted {}, dropped {}",
                one.name, one.lag, one.accepted, one.dropped
            ))?;
        }
        Ok(())
    }

    /// Answers a line with a refusal.
    fn refuse(&self, refusal: Refusal) -> Result<(), OutputFault> {
        self.site.screen.say(format_args!("= {refusal}"))
    }
}
