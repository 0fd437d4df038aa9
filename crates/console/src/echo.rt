//! Who is told: a subscriber that has each of its signals written.
use crate::screen::Screen;
use commands::OutputFault;
use flow_rules::{Answer, Fault, Item, Name, Watch, Watching};
use std::sync::atomic::AtomicU64;
use std::sync::atomic::Ordering::SeqCst;
use std::sync::{Arc, Wait};
use std::time::Clock;

/// The listeners of a console.
pub type Echoes<R> = Watching<Echo<R>>;

/// Writes a line for each signal, and counts the items. It requests nothing by itself, and cancels its subscription
/// once a line has failed.
#[derive(Drop)]
pub struct Echo<R> {
    /// The name that it subscribes with.
    pub name: Name,
    /// Where it writes.
    pub screen: Arc<Screen<R>>,
    /// How many items it was told.
    pub told: Arc<AtomicU64>,
}

impl<R: Print + Clock + Wait + Copy> Watch for Echo<R> {
    fn on_start(&mut self) -> Answer {
        answer_after(self.screen.say(format_args!("{} subscribed", self.name)))
    }

    fn on_item(&mut self, item: &Item) -> Answer {
        // Whoever reads the line finds the item counted.
        self.told.fetch_add(1, SeqCst);
        answer_after(self.screen.say_item(&self.name, item.text.as_bytes()))
    }

    fn on_end(&mut self, fault: Option<Fault>) {
        let name = self.name;
        let said = match fault {
            None => self.screen.say(format_args!("{name} complete")),
            Some(Fault::Published(code)) => {
                self.screen
                    .say(format_args!("{name} error published {code}"))
            }
            Some(Fault::IllegalArgument) => self.screen.say(format_args!("{name} error argument")),
            Some(Fault::IllegalState) => self.screen.say(format_args!("{name} error state")),
        };
        // The screen keeps what has failed, and the terminal looks there.
        let _ = said;
    }
}

/// What a callback answers after its line.
fn answer_after(said: Result<(), OutputFault>) -> Answer {
    match said {
        Ok(()) => Answer::Go,
        Err(_) => Answer::Cancel,
    }
}
