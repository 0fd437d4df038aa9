//! Says on standard error why lines of a script were refused, and where its subscriptions stand after each `run`.
use super::explaining::{Explain, Line};
use super::session::Session;
use commands::{Excerpt, Mistake};
use feed_core::Desk;
use flow_rules::{Listener, Name, Refusal};

/// Explains a script on standard error. What can't be written there is left out, and changes nothing else.
#[derive(Drop)]
pub struct Explainer<'a, R: Eprint> {
    rt: &'a R,
}

impl<'a, R: Eprint> Explainer<'a, R> {
    /// Explains on the standard error of this runtime.
    pub fn new(rt: &'a R) -> Explainer<'a, R> {
        Explainer { rt }
    }

    /// Says where a subscription stands.
    fn show<B: Listener>(&self, name: Name, desk: &Desk<B>) {
        let _ = match desk.how() {
            Some(how) => eprintln!(self.rt; "  {name}: {how}"),
            None => eprintln!(self.rt;
                "  {name}: holds {} of {}, was given {} of {} requested",
                desk.lag(),
                desk.capacity(),
                desk.given(),
                desk.asked()
            ),
        };
    }
}

impl<R: Eprint> Explain for Explainer<'_, R> {
    fn refused(&mut self, line: Line<'_>, refusal: &Refusal) {
        let excerpt = Excerpt::new(line.bytes);
        // A command that may not stand here is no mistake.
        let _ = match mistake_of(line.bytes, refusal) {
            Some(mistake) => eprintln!(self.rt; "line {}: {excerpt}: {mistake}", line.number),
            None => eprintln!(self.rt; "line {}: {excerpt}: {}", line.number, refusal.explain()),
        };
    }

    fn ran<B: Listener>(&mut self, line: Line<'_>, session: &Session<B>) {
        let _ = eprintln!(self.rt; "line {}: after this run", line.number);
        for number in 0..u32::MAX {
            let Some((name, desk)) = session.subscription(number) else {
                return;
            };
            self.show(name, desk);
        }
    }
}

/// What is wrong with a line that was refused so, if it spells no command.
fn mistake_of<'a>(line: &'a [u8], refusal: &Refusal) -> Option<Mistake<'a>> {
    match refusal {
        Refusal::BadCommand => Mistake::find(line),
        _ => None,
    }
}
