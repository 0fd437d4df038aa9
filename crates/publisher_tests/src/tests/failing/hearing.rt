//! How often a handler hears, and of whom.
ghost use Rattle.publisher.specs.Blanks.{AreBlanksOf};

use flow_rules::{Answer, FailHandler, Name};
use publisher::{BlankPair, Ledgers, Outcome};
use std::alloc::Global;
use std::sync::Wait;
use std::test::Fail;
use std::thread::Threads;
use test_kit::Answering;
use test_stand::Stand;

// Keeps the names of all failures.
#[derive(Drop)]
struct Hears {
    names: Vec<Name>,
    last: Option<(Name, u32)>,
}

impl FailHandler for Hears {
    ghost last = { λ h. h.last };

    fn on_fail(&mut self, name: Name, code: u32) {
        let _ = self.names.push(name);
        self.last = Some((name, code));
    }

    fn last(&self) -> Option<(Name, u32)> {
        self.last
    }
}

impl Hears {
    // How often it heard, of how many names again, and which code last.
    fn report(&self, alloc: Global) -> Result<String, Fail> {
        let times = self.names.len();
        let again = count_repeated(&self.names);
        match self.last {
            Some((_, code)) => Ok(format!(in alloc; "{times} times, {again} again, last {code}")?),
            None => Ok(format!(in alloc; "{times} times")?),
        }
    }
}

// How many names stand among those before them.
fn count_repeated(names: &[Name]) -> usize {
    let mut repeated: usize = 0;
    for place in 0..names.len() {
        if names[..place].iter().any(|name| *name == names[place]) {
            repeated = repeated.saturating_add(1);
        }
    }
    repeated
}

// What the handler hears of this many subscribers, each of which requests one item and gives this answer after this
// many callbacks, when five items are published.
pub fn hear<L: Ledgers + Send + Sync + 'static, R: Threads + Wait + Copy + Send + 'static>(
    rt: R,
    alloc: Global,
    blanks: BlankPair,
    workers: usize,
    subscribers: u32,
    callbacks: u32,
    answer: Answer,
) -> Result<String, Fail>
    requires blanks { AreBlanksOf blanks L.publications L.drops L.history }
{
    let hears = Hears {
        names: Vec::new(alloc),
        last: None,
    };
    let made = Stand::with_handler(rt, alloc, blanks, workers, hears);
    let mut stand: Stand<L, Answering, Hears> = made?;
    let published = publish_to_each(&rt, &mut stand, subscribers, callbacks, answer);
    let Outcome { handler, .. } = stand.end(&rt);
    published?;
    match handler {
        Some(hears) => hears.report(alloc),
        None => Err(Fail::new("there is no handler")),
    }
}

fn publish_to_each<L: Ledgers + Send + Sync + 'static, R: Wait>(
    rt: &R,
    stand: &mut Stand<L, Answering, Hears>,
    subscribers: u32,
    callbacks: u32,
    answer: Answer,
) -> Result<(), Fail> {
    for number in 0..subscribers {
        let name = format!(in stand.alloc; "s{number}")?;
        stand.subscribe(rt, name.as_str(), Answering::after(callbacks, answer))?;
        stand.request(rt, number as usize, 1)?;
    }
    for text in [b"v", b"w", b"x", b"y", b"z"] {
        stand.submit(rt, text)?;
    }
    Ok(())
}
