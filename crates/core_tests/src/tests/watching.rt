//! What a watch is called with, and what its listener answers.
use super::listeners::{Answers, call_each};
use flow_rules::{Answer, Fault, Item, Listener, Watch, Watching};
use std::test::Fail;

/// Adds up the bytes of the texts, a few items at a time. The comment of `Watch` has it.
#[derive(Drop)]
struct Bytes(u64);

impl Watch for Bytes {
    fn on_start(&mut self) -> Answer {
        Answer::Request(8)
    }

    fn on_item(&mut self, item: &Item) -> Answer {
        self.0 = self.0.saturating_add(item.text.len() as u64);
        Answer::Request(1)
    }

    fn on_end(&mut self, _fault: Option<Fault>) {}
}

/// Writes a letter for each call.
#[derive(Drop)]
struct Letters(Vec<u8>);

impl Letters {
    fn note(&mut self, letter: u8) -> Answer {
        match self.0.push(letter) {
            Ok(()) => Answer::Go,
            Err(_) => Answer::Fail(1),
        }
    }
}

impl Watch for Letters {
    fn on_start(&mut self) -> Answer {
        self.note(b's')
    }

    fn on_item(&mut self, item: &Item) -> Answer {
        match item.text.as_bytes().first() {
            Some(letter) => self.note(*letter),
            None => Answer::Cancel,
        }
    }

    fn on_end(&mut self, fault: Option<Fault>) {
        self.note(match fault {
            None => b'c',
            Some(Fault::Published(7)) => b'e',
            Some(_) => b'?',
        });
    }
}

#[test]
fn a_watch_is_called_at_each_signal(rt: HostRuntime) -> Result<(), Fail> {
    let alloc = rt.alloc();
    let mut listener = Watching::new(Letters(Vec::new(alloc)));
    let _ = call_each(alloc, &mut listener)?;
    assert!(rt; listener.watch().0.as_slice() == b"sxyce".as_slice());
    assert!(rt; listener.into_watch().0.as_slice() == b"sxyce".as_slice());
    Ok(())
}

#[test]
fn a_watching_answers_what_its_watch_does(rt: HostRuntime) -> Result<(), Fail> {
    let wanted: Answers = [
        Ok(Answer::Request(8)),
        Ok(Answer::Request(1)),
        Ok(Answer::Request(1)),
        Ok(Answer::Go),
        Ok(Answer::Go),
    ];
    let mut listener = Watching::new(Bytes(0));
    assert!(rt; call_each(rt.alloc(), &mut listener)? == wanted);
    assert!(rt; listener.into_watch().0 == 2);
    Ok(())
}

/// Takes a listener as a publisher does.
fn taken<B: Listener + Send + 'static>(listener: B) -> B {
    listener
}

#[test]
fn a_boxed_listener_may_go_to_another_thread(rt: HostRuntime) -> Result<(), Fail> {
    let alloc = rt.alloc();
    let boxed: Box<dyn Listener + Send> = Box::new(alloc, Watching::new(Bytes(0)))?;
    let mut boxed = taken(boxed);
    let [first, next, _, last, _] = call_each(alloc, &mut boxed)?;
    assert!(rt; first == Ok(Answer::Request(8)));
    assert!(rt; next == Ok(Answer::Request(1)) && last == Ok(Answer::Go));
    Ok(())
}
