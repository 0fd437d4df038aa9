//! The end that subscribes: it hands over what it is told. It requests nothing by itself.
use crate::arrivals::{Arrivals, how_of};
use flow_rules::{Answer, Fault, How, Item, Watch};
use std::sync::{Arc, Wait};

/// The subscriber of an inbox. It ends its subscription with [`NO_ROOM`](Inlet::NO_ROOM) if more items were requested
/// than its inbox did, and with [`NO_MEMORY`](Inlet::NO_MEMORY) if it is refused memory for a text of more than 30
/// bytes.
#[derive(Drop)]
pub struct Inlet<R> {
    rt: R,
    arrivals: Arc<Arrivals>,
}

impl<R> Inlet<R> {
    /// The code of a failure by more items than the inbox has requested.
    pub const NO_ROOM: u32 = 4;

    /// The code of a failure by refused memory.
    pub const NO_MEMORY: u32 = 5;

    /// Makes one that hands over what it is told.
    pub(crate) fn new(rt: R, arrivals: Arc<Arrivals>) -> Inlet<R> {
        Inlet { rt, arrivals }
    }
}

impl<R: Wait + Copy> Watch for Inlet<R> {
    fn on_start(&mut self) -> Answer {
        Answer::Go
    }

    fn on_item(&mut self, item: &Item) -> Answer {
        let code = match item.share() {
            Ok(item) => {
                if self.arrivals.put(&self.rt, item) {
                    return Answer::Go;
                }
                Inlet::<R>::NO_ROOM
            }
            Err(_) => Inlet::<R>::NO_MEMORY,
        };
        self.arrivals.end(&self.rt, How::Failed(code));
        Answer::Fail(code)
    }

    fn on_end(&mut self, fault: Option<Fault>) {
        self.arrivals.end(&self.rt, how_of(fault));
    }
}
