//! The table of events, read a second time, line by line and as plainly as can be.
use super::MADE;
use feed_core::Causes;
use feed_core::world::{Cause, Event, Parts, Producing, Requesting, Runner, Side};
use flow_rules::{Answer, Ending, ErrorOrder, Fault, How, UNBOUNDED};

/// What there is after an event, if it is possible.
pub(super) fn next(now: Option<Parts>, event: Event) -> Option<Parts> {
    match (now, event) {
        (None, Event::Make(capacity @ (1 | 2 | 4), order)) => {
            let causes = Causes {
                order,
                ..MADE.causes
            };
            Some(Parts {
                capacity,
                causes,
                ..MADE
            })
        }
        (None, _) => None,
        (Some(now), Event::Signal(side, cause)) => signal(now, side, cause),
        (Some(now), Event::End(how)) => end(now, how),
        (Some(now), event) => match of_a_side(now, event) {
            None => of_the_runner(now, event),
            then => then,
        },
    }
}

/// Lines of the producer and of the handle, but for signals.
fn of_a_side(now: Parts, event: Event) -> Option<Parts> {
    let is_over = matches!(now.runner, Runner::Over(_));
    let held = now.accepted.saturating_sub(now.given);
    match (event, now.producer, now.handle) {
        (Event::Room, Producing::Free | Producing::HasRoom, _) => Some(Parts {
            producer: if is_over || held >= now.capacity as u64 {
                Producing::Free
            } else {
                Producing::HasRoom
            },
            ..now
        }),
        (Event::Put, Producing::HasRoom, _) if now.causes.closing == None => Some(Parts {
            accepted: now.accepted.saturating_add(1),
            producer: Producing::HasPut,
            ..now
        }),
        (Event::PutMore, Producing::HasPut, _)
            if now.causes.closing == None && held < now.capacity as u64 => {
            Some(Parts {
                accepted: now.accepted.saturating_add(1),
                ..now
            })
        }
        (Event::Ask(n), _, Requesting::Idle) if n != 0 => Some(Parts {
            asked: UNBOUNDED.min(now.asked.saturating_add(n)),
            handle: Requesting::HasAsked,
            ..now
        }),
        (Event::Hand(Side::Producer), Producing::Hands, _) => Some(Parts {
            producer: Producing::Free,
            runner: Runner::Ready,
            ..now
        }),
        (Event::Hand(Side::Handle), _, Requesting::HandsOver) => Some(Parts {
            handle: Requesting::Idle,
            runner: Runner::Ready,
            ..now
        }),
        _ => None,
    }
}

/// Lines of the runner, but for its end.
fn of_the_runner(now: Parts, event: Event) -> Option<Parts> {
    match (event, now.runner) {
        (Event::Look(answer), _) => look(now, answer, false),
        (Event::Peek(answer), _) => look(now, answer, now.active),
        (Event::See, Runner::Looked(causes)) if first_end(causes) == None => Some(Parts {
            runner: Runner::Saw(causes, now.accepted),
            known_put: now.accepted,
            ..now
        }),
        (Event::Measure, Runner::Saw(causes, put)) => {
            let asked = UNBOUNDED.min(now.asked.saturating_add(now.own));
            Some(Parts {
                runner: Runner::Measured(causes, put, asked),
                known_asked: now.asked,
                ..now
            })
        }
        (Event::TakeKnown, Runner::Looked(causes)) if first_end(causes) == None => {
            let asked = UNBOUNDED.min(now.known_asked.saturating_add(now.own));
            if now.given < now.known_put.min(asked) {
                Some(Parts {
                    given: now.given.saturating_add(1),
                    runner: Runner::Taken,
                    ..now
                })
            } else {
                None
            }
        }
        (Event::Take, Runner::Measured(_, put, asked)) if now.given < put.min(asked) => Some(
            Parts {
                given: now.given.saturating_add(1),
                runner: Runner::Taken,
                ..now
            },
        ),
        (Event::Rest, Runner::Measured(causes, put, asked)) if now.given >= put.min(asked) => {
            if last_end(causes) != None && now.given == put {
                None
            } else {
                Some(rest(now))
            }
        }
        _ => None,
    }
}

/// A look or a peek after this answer, if it is possible. Something is new after it or not.
fn look(now: Parts, answer: Answer, active: bool) -> Option<Parts> {
    let (own, causes) = match (answer, now.runner) {
        (Answer::Go, Runner::Fresh | Runner::Ready | Runner::Taken | Runner::Measured(_, _, _)) => (
            now.own, now.causes,
        ),
        (Answer::Request(n), Runner::Fresh | Runner::Taken) if n <= 0 => {
            let causes = Causes {
                argument: true,
                ..now.causes
            };
            (now.own, causes)
        }
        (Answer::Request(n), Runner::Fresh | Runner::Taken) => {
            let own = UNBOUNDED.min(now.own.saturating_add(n.unsigned_abs()));
            (own, now.causes)
        }
        _ => return None,
    };
    Some(Parts {
        own,
        causes,
        active,
        runner: Runner::Looked(causes),
        ..now
    })
}

/// A rest that is due: it fails where a signal was made since the look.
fn rest(now: Parts) -> Parts {
    Parts {
        runner: if now.active {
            Runner::Ready
        } else {
            Runner::Nobody
        },
        ..now
    }
}

/// Lines of signals.
fn signal(now: Parts, side: Side, cause: Option<Cause>) -> Option<Parts> {
    let is_free = now.producer == Producing::Free || now.producer == Producing::HasRoom;
    let is_idle = now.handle == Requesting::Idle;
    let old = now.causes;
    let (is_possible, causes) = match (side, cause) {
        (Side::Producer, None) => (now.producer == Producing::HasPut, old),
        (Side::Handle, None) => (now.handle == Requesting::HasAsked, old),
        (Side::Producer, Some(Cause::State)) => (is_free, Causes { state: true, ..old }),
        (Side::Producer, Some(Cause::Closing(ending))) => {
            let closing = Some(ending);
            (is_free && old.closing == None, Causes { closing, ..old })
        }
        (Side::Handle, Some(Cause::Cancel)) => (
            is_idle,
            Causes {
                cancel: true,
                ..old
            },
        ),
        (Side::Handle, Some(Cause::Argument)) => (
            is_idle,
            Causes {
                argument: true,
                ..old
            },
        ),
        _ => (false, old),
    };
    if !is_possible {
        return None;
    }
    let mut then = Parts {
        causes,
        active: true,
        ..now
    };
    match (side, now.runner) {
        (Side::Producer, Runner::Nobody) => then.producer = Producing::Hands,
        (Side::Handle, Runner::Nobody) => then.handle = Requesting::HandsOver,
        (Side::Producer, _) => then.producer = Producing::Free,
        (Side::Handle, _) => then.handle = Requesting::Idle,
    }
    if now.runner == Runner::Nobody {
        then.runner = Runner::Coming;
    }
    Some(then)
}

/// Lines of ends.
fn end(now: Parts, how: How) -> Option<Parts> {
    let is_possible = match (now.runner, how) {
        (Runner::Fresh | Runner::Taken, How::Cancelled | How::Failed(_) | How::OutOfMemory) => true,
        (Runner::Looked(causes), How::OutOfMemory) => {
            !causes.cancel && first_end(causes) != None
        }
        (Runner::Looked(causes), how) => first_end(causes) == Some(how),
        (Runner::Measured(causes, put, _), How::OutOfMemory) => {
            last_end(causes) != None && now.given == put
        }
        (Runner::Measured(causes, put, _), how) => {
            last_end(causes) == Some(how) && now.given == put
        }
        _ => false,
    };
    if !is_possible {
        return None;
    }
    let mut then = Parts {
        runner: Runner::Over(how),
        ..now
    };
    match how {
        How::Cancelled => then.causes.cancel = true,
        How::Failed(code) => then.causes.failed = Some(code),
        How::OutOfMemory => then.causes.memory = true,
        How::Completed | How::Errored(_) => {}
    }
    Some(then)
}

/// The end at once of these causes.
fn first_end(causes: Causes) -> Option<How> {
    match causes {
        Causes { cancel: true, .. } => Some(How::Cancelled),
        Causes { argument: true, .. } => Some(How::Errored(Fault::IllegalArgument)),
        Causes { state: true, .. } => Some(How::Errored(Fault::IllegalState)),
        Causes {
            order: ErrorOrder::Overtake,
            closing: Some(Ending::Failed(code)),
            ..
        } => Some(How::Errored(Fault::Published(code))),
        _ => None,
    }
}

/// The end of these causes that waits for the items.
fn last_end(causes: Causes) -> Option<How> {
    match (causes.closing, causes.order) {
        (Some(Ending::Normal), _) => Some(How::Completed),
        (Some(Ending::Failed(code)), ErrorOrder::AfterItems) => {
            Some(How::Errored(Fault::Published(code)))
        }
        _ => None,
    }
}
