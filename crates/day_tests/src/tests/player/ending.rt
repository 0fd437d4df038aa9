//! The end of a publisher.
ghost use Rattle.std.specs.Prelude.{◌≡◌};

use super::Player;
use crate::tests::heard::Heard;
use crate::tests::left::outcome_lines;
use flow_rules::NoMemory;
use publisher::{Ledgers, Subscription};
use std::sync::Wait;
use std::sync::atomic::Ordering::SeqCst;
use std::test::Fail;

impl<L: Ledgers + Send + Sync + 'static> Player<L> {
    // What is left, and how many signals come of a request of each subscription that was kept.
    pub fn end<R: Wait>(self, rt: &R) -> Result<Vec<String>, Fail> {
        let Player {
            stand,
            kept_submitters,
            kept_subscriptions,
            told,
            amid,
            may_be_refused,
            ..
        } = self;
        let alloc = stand.alloc;
        let mut lines = match stand.finish(rt) {
            Ok(outcome) => outcome_lines(alloc, "done", &outcome, amid, may_be_refused)?,
            Err(refused) => {
                let (refusal, outcome) = refused.into_parts();
                let why = format!(in alloc; "{refusal:?}")?;
                outcome_lines(alloc, &why, &outcome, amid, may_be_refused)?
            }
        };
        drop(kept_submitters);
        for mut kept in kept_subscriptions {
            let before = told.load(SeqCst);
            request_of(rt, &mut kept, i64::MAX)?;
            let later = told.load(SeqCst).saturating_sub(before);
            lines.push(format!(in alloc; "later {later}")?)?;
        }
        Ok(lines)
    }
}

// Requests this many items, a second time if memory was refused.
pub fn request_of<L: Ledgers + Send + Sync + 'static, R: Wait>(
    rt: &R,
    subscription: &mut Subscription<L, Heard>,
    n: i64,
) -> Result<(), NoMemory> {
    if subscription.request(rt, n).is_err() {
        subscription.request(rt, n)?;
    }
    Ok(())
}
