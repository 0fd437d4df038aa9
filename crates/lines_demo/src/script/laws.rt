//! What holds of every script. Each law is a function, and to call it is to learn it: it speaks of the definition of
//! scripts, whatever the script is, whatever the stock has, and wherever memory is refused.
ghost use Rattle.std.specs.Prelude.{◌≡◌, ℕ, Bool, List, []};
ghost use Rattle.lines_demo.specs.Script.Laws.{OfEveryScript, script_state, KeepsFlow, IsSettledSession, TellsAllBeforeErrors, WakesWhoOwes, FewAreLive, OneLiveOfName, SerialsRiseIn, AgreesOnItems, TellsInOneOrder, CountsPublications};
ghost use Rattle.lines_demo.specs.Script.Running.{run_turns};

/// The law of scripts: what each subscriber was told by the end of the script is a list of signals that the Flow rules
/// allow. Its items are a prefix of what its buffer accepted, in that order, no more than were requested, and
/// `onComplete` comes only after all of them (Reactive Streams 1.0, rules 1.1, 1.3, 1.5, 1.7 and 1.9).
pub fn every_subscriber_is_told_what_flow_allows()
    ensures { OfEveryScript KeepsFlow }
{}

/// Nothing is forgotten: each subscriber that is not woken was told all that its demand and its ending allow.
pub fn scripts_forget_nothing()
    ensures { OfEveryScript IsSettledSession }
{}

/// In a script that began with `late`, each subscriber that was told the error that its publisher was closed with was
/// told all that its buffer accepted before.
pub fn late_errors_wait_for_the_items()
    ensures { OfEveryScript TellsAllBeforeErrors }
{}

/// A subscription is woken, once, just if its task was started and it has not ended.
pub fn who_owes_a_turn_is_woken()
    ensures { OfEveryScript WakesWhoOwes }
{}

/// At most 64 subscriptions are live.
pub fn few_subscriptions_are_live()
    ensures { OfEveryScript FewAreLive }
{}

/// At most one live subscription has a name.
pub fn a_name_has_one_live_subscription()
    ensures { OfEveryScript OneLiveOfName }
{}

/// A `run` makes turns until nobody is woken. With the laws above, nothing is forgotten after it, of no subscriber.
pub fn runs_leave_nobody_woken()
    ensures { (stock : ℕ) (refusals : List Bool) (bytes : List ℕ) (later : List Bool)
        → (run_turns (script_state stock refusals bytes) later).state.woken ≡ [] }
{}

/// Each item that a buffer accepted has a higher serial number than all that it accepted before, so none was accepted
/// twice. With the law of scripts, none was told twice, and those that were told were told in the order of their
/// publications.
pub fn every_buffer_has_rising_serial_numbers()
    ensures { OfEveryScript SerialsRiseIn }
{}

/// Items with one serial number are one item, whoever accepted them.
pub fn serial_numbers_name_items()
    ensures { OfEveryScript AgreesOnItems }
{}

/// Any two subscribers that were told the same two items were told them in the same order (`SubmissionPublisher`, Java
/// SE 17).
pub fn items_are_told_in_one_order()
    ensures { OfEveryScript TellsInOneOrder }
{}

/// What a subscription accepted was published since it subscribed. As long as it has not ended, that and what it
/// dropped is all that was published since.
pub fn publications_are_accepted_or_dropped()
    ensures { OfEveryScript CountsPublications }
{}
