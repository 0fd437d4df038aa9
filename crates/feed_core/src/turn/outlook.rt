//! What is to be done after a turn.
use flow_rules::How;

/// What is to be done for a subscription after a turn.
#[must_use]
#[derive(Clone, Copy, Debug, PartialEq, Eq)]
pub enum Outlook {
    /// Another turn is owed.
    Again,
    /// No turn is owed until something is signalled.
    Resting,
    /// The subscription has ended, and no turn is ever owed again.
    Ended(How),
}
