//! What a subscription says of publications that find its buffer full, and whose room a publication needs. What a Hub
//! does by it stands in hub/publish.rt.
ghost use Rattle.std.specs.Prelude.{◌≡◌};
ghost use Rattle.publisher_hub.specs.Policy.{waits};

/// What becomes of an item that finds the buffer of a subscription full, if its publication needs the room of
/// [`Need::Waiters`] alone. A subscription says it once, when it is added.
#[derive(Clone, Copy, Debug, PartialEq, Eq)]
pub enum OnFull {
    /// It is published to nobody until there is room: this subscription loses nothing.
    Wait,
    /// This subscription loses it, and the loss is counted: nobody waits for its buffer.
    Drop,
}

impl OnFull {
    /// Says whether a publication waits for room.
    pub fn waits(self) -> bool
        ensures { result ≡ waits self }
    {
        match self {
            OnFull::Wait => true,
            OnFull::Drop => false,
        }
    }
}

/// Whose room a publication needs.
#[derive(Clone, Copy, Debug, PartialEq, Eq)]
pub enum Need {
    /// That of all live subscriptions.
    All,
    /// That of those that say [`OnFull::Wait`].
    Waiters,
}

/// What a publication that heeds each subscription's [`OnFull`] did.
#[derive(Clone, Copy, Debug, PartialEq, Eq)]
pub struct Published {
    /// The greatest lag of a subscription that accepted the item, in items, and 0 if none did.
    pub lag: u64,
    /// How many subscriptions lost the item.
    pub dropped: u32,
}
