//! Why a call of a Hub gives an item to nobody, as rows say it.
use flow_rules::{Ending, NoMemory, Refusal};

/// Why an item is given to nobody.
#[derive(Clone, Copy, PartialEq, Eq)]
pub enum Why {
    /// A buffer is full.
    Full,
    /// The Hub was closed in this way.
    Closed(Ending),
    /// It is refused with this number.
    Number(u32),
}

impl From<Refusal> for Why {
    fn from(refusal: Refusal) -> Why {
        match refusal {
            Refusal::Closed(ending) => Why::Closed(ending),
            other => Why::Number(other.number()),
        }
    }
}

impl From<NoMemory> for Why {
    fn from(_: NoMemory) -> Why {
        Why::Number(5)
    }
}
