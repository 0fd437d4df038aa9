//! An item: what a publisher hands on.
ghost use Rattle.std.specs.Prelude.{◌≡◌, ◌≤◌, IfOk, IsOk, length};
ghost use Rattle.flow_rules.specs.declared.text.TheConstants.Text.{LONGEST_INSIDE};

use crate::refusal::NoMemory;
use crate::text::Text;

/// How many publications there may be: their serial numbers are 0 to 2^62 - 1.
pub const MOST_PUBLICATIONS: u64 = 1 << 62;

/// What a publisher hands on. Items are equal if all four parts are.
#[derive(Debug, Drop, PartialEq, Eq)]
pub struct Item {
    /// The number of the source that sent it.
    pub source: u32,
    /// Its number among the items of its source, from 0 on.
    pub seq: u64,
    /// Its number among all publications, from 0 on.
    pub serial: u64,
    /// What it says.
    pub text: Text,
}

impl Item {
    /// An equal item, which shares the text. It may be refused, as any growth, if the text has more than
    /// [`Text::LONGEST_INSIDE`] bytes.
    pub fn share(&self) -> Result<Item, NoMemory>
        ensures same { IfOk result (λ item. item ≡ self.now) }
        ensures not_refused { length self.now.text ≤ LONGEST_INSIDE → IsOk result }
    {
        Ok(Item {
            source: self.source,
            seq: self.seq,
            serial: self.serial,
            text: self.text.share()?,
        })
    }
}
