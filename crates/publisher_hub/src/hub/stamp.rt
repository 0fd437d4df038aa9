//! What numbers an item before there is one: its text can then be shared without an item of its own.
ghost use Rattle.std.specs.Prelude.{◌≡◌, ◌+◌, ◌<◌, ◌≤◌, Some, slice_get, slice_set};
ghost use Rattle.flow_rules.specs.declared.item.TheConstants.{MOST_PUBLICATIONS};
ghost use Rattle.publisher_hub.specs.Hub.{hub_of};
ghost use Rattle.publisher_hub.specs.Offering.{item_of};
ghost use Rattle.publisher_hub.specs.Sound.{IsSound};

use crate::hub::{Hub, MOST_SOURCES};
use flow_rules::{Feed, Item, Text};

/// The source of an item, and its numbers.
#[derive(Clone, Copy)]
pub(crate) struct Stamp {
    /// The number of the source that sends it.
    pub source: u32,
    /// Its number among the items of its source.
    pub seq: u64,
    /// Its number among all publications.
    pub serial: u64,
}

impl Stamp {
    /// Makes the item with this text.
    #[inline(always)]
    pub fn item(self, text: Text) -> Item
        ensures { result ≡ item_of self text }
    {
        Item {
            source: self.source,
            seq: self.seq,
            serial: self.serial,
            text,
        }
    }
}

impl<F: Feed> Hub<F> {
    /// Numbers the next item of a source.
    pub(super) fn next_stamp(&self, source: u32) -> Stamp
        requires sound { IsSound (hub_of F.meaning self.now) }
        requires source { source < MOST_SOURCES }
        ensures source { result.source ≡ source }
        ensures serial { result.serial ≡ (hub_of F.meaning self.now).progress.next }
        ensures seq { slice_get (hub_of F.meaning self.now).progress.counts source
            ≡ Some result.seq }
    {
        Stamp {
            source,
            seq: self.counts[source as usize],
            serial: self.next,
        }
    }

    /// Counts this many more publications, of which the first has this stamp.
    pub(super) fn count(&mut self, stamp: Stamp, many: usize)
        requires there { slice_get self.old.counts.items stamp.source ≡ Some stamp.seq }
        requires few { self.old.next + many ≤ MOST_PUBLICATIONS }
        requires few_of_source { stamp.seq + many ≤ MOST_PUBLICATIONS }
        ensures rest { hub_of F.meaning self.new ≡ record (hub_of F.meaning self.old) {
          progress = record (hub_of F.meaning self.old).progress {
            next = self.old.next + many;
            counts = slice_set self.old.counts.items stamp.source (stamp.seq + many);
          };
        } }
        ensures entries { self.new.entries ≡ self.old.entries }
        ensures gathering { self.new.gathering ≡ self.old.gathering }
    {
        self.next += many as u64;
        self.counts[stamp.source as usize] = stamp.seq + many as u64;
    }
}
