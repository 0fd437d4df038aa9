//! What holds of any Hub at any time. The law is a function, and to call it is to learn it.
ghost use Rattle.std.specs.Prelude.{◌≡◌, ℕ, Some, slice_get};
ghost use Rattle.publisher_hub.specs.Hub.{hub_of};
ghost use Rattle.publisher_hub.specs.Lending.{MayBecome, feed_at, with_feed};
ghost use Rattle.publisher_hub.specs.Sound.{IsSound};

use crate::hub::Hub;
use flow_rules::Feed;

/// Says that a sound Hub whose producer's end was lent by [`Hub::feed_mut`] is sound afterwards, if the end was left
/// with its capacity, what it accepted and how it was closed, and neither an item that was taken nor its end was taken
/// back, as by a request, a cancel or a turn. This holds of a retired subscription, too.
pub fn lent_feeds_keep_hubs_sound<F: Feed>(hub: &Hub<F>)
    requires { IsSound (hub_of F.meaning hub.now) }
    ensures { (number : ℕ) (before after : F) → feed_at hub.now number ≡ Some before
        → MayBecome (F.meaning before) (F.meaning after)
        → IsSound (hub_of F.meaning
        (with_feed hub.now number (slice_get hub.now.entries.items number) after)) }
{
    let _ = hub;
}
