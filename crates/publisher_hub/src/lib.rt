//! Many subscriptions behind one publisher, as plain state: who is subscribed, which serial number comes next, and what
//! became of each publication at each subscription.
//!
//! ```
//! let mut hub = Hub::new(alloc, 4)?;
//! let mut due = Vec::new(alloc);                                  // the tasks that calls start, for the caller to run
//! hub.may_subscribe(name, USUAL_LIVE, &mut due)?;
//! let entry = hub.admit(name, desk, None, USUAL_LIVE, &mut due)?; // 0
//! let source = hub.next_source()?;                                // 0
//! let done = hub.publish(source, &[text], Need::All, &mut due)?;  // 1 text, with lag 1
//! let opening = hub.end(Ending::Normal, &mut due)?;               // none was set
//! let second = hub.next_serial();                                 // 1
//! ```
#![tactic(auto)]

mod entry;
mod hub;
mod laws;
mod policy;
mod work;

pub use entry::AtClose;
pub use hub::{
    Facts, Figures, Hub, MOST_ENTRIES, MOST_LIVE, MOST_SOURCES, Publication, USUAL_LIVE,
    Unpublished,
};
pub use laws::lent_feeds_keep_hubs_sound;
pub use policy::{Need, OnFull, Published};
pub use work::Work;
