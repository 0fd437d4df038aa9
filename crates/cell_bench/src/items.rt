//! The items of a run. They are made before it, and share one text.
use flow_rules::{Item, NoMemory, Text};
use std::alloc::Global;

/// Makes this many items, with serial numbers from 0.
pub fn items_of(alloc: Global, count: u64) -> Result<Vec<Item>, NoMemory> {
    let text = Text::new(alloc, b"x")?;
    let mut items = Vec::new(alloc);
    for serial in 0..count {
        items.push(Item {
            source: 0,
            seq: serial,
            serial,
            text: text.share()?,
        })?;
    }
    Ok(items)
}
