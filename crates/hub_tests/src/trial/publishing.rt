//! Publications by a Hub, as rows call them.
ghost use Rattle.publisher_hub.specs.Hub.{hub_of};
ghost use Rattle.publisher_hub.specs.Sound.{IsSound};

use super::{Trial, Why, text_of};
use flow_rules::{Feed, NoMemory, Text};
use publisher_hub::{Need, Publication, Unpublished};
use std::alloc::Global;

impl<F: Feed> Trial<F> {
    /// What a publication of this many texts answers, or its second call if memory was refused to the first, which has
    /// changed nothing.
    pub(super) fn publish(&mut self, many: usize, need: Need) -> Result<Publication, Why>
        requires sound { IsSound (hub_of F.meaning self.old.hub) }
        ensures sound { IsSound (hub_of F.meaning self.new.hub) }
    {
        match self.publish_once(many, need) {
            Err(Why::Number(5)) => self.publish_once(many, need),
            answer => answer,
        }
    }

    /// What a publication of this many texts answers. No text is refused with 0.
    fn publish_once(&mut self, many: usize, need: Need) -> Result<Publication, Why>
        requires sound { IsSound (hub_of F.meaning self.old.hub) }
        ensures sound { IsSound (hub_of F.meaning self.new.hub) }
    {
        let texts = texts_of(self.alloc, many)?;
        if texts.is_empty() {
            return Err(Why::Number(0));
        }
        match self.hub.publish(0, texts.as_slice(), need, &mut self.due) {
            Ok(publication) => Ok(publication),
            Err(Unpublished::NoRoom) => Err(Why::Full),
            Err(Unpublished::Refused(refusal)) => Err(refusal.into()),
        }
    }
}

/// This many texts.
fn texts_of(alloc: Global, many: usize) -> Result<Vec<Text>, NoMemory> {
    let mut texts = Vec::new(alloc);
    for _ in 0..many {
        texts.push(text_of(alloc)?)?;
    }
    Ok(texts)
}
