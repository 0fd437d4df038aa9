//! Ships lines: publishes each line of standard input on a subscription, whose subscriber writes it to standard output and knows the
//! longest. It holds one line and the items of the buffer, however many lines there are.
#![tactic(auto)]

ghost use Rattle.std.specs.Prelude.{◌≡◌, ◌+◌, ◌^◌, ◌<◌, []};
ghost use Rattle.feed_core.specs.LaneCalls.{IsCapacity};

use anyhow::ensure;
use feed_core::{Desk, Outlook, Seen};
use flow_rules::{Ending, Feed, Item, Listener, MOST_PUBLICATIONS, NoMemory, Put, Text, capacity};
use shipper::Shipper;
use std::alloc::Global;
use std::io;
use std::io::{BufRead, BufReader, BufWriter, Read, Write};

mod shipper;

/// Makes a subscription with room for so many items, whose subscriber requests all that will ever come.
fn subscribed<B: Listener>(
    alloc: Global,
    room: usize,
    subscriber: B,
    seen: &mut Seen,
) -> Result<Desk<B>, NoMemory>
    requires sized { IsCapacity room }
    requires untold { (B.told subscriber ≡ []) × (B.replied subscriber ≡ []) }
{
    match Desk::new(alloc, room, subscriber) {
        Ok(mut desk) => {
            // A call that starts the task answers so, and then its turns have to be run; a new subscription owes its first one anyhow.
            if desk.request(i64::MAX).is_some() || desk.owes() {
                serve(&mut desk, seen);
            }
            Ok(desk)
        }
        Err((refused, _)) => Err(refused),
    }
}

/// Runs the turns that a subscription owes, until it rests or has ended.
fn serve<B: Listener>(desk: &mut Desk<B>, seen: &mut Seen) {
    // The bound is there to show that the loop ends. Nobody owes that many turns.
    for _ in 0..u64::MAX {
        if !desk.owes() {
            return;
        }
        match desk.turn(seen) {
            Outlook::Again => {}
            Outlook::Resting | Outlook::Ended(_) => return,
        }
    }
}

/// Reads a line without its line feed, and no more of it than the longest text and one byte. The answer is whether there was one.
fn read_line<R: BufRead>(reader: &mut R, line: &mut Vec<u8>) -> io::Result<bool> {
    line.clear();
    let most = Text::LONGEST as u64 + 1;
    if Read::take(&mut *reader, most).read_until(b'\n', line)? == 0 {
        return Ok(false);
    }
    if line.last() == Some(&b'\n') {
        let _ = line.pop();
    }
    Ok(true)
}

/// Publishes an item, and runs the turns that this starts. False if it is not taken.
fn publish<B: Listener>(desk: &mut Desk<B>, seen: &mut Seen, item: Item) -> bool {
    if desk.accepted() >= MOST_PUBLICATIONS {
        return false;
    }
    match desk.put(item) {
        Put::Accepted { start, .. } => {
            if start.is_some() {
                serve(desk, seen);
            }
            true
        }
        Put::Full(_) | Put::Gone(_) => false,
    }
}

/// The item of a line, numbered from 0, which is refused where it has more bytes than a text may have.
fn item_of(alloc: Global, number: u64, line: &[u8]) -> anyhow::Result<Item>
    requires { number + 1 < 2 ^ 64 }
{
    ensure!(
        line.len() <= Text::LONGEST,
        "line {} has more than {} bytes",
        number + 1,
        Text::LONGEST
    );
    Ok(Item {
        source: 0,
        seq: number,
        serial: number,
        text: Text::new(alloc, line)?,
    })
}

/// Publishes each line, until there are no more or one could not be written.
fn publish_each<R: BufRead, W: Write + Send + Drop>(
    alloc: Global,
    reader: &mut R,
    desk: &mut Desk<Shipper<W>>,
    seen: &mut Seen,
) -> anyhow::Result<()> {
    let mut line = Vec::new(alloc);
    for number in 0..u64::MAX {
        if desk.subscriber().has_failed() || !read_line(reader, &mut line)? {
            break;
        }
        let item = item_of(alloc, number, line.as_slice())?;
        ensure!(
            publish(desk, seen, item),
            "line {} is not taken",
            number + 1
        );
    }
    Ok(())
}

/// Ends a subscription, and tells its subscriber all that is left.
fn end<B: Listener>(desk: &mut Desk<B>, seen: &mut Seen) {
    if desk.end(Ending::Normal).is_some() {
        serve(desk, seen);
    }
}

/// Ships each line of a reader to a writer, and answers the subscriber that wrote them. The lines before a wrong one are shipped, too.
fn ship<R: BufRead, W: Write + Send + Drop>(
    alloc: Global,
    reader: &mut R,
    writer: W,
) -> anyhow::Result<Shipper<W>> {
    let mut seen = Seen::new(alloc)?;
    let mut desk = subscribed(alloc, capacity(256)?, Shipper::new(writer), &mut seen)?;
    let published = publish_each(alloc, reader, &mut desk, &mut seen);
    end(&mut desk, &mut seen);
    let shipper = desk.into_subscriber();
    // Also if only the last flush failed, at the end of the subscription.
    ensure!(!shipper.has_failed(), "a line could not be written");
    published?;
    Ok(shipper)
}

fn main(rt: HostRuntime) -> anyhow::Result<()> {
    let alloc = rt.alloc();
    let mut reader = BufReader::new(alloc, rt.reader())?;
    let writer = BufWriter::new(alloc, io::writer(&rt))?;
    let shipper = ship(alloc, &mut reader, writer)?;
    eprintln!(rt; "the longest line has {} bytes", shipper.longest())?;
    Ok(())
}
