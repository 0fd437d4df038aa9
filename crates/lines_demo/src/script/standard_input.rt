//! The script on standard input, and the subscribers for it.
ghost use Rattle.std.specs.Prelude.{◌≡◌, [], true, All, IfOk};

use super::explainer::Explainer;
use super::explaining::{Explain, Silent};
use super::fault::ScriptFault;
use super::run::{play_script, run_script};
use super::stock::shown;
use commands::OutputFault;
use flow_rules::{Collector, Subscriber, Tally};
use std::alloc::Global;
use std::io;
use std::io::{BufWriter, Read, Write};

/// How many subscribers a script has, and so how many times it may subscribe. A `sub` that was refused gives its
/// subscriber back.
const STOCK: usize = 1024;

/// What the subscribers of a script keep of what they are told.
#[derive(Clone, Copy)]
pub enum Keeping {
    /// All of it, as a `Collector` does.
    Everything,
    /// None of it, as a `Tally` does.
    Nothing,
}

/// Plays the script on standard input, and answers on standard output.
pub fn play_standard_input<R: Input + Print + AllocGlobal>(
    rt: &R,
    keeping: Keeping,
) -> Result<(), ScriptFault> {
    let alloc = rt.alloc();
    let mut reader = rt.reader();
    let mut writer = BufWriter::new(alloc, io::writer(rt)).map_err(|_| ScriptFault::Memory)?;
    let played = match keeping {
        Keeping::Everything => play_on_collectors(alloc, &mut reader, &mut writer),
        Keeping::Nothing => play_on_tallies(alloc, &mut reader, &mut writer, &mut Silent),
    };
    let flushed = writer.flush();
    played?;
    flushed.map_err(|error| OutputFault::of(error.kind()).into())
}

/// Plays the script on standard input, answers on standard output, and explains on standard error. Each answer is
/// written at once, so that it stands beside what explains it.
pub fn explain_standard_input<R: Input + Print + Eprint + AllocGlobal>(
    rt: &R,
    keeping: Keeping,
) -> Result<(), ScriptFault> {
    let alloc = rt.alloc();
    let mut reader = rt.reader();
    let mut writer = io::writer(rt);
    let mut explainer = Explainer::new(rt);
    match keeping {
        Keeping::Everything => {
            let collectors = steady_and_untold(alloc, collectors(alloc)?)?;
            let stock = shown(alloc, collectors).map_err(|_| ScriptFault::Memory)?;
            play_script(alloc, &mut reader, &mut writer, stock, &mut explainer)
        }
        Keeping::Nothing => play_on_tallies(alloc, &mut reader, &mut writer, &mut explainer),
    }
}

/// Subscribers that keep all that they are told, as many as a script has.
fn collectors(alloc: Global) -> Result<Vec<Collector>, ScriptFault> {
    let mut collectors = Vec::new(alloc);
    for _ in 0..STOCK {
        let collector = Collector::new(alloc);
        collectors.push(collector).map_err(|_| ScriptFault::Memory)?;
    }
    Ok(collectors)
}

/// Plays a script on subscribers that keep all that they are told.
fn play_on_collectors<R: Read, W: Write>(
    alloc: Global,
    reader: &mut R,
    writer: &mut W,
) -> Result<(), ScriptFault> {
    let mut collectors: Vec<Box<dyn Subscriber>> = Vec::new(alloc);
    for _ in 0..STOCK {
        let collector = Box::new(alloc, Collector::new(alloc)).map_err(|_| ScriptFault::Memory)?;
        collectors.push(collector).map_err(|_| ScriptFault::Memory)?;
    }
    run_script(alloc, reader, writer, steady_and_untold(alloc, collectors)?)
}

/// Plays a script on listeners that keep nothing.
fn play_on_tallies<R: Read, W: Write, E: Explain>(
    alloc: Global,
    reader: &mut R,
    writer: &mut W,
    explain: &mut E,
) -> Result<(), ScriptFault> {
    let mut tallies = Vec::new(alloc);
    for _ in 0..STOCK {
        tallies.push(Tally::new()).map_err(|_| ScriptFault::Memory)?;
    }
    play_script(alloc, reader, writer, tallies, explain)
}

/// Those of the subscribers that are steady and were told nothing, as a script needs them.
pub fn steady_and_untold<B: Subscriber>(
    alloc: Global,
    subscribers: Vec<B>,
) -> Result<Vec<B>, ScriptFault>
    ensures untold { IfOk result (λ stock. All (λ b. B.told b ≡ []) stock.items) }
    ensures steady { IfOk result (λ stock. All (λ b. B.is_steady b ≡ true) stock.items) }
{
    let mut stock = Vec::new(alloc);
    for subscriber in subscribers {
        if subscriber.steady() && subscriber.told().is_empty() {
            stock.push(subscriber).map_err(|_| ScriptFault::Memory)?;
        }
    }
    Ok(stock)
}
