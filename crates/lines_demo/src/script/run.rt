//! The script of a reader, played whole.
ghost use Rattle.std.specs.Prelude.{◌≡◌, ◌<◌, [], true, All, length, IfSome};
ghost use Rattle.lines_demo.specs.declared.reader.TheConstants.{LONGEST_INPUT};
ghost use Rattle.lines_demo.specs.Script.RunScript.{PlaysScript, StopsReading};

use super::explaining::{Explain, Silent};
use super::fault::ScriptFault;
use super::player::Player;
use super::stock::shown;
use crate::reader::read_whole;
use flow_rules::{Listener, Subscriber};
use std::alloc::Global;
use std::io::{Read, Write};

/// Plays the script that the reader gives, and writes the answers. What is written is a function of the bytes that were
/// read, of the number of subscribers in the stock, and of the points at which memory was refused. The whole script is
/// read before its first line is played; one of more than 16,777,216 bytes is too long. The subscribers of the stock
/// are steady and were told nothing; `sub` takes the first.
///
/// After a fault of writing or of memory a prefix of the answers was written, and after one of reading, or if the
/// script is too long, nothing.
pub fn run_script<R: Read, W: Write>(
    alloc: Global,
    reader: &mut R,
    writer: &mut W,
    stock: Vec<Box<dyn Subscriber>>,
) -> Result<(), ScriptFault>
    requires untold { All (λ b. told b ≡ []) stock.items }
    requires steady { All (λ b. is_steady b ≡ true) stock.items }
    ensures plays { PlaysScript result (length stock.items) (R.remaining reader.old)
        (W.contents writer.old) (W.contents writer.new) }
    ensures too_long { IfSome (R.remaining reader.old)
        (λ known. LONGEST_INPUT < length known → StopsReading result) }
{
    play_subscribers::<R, W, Box<dyn Subscriber>>(alloc, reader, writer, stock)
}

/// Plays the script that the reader gives on subscribers of one kind.
fn play_subscribers<R: Read, W: Write, S: Subscriber>(
    alloc: Global,
    reader: &mut R,
    writer: &mut W,
    subscribers: Vec<S>,
) -> Result<(), ScriptFault>
    requires untold { All (λ s. S.told s ≡ []) subscribers.items }
    requires steady { All (λ s. S.is_steady s ≡ true) subscribers.items }
    ensures plays { PlaysScript result (length subscribers.items) (R.remaining reader.old)
        (W.contents writer.old) (W.contents writer.new) }
    ensures too_long { IfSome (R.remaining reader.old)
        (λ known. LONGEST_INPUT < length known → StopsReading result) }
{
    let Ok(stock) = shown(alloc, subscribers) else {
        return Err(ScriptFault::Memory);
    };
    play_script(alloc, reader, writer, stock, &mut Silent)
}

/// Plays the script that the reader gives on subscribers of one kind, and has it explained. What is written is the same
/// whoever explains.
pub fn play_script<R: Read, W: Write, B: Listener, E: Explain>(
    alloc: Global,
    reader: &mut R,
    writer: &mut W,
    stock: Vec<B>,
    explain: &mut E,
) -> Result<(), ScriptFault>
    requires untold { All (λ b. (B.told b ≡ []) × (B.replied b ≡ [])) stock.items }
    requires steady { All (λ b. B.is_steady b ≡ true) stock.items }
    ensures plays { PlaysScript result (length stock.items) (R.remaining reader.old)
        (W.contents writer.old) (W.contents writer.new) }
    ensures too_long { IfSome (R.remaining reader.old)
        (λ known. LONGEST_INPUT < length known → StopsReading result) }
{
    let bytes = read_whole(alloc, reader)?;
    let Ok(mut player) = Player::new(alloc, stock) else {
        return Err(ScriptFault::Memory);
    };
    player.play_lines(bytes.as_slice(), writer, explain)?;
    Ok(())
}
