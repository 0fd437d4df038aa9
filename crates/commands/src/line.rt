//! Lines: how bytes are cut at line feeds, and at other bytes.
ghost use Rattle.std.specs.Prelude.{◌≡◌, ◌==◌, ◌≤◌, ◌<◌, ◌+◌, length, position};
ghost use Rattle.std.specs.List.{before_first, after_first, position_or_len};
ghost use Rattle.commands.specs.Line.{is_line_feed, without_return};

/// The most bytes of a line of a command, without its line feed and the carriage return before it.
pub const LONGEST_LINE: usize = 4200;

/// The first line, without its line feed, and what follows it.
pub fn split_line(bytes: &[u8]) -> (&[u8], &[u8])
    requires { 0 < length bytes.now }
    ensures line { result.0.now ≡ before_first is_line_feed bytes.now }
    ensures rest { result.1.now ≡ after_first is_line_feed bytes.now }
    ensures shorter { length result.1.now < length bytes.now }
{
    split_at_byte(bytes, b'\n')
}

/// What stands before the first such byte and what stands after it; all and nothing where there is none.
pub fn split_at_byte(bytes: &[u8], separator: u8) -> (&[u8], &[u8])
    ensures before { result.0.now ≡ before_first (λ byte. byte == separator) bytes.now }
    ensures after { result.1.now ≡ after_first (λ byte. byte == separator) bytes.now }
    ensures shorter { 0 < length bytes.now → length result.1.now < length bytes.now }
{
    let at = place_of(bytes, separator);
    if at < bytes.len() {
        (&bytes[..at], &bytes[at + 1..])
    } else {
        (bytes, &[])
    }
}

/// The place of the first such byte, or the number of bytes where there is none.
fn place_of(bytes: &[u8], wanted: u8) -> usize
    ensures place { result ≡ position_or_len (λ byte. byte == wanted) bytes.now }
    ensures within { result ≤ length bytes.now }
{
    position_of(bytes, wanted).unwrap_or(bytes.len())
}

fn position_of(bytes: &[u8], wanted: u8) -> Option<usize>
    ensures { result ≡ position (λ byte. byte == wanted) bytes.now }
{
    bytes.iter().position(|byte| *byte == wanted)
}

/// The line without the carriage return that may end it.
pub fn strip_return(line: &[u8]) -> &[u8]
    ensures { result.now ≡ without_return line.now }
{
    match line.split_last() {
        Some((last, prefix)) if *last == b'\r' => prefix,
        _ => line,
    }
}
