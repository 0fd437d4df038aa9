//! How a file's name stands in a report, whatever bytes it has.
use std::fmt::Write;
use std::{fmt, str};

/// A name in a line of text: control characters, and bytes that are no UTF-8, stand as a backslash and letters, so that none
/// ends the line or reaches a terminal.
#[derive(Clone, Copy)]
pub struct NameText<'a>(pub &'a [u8]);

/// A name in JSON, without the quotation marks around it.
#[derive(Clone, Copy)]
pub struct JsonText<'a>(pub &'a [u8]);

/// A name as a field of CSV.
#[derive(Clone, Copy)]
pub struct CsvText<'a>(pub &'a [u8]);

impl fmt::Display for NameText<'_> {
    fn fmt<W: fmt::Write>(&self, f: &mut fmt::Formatter<W>) -> fmt::Result {
        let Ok(text) = str::from_utf8(self.0) else {
            return write!(f, "{}", self.0.escape_ascii());
        };
        for character in text.chars() {
            if character.is_control() {
                add_control(f, character)?;
            } else {
                f.write_char(character)?;
            }
        }
        Ok(())
    }
}

/// Adds a control character as a backslash and letters.
fn add_control<W: fmt::Write>(f: &mut fmt::Formatter<W>, character: char) -> fmt::Result {
    match u8::try_from(u32::from(character)) {
        Ok(byte) if byte.is_ascii() => write!(f, "{}", byte.escape_ascii()),
        _ => write!(f, "{}", character.escape_unicode()),
    }
}

impl fmt::Display for JsonText<'_> {
    fn fmt<W: fmt::Write>(&self, f: &mut fmt::Formatter<W>) -> fmt::Result {
        for chunk in self.0.utf8_chunks() {
            for character in chunk.valid().chars() {
                add_json(f, character)?;
            }
            if !chunk.invalid().is_empty() {
                f.write_char(char::REPLACEMENT_CHARACTER)?;
            }
        }
        Ok(())
    }
}

/// Adds a character in JSON.
fn add_json<W: fmt::Write>(f: &mut fmt::Formatter<W>, character: char) -> fmt::Result {
    match character {
        '"' => f.write_str("\\\""),
        '\\' => f.write_str("\\\\"),
        other if other < ' ' => {
            let code = other as u32;
            write!(f, "\\u{code:04x}")
        }
        other => f.write_char(other),
    }
}

impl fmt::Display for CsvText<'_> {
    fn fmt<W: fmt::Write>(&self, f: &mut fmt::Formatter<W>) -> fmt::Result {
        f.write_char('"')?;
        for chunk in self.0.utf8_chunks() {
            for character in chunk.valid().chars() {
                if character == '"' {
                    f.write_char('"')?;
                }
                f.write_char(character)?;
            }
            if !chunk.invalid().is_empty() {
                f.write_char(char::REPLACEMENT_CHARACTER)?;
            }
        }
        f.write_char('"')
    }
}
