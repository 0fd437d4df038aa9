//! Arguments: the words of the command line, whatever bytes they have. Options are read from texts, so words that are no
//! UTF-8 are spelled with a character for each byte, and spelled back.
use commands::command_words;
use std::alloc::{AllocError, Global};
use std::env::FillError;
use std::rt::Env;

/// How much room the first try to read a word has. Each further one has twice as much.
const ROOM: usize = 256;

/// How often that is doubled, at most.
const MOST_TRIES: u32 = 24;

/// How the words of a command line stand in texts.
#[derive(Clone, Copy, PartialEq, Eq)]
pub enum Spelling {
    /// As they are.
    Utf8,
    /// Each byte as the character with its number.
    Bytes,
}

impl Spelling {
    /// The bytes of a word.
    pub fn bytes_of(self, alloc: Global, text: &str) -> Result<Vec<u8>, AllocError> {
        if self == Spelling::Utf8 {
            return Vec::from_slice(alloc, text.as_bytes());
        }
        let mut bytes = Vec::new(alloc);
        for character in text.chars() {
            bytes.push(u8::try_from(u32::from(character)).unwrap_or(b'?'))?;
        }
        Ok(bytes)
    }
}

/// The words of the command line, and how they are spelled.
pub fn all_words<R: Env + AllocGlobal>(rt: &R) -> Result<(Vec<String>, Spelling), AllocError> {
    match command_words(rt)? {
        Some(words) => Ok((words, Spelling::Utf8)),
        None => Ok((spelled_words(rt)?, Spelling::Bytes)),
    }
}

/// The words of the command line, with a character for each byte.
fn spelled_words<R: Env + AllocGlobal>(rt: &R) -> Result<Vec<String>, AllocError> {
    let mut words = Vec::new(rt.alloc());
    for number in 0..usize::MAX {
        match read_word(rt, number)? {
            Some(bytes) => words.push(spelled(rt.alloc(), bytes.as_slice())?)?,
            None => break,
        }
    }
    Ok(words)
}

/// The word of this number, if there is one.
fn read_word<R: Env + AllocGlobal>(rt: &R, number: usize) -> Result<Option<Vec<u8>>, AllocError> {
    let mut room = ROOM;
    for _ in 0..MOST_TRIES {
        let mut bytes = vec![in rt.alloc(); 0; room]?;
        match rt.arg(number, bytes.as_mut_slice()) {
            Ok(length) => {
                bytes.truncate(length);
                return Ok(Some(bytes));
            }
            Err(FillError::NotPresent) => return Ok(None),
            Err(FillError::TooLong) => room = room.saturating_mul(2),
        }
    }
    Err(AllocError)
}

/// These bytes, each as the character with its number.
fn spelled(alloc: Global, bytes: &[u8]) -> Result<String, AllocError> {
    let mut text = String::new(alloc);
    for byte in bytes {
        text.push(char::from(*byte))?;
    }
    Ok(text)
}
