//! How letters are noted.
use super::{Asking, Notes};
use flow_rules::{DropHandler, Item, Name, NoMemory};
use std::alloc::Global;
use std::sync::Arc;
use std::sync::atomic::{AtomicU64, Ordering};

impl Notes {
    /// Of no letter.
    pub fn new(alloc: Global) -> Result<Notes, NoMemory> {
        Ok(Notes {
            letters: Arc::new(alloc, AtomicU64::new(0))?,
        })
    }

    /// One more owner of the same letters.
    pub fn share(&self) -> Result<Notes, NoMemory> {
        Ok(Notes {
            letters: Arc::try_clone(&self.letters)?,
        })
    }

    /// A handler that gives these answers, and notes here whom it is asked about.
    pub fn handler(&self, answers: [bool; 3]) -> Result<Asking, NoMemory> {
        Ok(Asking {
            notes: self.share()?,
            answers,
            calls: 0,
        })
    }

    /// Notes one more letter.
    pub fn note(&self, letter: u8) {
        let before = self.letters.load(Ordering::SeqCst);
        self.letters
            .store(with_digit(before, letter), Ordering::SeqCst);
    }

    /// Whether these are the letters. They are forgotten then.
    pub fn take(&self, letters: &[u8]) -> bool {
        let mut number = 0;
        for letter in letters {
            number = with_digit(number, *letter);
        }
        self.letters.swap(0, Ordering::SeqCst) == number
    }
}

impl DropHandler for Asking {
    fn on_drop(&mut self, name: Name, _: &Item) -> bool {
        for letter in name.as_bytes() {
            self.notes.note(*letter);
        }
        let answer = self.answers.get(self.calls).copied();
        self.calls = self.calls.saturating_add(1);
        answer.unwrap_or(false)
    }
}

/// A number with one more digit to the base 128.
fn with_digit(number: u64, digit: u8) -> u64 {
    number.wrapping_mul(128).wrapping_add(u64::from(digit))
}
