//! The four words of a subscription, and where they lie in its table.
//!
//! A step takes the cache line of its word away from the other processors. With a small buffer the producer and the task
//! wait for one another at almost every item, and need all words then: these lie side by side, in one line or two. An
//! allocation is aligned to 16 bytes, so 48 unused bytes before and after them keep all other values, such as the first
//! slot, off their lines. With a larger buffer each works on its own word most of the time: head and tail lie 128 bytes
//! from one another and from the two others, since processors fetch lines in pairs.
ghost use Rattle.std.specs.Prelude.{◌≡◌, ◌<◌, true, false};
ghost use Rattle.feed_cell.specs.WordPlaces.{place, place_in, word_count, words_by};

use super::RUN;

/// A word of a subscription.
#[derive(Clone, Copy, Debug, PartialEq, Eq)]
pub enum Word {
    /// How many items were taken. Bit 63 says that the subscription has ended.
    Head,
    /// How many items were put.
    Tail,
    /// How many items the handle requested. Bit 63 says that the handle makes no step any more.
    Asked,
    /// The marks and causes.
    Control,
}

/// From this capacity on the words lie apart.
pub(crate) const APART_FROM: u64 = 32;

/// What the words are at first, side by side: nothing was taken, put or asked for, and the task is started. The words
/// around the four are never touched.
pub(crate) const CLOSE_WORDS: [u64; 16] = [0, 0, 0, 0, 0, 0, 0, 0, 0, RUN, 0, 0, 0, 0, 0, 0];

/// The same, apart. The rest is never touched.
pub(crate) const APART_WORDS: [u64; 48] = [
    0, 0, 0, 0, 0, 0, 0, 0, 0, 0, 0, 0, 0, 0, 0, 0, 0, 0, 0, 0, 0, 0, 0, 0, 0, 0, 0, 0, 0, 0, 0, 0,
    0, 0, 0, 0, 0, 0, RUN, 0, 0, 0, 0, 0, 0, 0, 0, 0,
];

/// Gives the place of a word in the table of a subscription of this capacity.
pub(crate) fn place_of(capacity: u64, word: Word) -> usize
    ensures place { result ≡ place capacity word }
    ensures within { result < word_count capacity }
{
    if capacity < APART_FROM {
        close_place(word)
    } else {
        place_apart(word)
    }
}

/// Gives the place of a word that lies beside the others.
fn close_place(word: Word) -> usize
    ensures place { result ≡ place_in true word }
{
    match word {
        Word::Head => 6,
        Word::Tail => 7,
        Word::Asked => 8,
        Word::Control => 9,
    }
}

/// Gives the place of a word that lies apart.
fn place_apart(word: Word) -> usize
    ensures place { result ≡ place_in false word }
{
    match word {
        Word::Head => 6,
        Word::Tail => 22,
        Word::Control => 38,
        Word::Asked => 39,
    }
}

/// Gives what the words of a subscription of this capacity are at first.
pub(crate) fn first_words(capacity: u64) -> &'static [u64]
    ensures words { result.now ≡ words_by capacity 0 0 0 1 }
{
    if capacity < APART_FROM {
        &CLOSE_WORDS
    } else {
        &APART_WORDS
    }
}
