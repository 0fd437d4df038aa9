//! Names, as they are read and printed.
use flow_rules::{Name, NotAName, Refusal};
use std::alloc::{AllocError, Global};
use std::cmp::Ordering;
use std::hash::{DefaultHasher, Hash, Hasher};
use std::test::Fail;

const ALLOWED: [&str; 6] = [
    "a",
    "next",
    "source-0",
    "A_Z-09",
    "-",
    "abcdefghijklmnopqrstuvwxyz-_0189",
];

const REFUSED: [&[u8]; 15] = [
    b"",
    b" ",
    b"a b",
    b"a ",
    b"/",
    b":",
    b"@",
    b"[",
    b"^",
    b"`",
    b"{",
    b"a.b",
    b"\0",
    b"\x80",
    &[b'a'; 33],
];

/// Whether a word is a name, which shows and prints its letters.
fn is_name(alloc: Global, word: &str) -> Result<bool, AllocError> {
    let Some(name) = Name::new(word.as_bytes()) else {
        return Ok(false);
    };
    let printed = format!(in alloc; "{name} {name:?}")?;
    let wanted = format!(in alloc; "{word} {word}")?;
    let is_shown = name.as_bytes() == word.as_bytes() && name.as_str() == word;
    Ok(is_shown && printed == wanted && Name::parse(word) == Ok(name))
}

#[test]
fn a_name_has_1_to_32_letters(rt: HostRuntime) -> Result<(), Fail> {
    for word in ALLOWED {
        assert!(rt; is_name(rt.alloc(), word)?, "at {word}");
    }
    Ok(())
}

#[test]
fn no_other_bytes_are_a_name(rt: HostRuntime) {
    for bytes in REFUSED {
        assert!(rt; Name::new(bytes).is_none(), "at {bytes:?}");
    }
}

#[test]
fn it_is_told_why_a_text_is_no_name(rt: HostRuntime) -> Result<(), Fail> {
    let alloc = rt.alloc();
    assert!(rt; Name::parse("") == Err(NotAName::Empty));
    assert!(rt; Name::parse("a.b") == Err(NotAName::BadByte(1)));
    assert!(rt; Name::parse("ä") == Err(NotAName::BadByte(0)));
    let long = Name::parse("a123456789b123456789c123456789ab.");
    assert!(rt; long == Err(NotAName::TooLong));
    let printed = format!(in alloc; "{} {}", NotAName::TooLong, NotAName::BadByte(1))?;
    assert!(rt;
        printed.as_str() == "a name has 32 bytes at most the byte at 1 may not stand in a name"
    );
    assert!(rt; Refusal::from(NotAName::Empty) == Refusal::BadCommand);
    Ok(())
}

#[test]
fn names_are_equal_where_their_bytes_are(rt: HostRuntime) {
    let name = Name::new(b"a");
    assert!(rt; name == Name::new(b"a"));
    assert!(rt; name != Name::new(b"A") && name != Name::new(b"aa"));
}

#[test]
fn names_come_in_the_order_of_their_bytes(rt: HostRuntime) -> Result<(), Fail> {
    let words = ["-", "0", "A", "Z", "_", "a", "a-", "a0", "aa", "b"];
    for (place, word) in words.iter().enumerate() {
        for (other_place, other) in words.iter().enumerate() {
            let (name, other) = (Name::parse(word)?, Name::parse(other)?);
            assert!(rt; name.cmp(&other) == place.cmp(&other_place), "at {word}");
            assert!(rt; name.partial_cmp(&other) == Some(place.cmp(&other_place)));
        }
    }
    assert!(rt; Name::parse("a")?.cmp(&Name::parse("b")?) == Ordering::Less);
    Ok(())
}

/// What a hasher makes of a value.
fn hash_of<T: Hash>(value: &T) -> u64 {
    let mut hasher = DefaultHasher::new();
    value.hash(&mut hasher);
    hasher.finish()
}

#[test]
fn a_name_is_hashed_as_its_text(rt: HostRuntime) -> Result<(), Fail> {
    let name = Name::parse("source-0")?;
    let other = Name::parse("source-1")?;
    assert!(rt; hash_of(&name) == hash_of(&"source-0"));
    assert!(rt; hash_of(&name) != hash_of(&other));
    Ok(())
}
