//! Texts and items, and what becomes of an item.
ghost use Rattle.std.specs.Prelude.{◌≤◌, length};

use crate::item_with;
use flow_rules::{Item, NoMemory, Put, Text};
use std::alloc::Global;
use std::convert::AsSlice;
use std::mem::size_of;
use std::test::Fail;

// Up to 30 bytes lie in the value, up to 111 in one block of memory, and up to 4,096 in two.
const TEXTS: [&[u8]; 9] = [
    b"",
    b" x",
    b"\xff\0",
    &[b'd'; 29],
    &[b'e'; 30],
    &[b'f'; 31],
    &[b'g'; 111],
    &[b'h'; 112],
    &[b'i'; 4096],
];

/// The parts of items, and whether those of `item_with` are the same with the text `x`.
const ITEMS: [(u32, u64, u64, &[u8; 1], bool); 5] = [
    (1, 2, 3, b"x", true),
    (0, 2, 3, b"x", false),
    (1, 0, 3, b"x", false),
    (1, 2, 0, b"x", false),
    (1, 2, 3, b"y", false),
];

/// Whether an item of `item_with` holds these bytes.
fn holds(item: &Item, bytes: &[u8]) -> bool {
    (item.source, item.seq, item.serial) == (1, 2, 3) && shows(&item.text, bytes)
}

/// Whether a text shows these bytes, lends them and counts them.
fn shows(text: &Text, bytes: &[u8]) -> bool {
    let is_shown = text.as_bytes() == bytes && text.as_slice() == bytes;
    is_shown && text.len() == bytes.len() && text.is_empty() == (bytes.len() == 0)
}

/// Whether an item with these bytes, and what shares them, hold them, also where the item is gone.
fn is_shared(alloc: Global, bytes: &[u8]) -> Result<bool, NoMemory>
    requires { length bytes.now ≤ Text.LONGEST }
{
    let one = item_with(alloc, bytes)?;
    let two = one.share()?;
    let text = one.text.share()?;
    let are_equal = two == one && text == one.text && holds(&one, bytes);
    drop(one);
    Ok(are_equal && holds(&two, bytes))
}

#[test]
fn a_text_holds_its_bytes(rt: HostRuntime) -> Result<(), Fail> {
    assert!(rt; Text::LONGEST == 4096 && Text::LONGEST_INSIDE == 30);
    for bytes in TEXTS {
        assert!(rt; bytes.len() <= Text::LONGEST && is_shared(rt.alloc(), bytes)?);
    }
    Ok(())
}

// Each slot of a buffer has room for one.
#[test]
fn a_text_has_32_bytes(rt: HostRuntime) {
    assert!(rt; size_of::<Text>() == 32 && size_of::<Item>() == 56);
}

// Run from outside, too, with each request for memory refused in turn: there is none.
#[test]
fn a_short_text_asks_for_no_memory(rt: HostRuntime) -> Result<(), Fail> {
    for bytes in [TEXTS[0], TEXTS[1], TEXTS[4]] {
        assert!(rt; bytes.len() <= Text::LONGEST && is_shared(rt.alloc(), bytes)?);
    }
    Ok(())
}

// Run from outside, too, with its one request for memory refused.
#[test]
fn a_text_of_111_bytes_asks_for_memory_once(rt: HostRuntime) -> Result<(), Fail> {
    assert!(rt; is_shared(rt.alloc(), TEXTS[6])?);
    Ok(())
}

// Run from outside, too, with each request for memory refused in turn.
#[test]
fn a_long_text_asks_for_memory(rt: HostRuntime) -> Result<(), Fail> {
    assert!(rt; is_shared(rt.alloc(), TEXTS[7])?);
    Ok(())
}

#[test]
fn a_text_prints_its_bytes_for_a_programmer(rt: HostRuntime) -> Result<(), Fail> {
    let short = Text::new(rt.alloc(), b" x")?;
    let long = Text::new(rt.alloc(), &[b'f'; 31])?;
    let printed = format!(in rt.alloc(); "{short:?}")?;
    assert!(rt; printed.as_str() == "Text { bytes: [32, 120] }");
    let printed = format!(in rt.alloc(); "{long:?}")?;
    assert!(rt;
        printed
            .as_str()
            .starts_with("Text { bytes: [102, 102, 102,")
    );
    Ok(())
}

#[test]
fn items_are_equal_where_all_four_parts_are(rt: HostRuntime) -> Result<(), Fail> {
    let one = item_with(rt.alloc(), b"x")?;
    for (source, seq, serial, bytes, are_equal) in ITEMS {
        let text = Text::new(rt.alloc(), bytes)?;
        let other = Item {
            source,
            seq,
            serial,
            text,
        };
        assert!(rt; (one == other) == are_equal, "{source} {seq} {serial}");
    }
    Ok(())
}

/// What may become of an item.
fn puts(alloc: Global) -> Result<[Put<()>; 6], NoMemory> {
    let full = item_with(alloc, b"x")?;
    let gone = full.share()?;
    let other = item_with(alloc, b"y")?;
    Ok([
        Put::Full(full),
        Put::Full(other),
        Put::Gone(gone),
        Put::Accepted {
            lag: 1,
            start: Some(()),
        },
        Put::Accepted {
            lag: 1,
            start: None,
        },
        Put::Accepted {
            lag: 2,
            start: Some(()),
        },
    ])
}

/// Whether a put is equal to the one at this place, and to no other.
fn is_only_at(place: usize, put: &Put<()>, puts: &[Put<()>]) -> bool {
    for (other_place, other) in puts.iter().enumerate() {
        if (put == other) != (place == other_place) {
            return false;
        }
    }
    true
}

#[test]
fn puts_are_equal_where_their_parts_are(rt: HostRuntime) -> Result<(), Fail> {
    let others = puts(rt.alloc())?;
    for (place, put) in puts(rt.alloc())?.iter().enumerate() {
        assert!(rt; is_only_at(place, put, &others), "put {place}");
    }
    Ok(())
}
