//! Packed days.

use mds_packs::{pack_day, unpack_day};
use mds_terms::{Length, Reading};
use std::alloc::Global;

/// The body of a half-hourly day. Only its first interval has a reading: actual data, 1.5.
const BODY: &[u8] =
    b"\x01\x00\x30\x00\x01\x00\x01\x00\x01\x41\x00\xff\xff\x00\x00\x00\x00\x00\x00\x00\x16\xe3\x60";

/// These bytes and one more.
const LONGER: &[u8] =
    b"\x01\x00\x30\x00\x01\x00\x01\x00\x01\x41\x00\xff\xff\x00\x00\x00\x00\x00\x00\x00\x16\xe3\x60\x00";

/// Packs that day.
fn packed(alloc: Global) -> Option<Vec<u8>> {
    let reading = Reading::read(alloc, b"A", b"", b"", b"1.5").ok()??;
    let mut day = Vec::new(alloc);
    day.push(Some(reading)).ok()?;
    for _ in 1..48 {
        day.push(None).ok()?;
    }
    if day.len() > 48 {
        return None;
    }
    pack_day(alloc, &day).ok()
}

/// How many intervals the half-hourly day of a body has, and its first reading.
fn unpacked(alloc: Global, body: &[u8]) -> Option<String> {
    let length = Length::from_minutes(30)?;
    let day = unpack_day(alloc, length, body).ok()??;
    let mut text = format!(in alloc; "{} ", day.len()).ok()?;
    day.first()?.as_ref()?.write_to(&mut text).ok()?;
    Some(text)
}

#[test]
fn days_are_packed_and_unpacked(rt: HostRuntime) {
    let alloc = rt.alloc();
    assert!(rt; packed(alloc).as_deref() == Some(BODY));
    assert!(rt; unpacked(alloc, BODY).as_deref() == Some("48 A,,,1.5"));
    assert!(rt; unpacked(alloc, LONGER).is_none());
}
