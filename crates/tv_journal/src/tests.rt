//! Journals with their files, byte by byte.

ghost use Rattle.std.specs.Prelude.{◌≡◌, ◌+◌, true, false};
ghost use Rattle.tv_journal.specs.Journals.{IsEntry};

use super::{Entry, Journal, JournalFault};
use arrayvec::ArrayVec;
use std::process::Abort;
use std::test::Fail;
use tv_base::{DevNo, HartNo, PIECE_BYTES, Why};
use tv_items::{Bytes, Heard};
use tv_out::{Short, Sink};

/// The file of seven events of hart 0.
const SEVEN: [u8; 15] = [
    b'T', b'V', b'J', b'1', 0x01, 0, 7, 0, 0, 0, 0x00, 1, 0, 0, 0,
];

/// The file of 64 events of hart 0, a tick of 64, and 64 events, ended for want of room.
const FULL: [u8; 28] = [
    b'T', b'V', b'J', b'1', 0x01, 0, 64, 0, 0, 0, 0x0b, 64, 0, 0, 0, 0x01, 0, 64, 0, 0, 0, 0x10, 1,
    0x00, 3, 0, 0, 0,
];

/// A file with a record of each kind, with each code of an outside action, and one record behind an end line.
const EACH: [u8; 68] = [
    b'T', b'V', b'J', b'1', 0x01, 7, 2, 0, 0, 0, 0x02, 0, 0x03, 1, 0x04, 2, 0x05, 3, 0x06, 4, 0x07,
    5, 0x08, 6, 0x09, 7, 0x0a, 0, 0, 0, 0, 0x0a, 1, 1, 0, 0, 0x0a, 2, 2, 3, 0, b'a', b'b', b'c',
    0x0a, 3, 2, 0, 0, 0x0a, 4, 3, 0x00, 0x10, 0x0b, 7, 0, 0, 0, 0x10, 2, 0x06, 0, 0x00, 16, 0, 0,
    0,
];

/// The records of that file behind its first one: their kinds, and a number for [`entry_of`].
const KINDS: [(u8, u8); 14] = [
    (0x02, 0),
    (0x03, 1),
    (0x04, 2),
    (0x05, 3),
    (0x06, 4),
    (0x07, 5),
    (0x08, 6),
    (0x09, 7),
    (0x0a, 0),
    (0x0a, 1),
    (0x0a, 2),
    (0x0a, 3),
    (0x0a, 4),
    (0x0b, 7),
];

/// A sink of up to 10,000 bytes.
#[derive(Drop)]
struct Held {
    bytes: ArrayVec<u8, 10000>,
    faults: u64,
}

impl Sink for Held {
    ghost use Rattle.std.specs.Prelude.{None};

    ghost told = { λ sink. record { bytes = None; faults = sink.faults; script = None } };

    fn faults(&self) -> u64 {
        self.faults
    }

    fn put(&mut self, bytes: &[u8]) -> Result<(), Short> {
        if self.bytes.try_extend_from_slice(bytes).is_err() {
            self.faults = self.faults.saturating_add(1);
            return Err(Short { taken: 0 });
        }
        Ok(())
    }
}

/// The hart of a number.
fn hart(rt: &impl Abort, number: u8) -> HartNo {
    HartNo::new(number).expect(rt, "a hart")
}

/// The device of a number.
fn device(rt: &impl Abort, number: u8) -> DevNo {
    DevNo::new(number).expect(rt, "a device")
}

/// An entry by the kind of its record and the number of its hart or device, which also says what the device heard.
fn entry_of(rt: &impl Abort, kind: u8, number: u8) -> Entry
    ensures { IsEntry result }
{
    match kind {
        0x01 => Entry::Hart(hart(rt, number)),
        0x02 => Entry::Take(device(rt, number)),
        0x03 => Entry::Send(device(rt, number)),
        0x04 => Entry::ServeMem(device(rt, number)),
        0x05 => Entry::ServeIrq(device(rt, number)),
        0x06 => Entry::Got(device(rt, number)),
        0x07 => Entry::Reply(device(rt, number)),
        0x08 => Entry::Deliver(device(rt, number)),
        0x09 => Entry::Intend(device(rt, number)),
        0x0a => heard_by(device(rt, number), number),
        _ => Entry::Tick(7),
    }
}

/// What a device heard, by a number.
fn heard_by(device: DevNo, number: u8) -> Entry
    ensures { IsEntry result }
{
    match number {
        0 => Entry::Did(device, Heard::Done),
        1 => Entry::Did(device, Heard::Failed),
        2 => Entry::Did(device, Heard::Bytes(Bytes::of(b"abc"))),
        3 => Entry::Did(device, Heard::Bytes(Bytes::new())),
        _ => Entry::Did(device, Heard::Taken(4096)),
    }
}

/// Adds an entry.
fn add(rt: &impl Abort, journal: &mut Journal, entry: &Entry) -> bool
    requires { IsEntry entry.now }
    ensures refused { result ≡ false → journal.new ≡ journal.old }
    ensures records { journal.new.reserved_records ≡ journal.old.reserved_records }
    ensures bytes { journal.new.reserved_bytes ≡ journal.old.reserved_bytes }
{
    assert!(rt; journal.events() < 1000);
    assert!(rt; journal.outer().is_none());
    let room = journal.has_room(entry);
    let added = journal.push(entry);
    assert_eq!(rt; room, added);
    added
}

/// Adds an entry by a reserve of its room and of so much more, which stays reserved.
fn add_reserved(
    rt: &impl Abort,
    journal: &mut Journal,
    entry: &Entry,
    records: u32,
    bytes: u32,
) -> bool
    requires { IsEntry entry.now }
    ensures refused { result ≡ false → journal.new ≡ journal.old }
    ensures records { result ≡ true → journal.new.reserved_records ≡ journal.old.reserved_records + records }
    ensures bytes { result ≡ true → journal.new.reserved_bytes ≡ journal.old.reserved_bytes + bytes }
{
    assert!(rt; journal.events() < 1000);
    assert!(rt; journal.outer().is_none());
    if !journal.reserve_for(entry, records, bytes) {
        return false;
    }
    journal.push_reserved(entry);
    true
}

/// Adds so many events of a hart at once.
fn add_events(rt: &impl Abort, journal: &mut Journal, hart: HartNo, count: u32) -> bool {
    assert!(rt; count > 0 && count < 1000);
    assert!(rt; journal.events() < 1000);
    assert!(rt; journal.outer().is_none());
    journal.push_events(hart, count)
}

/// Compares a journal's file.
fn expect_file(rt: &impl Abort, journal: &Journal, file: &[u8]) {
    let mut sink = Held {
        bytes: ArrayVec::new(),
        faults: 0,
    };
    assert!(rt; journal.write_file(&mut sink).is_ok());
    assert_eq!(rt; sink.bytes.as_slice(), file);
}

/// The kind of an entry's record, and its hart or device.
fn kind_and_number(entry: &Entry) -> (u8, u8) {
    match entry {
        Entry::Hart(hart) => (0x01, hart.get()),
        Entry::Take(device) => (0x02, device.get()),
        Entry::Send(device) => (0x03, device.get()),
        Entry::ServeMem(device) => (0x04, device.get()),
        Entry::ServeIrq(device) => (0x05, device.get()),
        Entry::Got(device) => (0x06, device.get()),
        Entry::Reply(device) => (0x07, device.get()),
        Entry::Deliver(device) => (0x08, device.get()),
        Entry::Intend(device) => (0x09, device.get()),
        Entry::Did(device, _) => (0x0a, device.get()),
        Entry::Tick(_) => (0x0b, 0),
    }
}

/// The bytes that an entry carries; none where it is another one.
fn heard_of(entry: &Entry) -> &[u8] {
    match entry {
        Entry::Did(_, Heard::Bytes(bytes)) => bytes.as_slice(),
        _ => &[],
    }
}

#[test]
fn room_is_counted_in_records(rt: HostRuntime) -> Result<(), Fail> {
    let mut none = Journal::new(rt.alloc(), 0, 0).ok().expect(&rt, "memory");
    assert!(rt; !add(&rt, &mut none, &Entry::Hart(hart(&rt, 0))));

    let mut one = Journal::new(rt.alloc(), 1, 0).ok().expect(&rt, "memory");
    assert!(rt; add(&rt, &mut one, &Entry::Hart(hart(&rt, 3))));
    assert!(rt; add(&rt, &mut one, &Entry::Hart(hart(&rt, 3))));
    assert!(rt; !add(&rt, &mut one, &Entry::Tick(1)));
    assert!(rt; !add(&rt, &mut one, &Entry::Hart(hart(&rt, 4))));
    assert!(rt; !add_events(&rt, &mut one, hart(&rt, 4), 2));
    assert!(rt; add_events(&rt, &mut one, hart(&rt, 3), 5));
    assert_eq!(rt; one.records(), 1);
    assert_eq!(rt; one.events(), 7);
    Ok(())
}

#[test]
fn reserved_room_is_not_free(rt: HostRuntime) -> Result<(), Fail> {
    let mut journal = Journal::new(rt.alloc(), 4, 4).ok().expect(&rt, "memory");
    let intend = Entry::Intend(device(&rt, 1));
    let heard = Entry::Did(device(&rt, 1), Heard::Bytes(Bytes::of(b"abc")));
    let take = Entry::Take(device(&rt, 1));
    assert!(rt; !journal.reserve(5, 0));
    assert!(rt; !journal.reserve(0, 5));
    assert!(rt; !add_reserved(&rt, &mut journal, &intend, 4, 0));
    assert!(rt; !add_reserved(&rt, &mut journal, &heard, 0, 2));
    // A record and three bytes are reserved behind the first one: two records and a byte are free.
    assert!(rt; add_reserved(&rt, &mut journal, &intend, 1, 3));
    assert!(rt; !add(&rt, &mut journal, &heard));
    assert!(rt; !add_reserved(&rt, &mut journal, &take, 2, 0));
    journal.give_back(1, 3);
    assert!(rt; add_reserved(&rt, &mut journal, &heard, 2, 1));
    // All that is not there is reserved.
    assert!(rt; !add(&rt, &mut journal, &take));
    assert!(rt; !journal.reserve(0, 1));
    journal.give_back(1, 1);
    assert!(rt; add(&rt, &mut journal, &take));
    assert!(rt; !add(&rt, &mut journal, &take));
    assert!(rt; !journal.reserve(0, 2));
    assert!(rt; journal.reserve(0, 1));
    assert_eq!(rt; journal.records(), 3);
    assert_eq!(rt; journal.events(), 3);
    Ok(())
}

#[test]
fn an_event_that_joins_a_run_takes_no_record(rt: HostRuntime) -> Result<(), Fail> {
    let mut journal = Journal::new(rt.alloc(), 1, 0).ok().expect(&rt, "memory");
    let event = Entry::Hart(hart(&rt, 3));
    let other = Entry::Hart(hart(&rt, 4));
    assert!(rt; add(&rt, &mut journal, &event));
    assert!(rt; !add_reserved(&rt, &mut journal, &other, 0, 0));
    assert!(rt; !add_reserved(&rt, &mut journal, &event, 1, 0));
    assert!(rt; add_reserved(&rt, &mut journal, &event, 0, 0));
    assert_eq!(rt; journal.records(), 1);
    assert_eq!(rt; journal.events(), 2);
    Ok(())
}

#[test]
fn journals_have_their_files(rt: HostRuntime) -> Result<(), Fail> {
    let mut journal = Journal::new(rt.alloc(), 3, 0).ok().expect(&rt, "memory");
    for _event in 0..7u8 {
        assert!(rt; add(&rt, &mut journal, &Entry::Hart(hart(&rt, 0))));
    }
    expect_file(&rt, &journal, &SEVEN);

    let mut journal = Journal::new(rt.alloc(), 3, 0).ok().expect(&rt, "memory");
    for _event in 0..64u8 {
        assert!(rt; add(&rt, &mut journal, &Entry::Hart(hart(&rt, 0))));
    }
    assert!(rt; !journal.ends_with_tick());
    assert!(rt; add(&rt, &mut journal, &Entry::Tick(64)));
    assert!(rt; journal.ends_with_tick());
    assert!(rt; add_events(&rt, &mut journal, hart(&rt, 0), 1));
    assert!(rt; !journal.ends_with_tick());
    assert!(rt; add_events(&rt, &mut journal, hart(&rt, 0), 63));
    assert!(rt; !add(&rt, &mut journal, &Entry::Tick(64)));
    assert!(rt; journal.outer().is_none());
    journal.end(Why::Full);
    expect_file(&rt, &journal, &FULL);
    Ok(())
}

#[test]
fn each_kind_has_its_record(rt: HostRuntime) -> Result<(), Fail> {
    let mut journal = Journal::new(rt.alloc(), 16, 3).ok().expect(&rt, "memory");
    assert!(rt; add_events(&rt, &mut journal, hart(&rt, 7), 2));
    for (kind, number) in KINDS {
        assert!(rt; add(&rt, &mut journal, &entry_of(&rt, kind, number)));
    }
    assert!(rt; journal.outer().is_none());
    journal.end(Why::DebugLost);
    assert!(rt; journal.events() < 1000);
    assert!(rt; journal.push(&Entry::Got(device(&rt, 0))));
    expect_file(&rt, &journal, &EACH);
    Ok(())
}

#[test]
fn each_kind_is_read(rt: HostRuntime) -> Result<(), Fail> {
    let journal = Journal::read_file(rt.alloc(), &EACH)
        .ok()
        .expect(&rt, "a file");
    assert_eq!(rt; journal.records(), 16);
    assert_eq!(rt; journal.events(), 17);
    assert!(rt; matches!(journal.outer(), Some((16, Why::DebugLost))));
    let mut cursor = journal.cursor();
    assert!(rt; matches!(journal.next_events(&mut cursor), Some((_, 2))));
    for (kind, number) in KINDS {
        assert!(rt; journal.next_events(&mut cursor).is_none());
        let (entry, count) = journal.next(&mut cursor).expect(&rt, "a record");
        assert_eq!(rt; count, 1);
        let want = entry_of(&rt, kind, number);
        assert_eq!(rt; kind_and_number(&entry), kind_and_number(&want));
        assert_eq!(rt; heard_of(&entry), heard_of(&want));
    }
    let (entry, _) = journal.next(&mut cursor).expect(&rt, "a record");
    assert_eq!(rt; kind_and_number(&entry), (0x06, 0));
    assert!(rt; journal.next(&mut cursor).is_none());
    expect_file(&rt, &journal, &EACH);
    Ok(())
}

#[test]
fn whole_pieces_are_carried(rt: HostRuntime) -> Result<(), Fail> {
    let mut heard = Bytes::new();
    for place in 0..4096u16 {
        assert!(rt; heard.push((place % 251) as u8));
    }
    let entry = Entry::Did(device(&rt, 5), Heard::Bytes(heard));
    let mut journal = Journal::new(rt.alloc(), 3, 8193).ok().expect(&rt, "memory");
    assert!(rt; add(&rt, &mut journal, &entry));
    assert!(rt; add(&rt, &mut journal, &entry));
    assert!(rt; !add(&rt, &mut journal, &entry));
    assert!(rt;
        add(
            &rt,
            &mut journal,
            &Entry::Did(device(&rt, 5), Heard::Bytes(Bytes::of(b"z")))
        )
    );
    let mut sink = Held {
        bytes: ArrayVec::new(),
        faults: 0,
    };
    assert!(rt; journal.write_file(&mut sink).is_ok());
    assert_eq!(rt; sink.bytes.len(), 4 + 2 * (5 + PIECE_BYTES) + 6 + 5);

    let again = Journal::read_file(rt.alloc(), &sink.bytes)
        .ok()
        .expect(&rt, "a file");
    let mut cursor = again.cursor();
    for _record in 0..2u8 {
        let (read, _) = again.next(&mut cursor).expect(&rt, "a record");
        assert_eq!(rt; heard_of(&read), heard_of(&entry));
    }
    expect_file(&rt, &again, &sink.bytes);
    Ok(())
}

#[test]
fn files_are_read(rt: HostRuntime) -> Result<(), Fail> {
    let journal = Journal::read_file(rt.alloc(), &FULL)
        .ok()
        .expect(&rt, "a file");
    assert_eq!(rt; journal.records(), 3);
    assert_eq!(rt; journal.events(), 129);
    assert!(rt; matches!(journal.outer(), Some((129, Why::Full))));
    let mut cursor = journal.cursor();
    assert!(rt; journal.next_tick(&mut cursor).is_none());
    assert!(rt; matches!(journal.next_events(&mut cursor), Some((_, 64))));
    assert!(rt; journal.next_events(&mut cursor).is_none());
    assert_eq!(rt; journal.next_tick(&mut cursor), Some(64));
    let (entry, count) = journal.next(&mut cursor).expect(&rt, "a record");
    assert_eq!(rt; kind_and_number(&entry), (0x01, 0));
    assert_eq!(rt; count, 64);
    assert!(rt; journal.next(&mut cursor).is_none());
    expect_file(&rt, &journal, &FULL);

    // The greatest count twice, more events than 32 bits count.
    let long = [
        b'T', b'V', b'J', b'1', 0x01, 7, 255, 255, 255, 255, 0x01, 6, 255, 255, 255, 255, 0x00, 2,
        0, 0, 0,
    ];
    let journal = Journal::read_file(rt.alloc(), &long)
        .ok()
        .expect(&rt, "a file");
    assert_eq!(rt; journal.events(), 8_589_934_590);
    Ok(())
}

#[test]
fn faults_are_told_at_their_byte(rt: HostRuntime) -> Result<(), Fail> {
    for length in 0..68usize {
        let fault = Journal::read_file(rt.alloc(), &EACH[..length]).err();
        assert_eq!(rt; fault, Some(JournalFault::At(length as u64)));
    }
    // A change of a file at a place, and where it is told.
    let rows: [(&[u8], usize, u8, u64); 44] = [
        (&SEVEN, 3, b'2', 3),
        (&SEVEN, 6, 0, 9),
        (&SEVEN, 11, 2, 11),
        (&SEVEN, 14, 1, 14),
        (&FULL, 10, 0x01, 11),
        (&FULL, 11, 0, 14),
        (&FULL, 10, 0x10, 11),
        (&FULL, 22, 5, 22),
        (&FULL, 23, 0x10, 23),
        (&EACH, 4, 0x0c, 4),
        (&EACH, 4, 0x0f, 4),
        (&EACH, 5, 8, 5),
        (&EACH, 11, 8, 11),
        (&EACH, 13, 8, 13),
        (&EACH, 15, 8, 15),
        (&EACH, 17, 8, 17),
        (&EACH, 19, 8, 19),
        (&EACH, 21, 8, 21),
        (&EACH, 23, 8, 23),
        (&EACH, 25, 8, 25),
        (&EACH, 24, 0x0c, 24),
        (&EACH, 27, 8, 27),
        (&EACH, 28, 4, 28),
        // A length where none may be, at each of its bytes.
        (&EACH, 29, 1, 29),
        (&EACH, 30, 1, 30),
        (&EACH, 34, 1, 34),
        (&EACH, 35, 1, 35),
        // A byte fewer, and the last one is no kind.
        (&EACH, 39, 2, 43),
        // More than 4096 bytes, and more than 4096 that were put.
        (&EACH, 40, 0x10, 40),
        (&EACH, 48, 0x11, 48),
        (&EACH, 52, 1, 53),
        (&EACH, 53, 0x11, 53),
        (&EACH, 51, 0, 53),
        (&EACH, 51, 4, 51),
        (&EACH, 55, 0, 58),
        (&EACH, 60, 0, 60),
        (&EACH, 61, 0x01, 61),
        (&EACH, 61, 0x10, 61),
        (&EACH, 61, 0x0d, 61),
        (&EACH, 62, 8, 62),
        (&EACH, 64, 17, 64),
        (&EACH, 65, 1, 65),
        (&EACH, 66, 1, 66),
        (&EACH, 67, 1, 67),
    ];
    for (file, place, byte, want) in rows {
        let mut bytes = Vec::from_slice(rt.alloc(), file)?;
        assert!(rt; place < bytes.len());
        bytes[place] = byte;
        let fault = Journal::read_file(rt.alloc(), &bytes).err();
        assert_eq!(rt; fault, Some(JournalFault::At(want)), "byte {place}");
    }
    // A record of the same hart directly after it.
    let mut again = Vec::from_slice(rt.alloc(), &SEVEN[..10])?;
    again.extend_from_slice(&[0x01, 0])?;
    let fault = Journal::read_file(rt.alloc(), &again).err();
    assert_eq!(rt; fault, Some(JournalFault::At(11)));
    // Nothing stands behind the file.
    let mut longer = Vec::from_slice(rt.alloc(), &SEVEN)?;
    longer.push(0)?;
    let fault = Journal::read_file(rt.alloc(), &longer).err();
    assert_eq!(rt; fault, Some(JournalFault::At(15)));
    Ok(())
}
