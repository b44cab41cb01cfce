//! Runs worked out by hand, and journals of them.

ghost use Rattle.std.specs.Prelude.{◌≡◌, ◌≤◌, [], ◌∷◌, IfOk, length};
ghost use Rattle.tv_journal.specs.Journals.{IsEntry};
ghost use Rattle.tv_machine.specs.Valid.{IsValid, IsWithin};
ghost use Rattle.tv_plan.specs.Devices.{DeviceState};
ghost use Rattle.tv_plan.specs.Probe.{new_probe};
ghost use Rattle.tv_model.specs.Monitor.{AreDevices};

use super::{Monitor, Replayed, StepFault, replay};
use std::alloc::Global;
use std::process::Abort;
use std::test::Fail;
use tv_base::{Access, DevNo, FLAT_RAM_BYTES, HartNo, Memory, PAGE_BYTES, RAM_BASE, Rights, Why};
use tv_fake::first_run::{IMAGE, JOURNAL};
use tv_guest::Guest;
use tv_items::Heard;
use tv_journal::{Entry, Journal};
use tv_machine::{DeviceKind, DeviceSpec, Machine, MemRange, RangeList};
use tv_small::Probe;
use tv_spec::{Closed, Shown};

/// The image of one jump to itself.
const LOOP: [u8; 4] = [0x6f, 0x00, 0x00, 0x00];

/// Nothing is closed to a hart.
const OPEN: Closed = Closed {
    debug: false,
    loads: [false; 8],
    stores: [false; 8],
};

/// The devices of a machine without devices.
const NO_DEVICES: [Probe; 0] = [];

/// Replays a journal file on the flat machine.
fn replay_file(alloc: Global, image: &[u8], file: &[u8]) -> Result<Replayed, Fail>
    requires { length image.now ≤ FLAT_RAM_BYTES }
{
    let Ok(machine) = Machine::flat(alloc) else {
        return Err(Fail::from("memory"));
    };
    let Ok(journal) = Journal::read_file(alloc, file) else {
        return Err(Fail::from("no journal file"));
    };
    match replay(alloc, &machine, &NO_DEVICES, image, &journal) {
        Ok(replayed) => Ok(replayed),
        Err(_) => Err(Fail::from("memory")),
    }
}

#[test]
fn first_image_is_stepped(rt: HostRuntime) -> Result<(), Fail> {
    let alloc = rt.alloc();
    let Ok(machine) = Machine::flat(alloc) else {
        return Err(Fail::from("memory"));
    };
    let Ok(mut monitor) = Monitor::new(alloc, &machine, &NO_DEVICES, &IMAGE) else {
        return Err(Fail::from("memory"));
    };
    let event = Entry::Hart(HartNo::new(0).expect(&rt, "a hart"));
    for text in ["", "", "A", "A", "A", "A", "A"] {
        assert!(rt; monitor.status().is_none());
        assert!(rt; monitor.step(&event).is_ok());
        assert_eq!(rt; monitor.console(), text.as_bytes());
    }
    assert_eq!(rt; monitor.status(), Some(0));
    assert!(rt; matches!(monitor.step(&event), Err(StepFault::Illegal)));
    Ok(())
}

#[test]
fn journals_are_replayed(rt: HostRuntime) -> Result<(), Fail> {
    let rows: [(&[u8], &[u8], Replayed); 14] = [
        // The first image's seven events; one more; one less.
        (&IMAGE, &JOURNAL, Replayed::Legal(Some(0))),
        (
            &IMAGE,
            b"TVJ1\x01\x00\x08\x00\x00\x00\x00\x01\x00\x00\x00",
            Replayed::Illegal(0),
        ),
        (
            &IMAGE,
            b"TVJ1\x01\x00\x06\x00\x00\x00\x00\x01\x00\x00\x00",
            Replayed::Legal(None),
        ),
        // A tick among them; a tick and another end after them.
        (
            &IMAGE,
            b"TVJ1\x01\x00\x06\x00\x00\x00\x0b\x01\x00\x00\x00\x01\x00\x01\x00\x00\x00\x00\x03\x00\x00\x00",
            Replayed::Legal(Some(0)),
        ),
        (
            &IMAGE,
            b"TVJ1\x01\x00\x07\x00\x00\x00\x0b\x01\x00\x00\x00\x00\x02\x00\x00\x00",
            Replayed::Illegal(1),
        ),
        (
            &IMAGE,
            b"TVJ1\x01\x00\x07\x00\x00\x00\x10\x02\x00\x01\x00\x00\x00",
            Replayed::Illegal(1),
        ),
        // Ten events of the loop; two rounds with a tick between them, ended for want of room.
        (
            &LOOP,
            b"TVJ1\x01\x00\x0a\x00\x00\x00\x00\x01\x00\x00\x00",
            Replayed::Legal(None),
        ),
        (
            &LOOP,
            b"TVJ1\x01\x00\x40\x00\x00\x00\x0b\x40\x00\x00\x00\x01\x00\x40\x00\x00\x00\x10\x01\x00\x03\x00\x00\x00",
            Replayed::Legal(Some(7)),
        ),
        // Two ticks in a row.
        (
            &LOOP,
            b"TVJ1\x0b\x01\x00\x00\x00\x0b\x01\x00\x00\x00\x00\x02\x00\x00\x00",
            Replayed::Illegal(1),
        ),
        // Ended before everything; a tick after that.
        (
            &LOOP,
            b"TVJ1\x10\x03\x00\x00\x00\x00\x00",
            Replayed::Legal(Some(10)),
        ),
        (
            &LOOP,
            b"TVJ1\x10\x04\x0b\x01\x00\x00\x00\x00\x01\x00\x00\x00",
            Replayed::Illegal(0),
        ),
        // A hart that the machine does not have.
        (
            &LOOP,
            b"TVJ1\x01\x00\x01\x00\x00\x00\x01\x01\x01\x00\x00\x00\x00\x02\x00\x00\x00",
            Replayed::Illegal(1),
        ),
        // All events that the machine may make; one more.
        (
            &LOOP,
            b"TVJ1\x01\x00\x40\x42\x0f\x00\x00\x01\x00\x00\x00",
            Replayed::Legal(Some(6)),
        ),
        (
            &LOOP,
            b"TVJ1\x01\x00\x41\x42\x0f\x00\x00\x01\x00\x00\x00",
            Replayed::Illegal(0),
        ),
    ];
    for (row, (image, file, want)) in rows.into_iter().enumerate() {
        assert!(rt; image.len() <= FLAT_RAM_BYTES as usize);
        let found = replay_file(rt.alloc(), image, file)?;
        assert_eq!(rt; found, want, "row {row}");
    }
    Ok(())
}

/// Hart 0 reserves 8 bytes, counts down from 40, stores there where it still may, and puts the digit that says whether
/// not. Hart 1 stores a byte there as its fourth instruction.
const RESERVING: [u32; 14] = [
    0x00000297, 0x20028e13, 0x02051463, 0x00500393, 0x100005b7, 0x100e342f, 0x02800313, 0xfff30313,
    0xfe031ee3, 0x187e342f, 0x03040413, 0x00858023, 0x00ae03a3, 0x0000006f,
];

/// Each hart lets the software and the timer interrupt in with its 10th event; its handler puts the low digit of the cause
/// with its fourth instruction. Hart 0 raises the software interrupt of hart 1 with its 12th event, asks for the timer's at
/// 64 with its 14th, and raises its own software interrupt with its 15th. Then both jump to themselves.
const RAISING: [u32; 29] = [
    0x00000297, 0x06028293, 0x30529073, 0x08800313, 0x30431073, 0x020003b7, 0x020046b7, 0x100005b7,
    0x00100413, 0x30046073, 0x00051a63, 0x0083a223, 0x04000493, 0x0096b023, 0x0083a023, 0x0000006f,
    0x00000013, 0x00000013, 0x00000013, 0x00000013, 0x00000013, 0x00000013, 0x00000013, 0x00000013,
    0x342024f3, 0x00f4f493, 0x03048493, 0x00958023, 0x0000006f,
];

/// Entries in a row.
#[derive(Clone, Copy)]
enum Turn {
    /// So many events of the hart with a number.
    Events(u8, u32),
    /// A tick.
    Tick(u32),
}

/// The flat machine with two harts.
fn two_harts(alloc: Global) -> Result<Machine, Memory>
    ensures { IfOk result (λ machine. (machine.ram ≡ FLAT_RAM_BYTES) × (machine.device ≡ []) × IsValid machine) }
{
    let mut machine = Machine::flat(alloc)?;
    machine.harts = 2;
    Ok(machine)
}

/// The image of these instructions.
fn image_of(rt: &(impl AllocGlobal + Abort), words: &[u32]) -> Result<Vec<u8>, Fail> {
    let mut image = Vec::new(rt.alloc());
    for word in words {
        image.extend_from_slice(&word.to_le_bytes())?;
    }
    Ok(image)
}

/// What two harts put to the console when they make these entries with an image.
fn console(
    rt: &(impl AllocGlobal + Abort),
    words: &[u32],
    turns: &[Turn],
) -> Result<Vec<u8>, Fail> {
    let image = image_of(rt, words)?;
    assert!(rt; image.len() <= FLAT_RAM_BYTES as usize);
    let mut monitor = Monitor::new(rt.alloc(), &two_harts(rt.alloc())?, &NO_DEVICES, &image)?;
    for &turn in turns {
        let (entry, count) = match turn {
            Turn::Events(number, count) => {
                (Entry::Hart(HartNo::new(number).expect(rt, "a hart")), count)
            }
            Turn::Tick(n) => (Entry::Tick(n), 1),
        };
        for _ in 0..count {
            assert!(rt; monitor.step(&entry).is_ok());
        }
    }
    Ok(Vec::from_slice(rt.alloc(), monitor.console())?)
}

#[test]
fn harts_interleave_as_their_entries_say(rt: HostRuntime) -> Result<(), Fail> {
    use Turn::{Events, Tick};
    let rows: [(&[u32], &[Turn], &str); 12] = [
        (
            &RESERVING,
            &[Events(0, 6), Events(1, 4), Events(0, 84)],
            "1",
        ),
        (
            &RESERVING,
            &[Events(0, 6), Events(1, 3), Events(0, 84)],
            "0",
        ),
        (&RESERVING, &[Events(1, 4), Events(0, 90)], "0"),
        (
            &RESERVING,
            &[Events(0, 87), Events(1, 4), Events(0, 3)],
            "1",
        ),
        // The trap is the first event of hart 1 behind the store of hart 0, and the byte comes with the fifth.
        (&RAISING, &[Events(1, 11), Events(0, 12), Events(1, 5)], "3"),
        (&RAISING, &[Events(1, 11), Events(0, 12), Events(1, 4)], ""),
        (&RAISING, &[Events(1, 16)], ""),
        // It is the next event of hart 0 behind its own store.
        (&RAISING, &[Events(0, 15), Events(0, 5)], "3"),
        (&RAISING, &[Events(0, 19)], ""),
        // It is the first event behind the tick that brings the time to 64, and not to 63.
        (&RAISING, &[Events(0, 14), Tick(64), Events(0, 5)], "7"),
        (&RAISING, &[Events(0, 14), Tick(63), Events(0, 5)], ""),
        (&RAISING, &[Tick(64), Events(0, 19)], "7"),
    ];
    for (row, (words, turns, text)) in rows.into_iter().enumerate() {
        let put = console(&rt, words, turns)?;
        assert_eq!(rt; put.as_slice(), text.as_bytes(), "row {row}");
    }
    Ok(())
}

/// A journal of so many rounds: 64 events of hart 0, 32 of hart 1, and a tick of 64.
fn rounds(rt: &(impl AllocGlobal + Abort), count: u32) -> Result<Journal, Fail> {
    let mut journal = Journal::new(rt.alloc(), 100, 0)?;
    for _ in 0..count {
        for (number, events) in [(0, 64), (1, 32)] {
            let hart = HartNo::new(number).expect(rt, "a hart");
            assert!(rt; journal.events() < 10000 && journal.outer().is_none());
            assert!(rt; journal.push_events(hart, events));
        }
        assert!(rt; journal.events() < 10000 && journal.outer().is_none());
        assert!(rt; journal.push(&Entry::Tick(64)));
    }
    Ok(journal)
}

#[test]
fn an_entry_of_a_device_that_is_not_there_is_refused(rt: HostRuntime) -> Result<(), Fail> {
    let machine = two_harts(rt.alloc())?;
    let mut journal = rounds(&rt, 3)?;
    assert_eq!(rt; (journal.records(), journal.events()), (9, 291));
    let replayed = replay(rt.alloc(), &machine, &NO_DEVICES, &LOOP, &journal)?;
    assert_eq!(rt; replayed, Replayed::Legal(None));
    let device = DevNo::new(0).expect(&rt, "a device");
    assert!(rt; journal.events() < 10000 && journal.outer().is_none());
    assert!(rt; journal.push(&Entry::Take(device)));
    let replayed = replay(rt.alloc(), &machine, &NO_DEVICES, &LOOP, &journal)?;
    assert_eq!(rt; replayed, Replayed::Illegal(9));
    Ok(())
}

/// A guest that has the probe read 4 bytes at the start of memory, loads what it read, and puts the low byte: auipc x6, 0;
/// lui x5, 0x10001; sd x6, 0(x5); addi x7, x0, 4; sw x7, 8(x5); addi x7, x0, 1; sw x7, 24(x5); ld x8, 16(x5);
/// lui x9, 0x10000; sb x8, 0(x9); jal x0, 0. The eighth event is the load.
const READING: [u32; 11] = [
    0x00000317, 0x100012b7, 0x0062b023, 0x00400393, 0x0072a423, 0x00100393, 0x0072ac23, 0x0102b403,
    0x100004b7, 0x00848023, 0x0000006f,
];

/// The same, with GO 3, which raises an interrupt, in the place of GO 1.
const ALARMING: [u32; 11] = [
    0x00000317, 0x100012b7, 0x0062b023, 0x00400393, 0x0072a423, 0x00300393, 0x0072ac23, 0x0102b403,
    0x100004b7, 0x00848023, 0x0000006f,
];

/// The flat machine with two harts and one probe, which has these rights to the first page of memory and an interrupt source.
fn with_probe(alloc: Global, rights: Rights) -> Result<Machine, Memory>
    requires { IsWithin 1 3 rights.0 }
    ensures { IfOk result (λ machine. (machine.ram ≡ FLAT_RAM_BYTES) × AreDevices machine (DeviceState.Probe new_probe ∷ []) × IsValid machine) }
{
    let mut machine = two_harts(alloc)?;
    let mut mem = RangeList::new();
    let range = MemRange {
        base: RAM_BASE,
        len: PAGE_BYTES,
        rights,
    };
    mem.push(alloc, range)?;
    let probe = DeviceSpec {
        kind: DeviceKind::Probe,
        mem,
        irq: true,
        disk: None,
        readonly: false,
        output: None,
        input: None,
        sectors: 0,
    };
    machine.device.push(alloc, probe)?;
    Ok(machine)
}

/// A device as a run begins, for the one slot of that machine.
fn first_probe(alloc: Global) -> [Probe; 1]
    ensures { result ≡ new_probe ∷ [] }
{
    match Probe::new(alloc) {
        Ok(probe) => [probe],
        Err(_) => unreachable!(),
    }
}

/// The entry of a letter, or the first of those of a digit. In a text that says how a run goes on, a digit is so many events of
/// hart 0, `o` one of hart 1 and `t` a tick; of the first device, `T` is Take, `S` Send, `M` ServeMem, `I` ServeIrq, `G` Got,
/// `R` Reply, `D` Deliver, `N` Intend and `d` Did.
fn entry_of(rt: &impl Abort, letter: u8) -> Entry
    ensures { IsEntry result }
{
    let device = DevNo::new(0).expect(rt, "a device");
    match letter {
        b'o' => Entry::Hart(HartNo::new(1).expect(rt, "a hart")),
        b't' => Entry::Tick(64),
        b'T' => Entry::Take(device),
        b'S' => Entry::Send(device),
        b'M' => Entry::ServeMem(device),
        b'I' => Entry::ServeIrq(device),
        b'G' => Entry::Got(device),
        b'R' => Entry::Reply(device),
        b'D' => Entry::Deliver(device),
        b'N' => Entry::Intend(device),
        b'd' => Entry::Did(device, Heard::Done),
        _ => Entry::Hart(HartNo::FIRST),
    }
}

/// How many entries it is.
fn times(letter: u8) -> u8 {
    match letter {
        b'1'..=b'9' => letter - b'0',
        _ => 1,
    }
}

/// A journal of these entries.
fn journal_of(rt: &(impl AllocGlobal + Abort), moves: &str) -> Result<Journal, Fail> {
    let mut journal = Journal::new(rt.alloc(), 100, 0)?;
    for &letter in moves.as_bytes() {
        for _ in 0..times(letter) {
            assert!(rt; journal.events() < 10000 && journal.outer().is_none());
            assert!(rt; journal.push(&entry_of(rt, letter)));
        }
    }
    Ok(journal)
}

#[test]
fn a_loaded_value_reaches_its_hart(rt: HostRuntime) -> Result<(), Fail> {
    let image = image_of(&rt, &READING)?;
    assert!(rt; image.len() <= FLAT_RAM_BYTES as usize);
    let machine = with_probe(rt.alloc(), Rights::READ)?;
    let devices = first_probe(rt.alloc());
    let mut monitor = Monitor::new(rt.alloc(), &machine, &devices, &image)?;
    for &letter in "8TTTSMGTRD3".as_bytes() {
        for _ in 0..times(letter) {
            assert!(rt; monitor.step(&entry_of(&rt, letter)).is_ok());
        }
    }
    // the low byte of auipc x6, 0
    assert_eq!(rt; monitor.console(), "\x17".as_bytes());
    Ok(())
}

/// lui x5, 0x10001; sd x0, 0(x5); jal x0, -4: a store to the probe with each second event.
const STORING: [u32; 3] = [0x100012b7, 0x0002b023, 0xffdff06f];

/// The machine with a probe, for runs of three million events.
fn for_long_runs(alloc: Global) -> Result<Machine, Memory>
    ensures { IfOk result (λ machine. (machine.ram ≡ FLAT_RAM_BYTES) × AreDevices machine (DeviceState.Probe new_probe ∷ []) × IsValid machine) }
{
    let mut machine = with_probe(alloc, Rights::READ)?;
    machine.steps = 3_000_000;
    Ok(machine)
}

#[test]
fn a_million_items_are_taken(rt: HostRuntime) -> Result<(), Fail> {
    let count = 1_000_000u32;
    let device = DevNo::new(0).expect(&rt, "a device");
    let mut journal = Journal::new(rt.alloc(), 2 * count, 0)?;
    for _ in 0..count {
        assert!(rt; journal.events() < 10_000_000 && journal.outer().is_none());
        assert!(rt; journal.push_events(HartNo::FIRST, 2));
        assert!(rt; journal.events() < 10_000_000 && journal.outer().is_none());
        assert!(rt; journal.push(&Entry::Take(device)));
    }
    let image = image_of(&rt, &STORING)?;
    assert!(rt; image.len() <= FLAT_RAM_BYTES as usize);
    let machine = for_long_runs(rt.alloc())?;
    let replayed = replay(
        rt.alloc(),
        &machine,
        &first_probe(rt.alloc()),
        &image,
        &journal,
    )?;
    assert_eq!(rt; replayed, Replayed::Legal(None));
    Ok(())
}

/// A guest that reserves 8 bytes, has the probe act, and puts what comes of it: LR.D at 0x8000_0200; then ADDR, LEN, a DATA
/// of bytes 0x41 and GO, of which [`probing`] fills in what is 0 here, and a load of RESULT. It puts the digit of RESULT,
/// that of an SC.D at 0x8000_0200, the bytes at 0x8000_0207, 0x8000_0FFE and 0x8000_0FFF, and the digit of another SC.D.
const PROBING: [u32; 34] = [
    0x00000317, 0x20030e13, 0x100e342f, 0x100012b7, 0x000003b7, 0x006383b3, 0x00038393, 0x0072b023,
    0x00000393, 0x0072a423, 0x414143b7, 0x14138393, 0x0072b823, 0x00000393, 0x0072ac23, 0x01c2a483,
    0x100005b7, 0x03048493, 0x00958023, 0x186e342f, 0x03040413, 0x00858023, 0x007e4483, 0x00958023,
    0x00001637, 0x00660633, 0xffe64483, 0x00958023, 0xfff64483, 0x00958023, 0x186e342f, 0x03040413,
    0x00858023, 0x0000006f,
];

/// That guest with an address, as `lui` and `addi` have its parts above 0x8000_0000, and with LEN and GO.
fn probing(upper: u32, lower: u32, len: u32, go: u32) -> [u32; 34] {
    let mut words = PROBING;
    words[4] = 0x3b7 | (upper & 0xf_ffff) << 12;
    words[6] = 0x38393 | (lower & 0xfff) << 20;
    words[8] = 0x393 | (len & 0xfff) << 20;
    words[13] = 0x393 | (go & 0xfff) << 20;
    words
}

#[test]
fn writes_of_a_device_are_done_where_they_are_granted(rt: HostRuntime) -> Result<(), Fail> {
    // The parts of the address, LEN, GO, what comes of the action that is asked for, and what the guest puts.
    let rows: [(u32, u32, u32, u32, &str, &[u8]); 7] = [
        // A byte of the reserved ones, and nothing.
        (0, 0x207, 1, 2, "SMG", b"11A\0\01"),
        (0, 0x207, 1, 0, "", b"00\0\0\01"),
        // The bytes before and behind them.
        (0, 0x1f8, 8, 2, "SMG", b"10\0\0\01"),
        (0, 0x208, 8, 2, "SMG", b"10\0\0\01"),
        // Across the end of what is granted, and up to it.
        (1, 0xffe, 4, 2, "SMG", b"20\0\0\01"),
        (1, 0xffe, 2, 2, "SMG", b"10\0AA1"),
        // More than a probe writes at once.
        (0, 0x207, 9, 2, "", b"20\0\0\01"),
    ];
    for (row, (upper, lower, len, go, service, put)) in rows.into_iter().enumerate() {
        let image = image_of(&rt, &probing(upper, lower, len, go))?;
        assert!(rt; image.len() <= FLAT_RAM_BYTES as usize);
        let machine = with_probe(rt.alloc(), Rights::WRITE)?;
        let devices = first_probe(rt.alloc());
        let mut monitor = Monitor::new(rt.alloc(), &machine, &devices, &image)?;
        for part in ["97TTTT", service, "TRD98"] {
            for &letter in part.as_bytes() {
                for _ in 0..times(letter) {
                    assert!(rt; monitor.step(&entry_of(&rt, letter)).is_ok(), "row {row}");
                }
            }
        }
        assert_eq!(rt; monitor.console(), put, "row {row}");
    }
    Ok(())
}

#[test]
fn moves_of_a_device_keep_their_order(rt: HostRuntime) -> Result<(), Fail> {
    use Replayed::{Illegal, Legal};
    let rows: [(&[u32], &str, Replayed); 26] = [
        // A read of memory, and an interrupt.
        (&READING, "8TTTSMGTRD3", Legal(None)),
        (&ALARMING, "8TTTSIGTtRD3", Legal(None)),
        // A device takes no item before there is one, nor more than there are.
        (&READING, "T", Illegal(0)),
        (&READING, "3TT", Illegal(2)),
        // A service before the load, and the load before the end of a service.
        (&READING, "7TTTSMG1TRD3", Legal(None)),
        (&READING, "8TTTT", Illegal(4)),
        (&READING, "8TTTST", Illegal(5)),
        (&READING, "8TTTSMT", Illegal(6)),
        // Nothing to ask; asked twice; asked again before the reply was got.
        (&READING, "8TTS", Illegal(3)),
        (&READING, "8TTTSS", Illegal(5)),
        (&READING, "8TTTSMGS", Illegal(7)),
        // A service that was not asked, or of another way, or twice.
        (&READING, "8TTTM", Illegal(4)),
        (&READING, "8TTTSI", Illegal(5)),
        (&ALARMING, "8TTTSM", Illegal(5)),
        (&READING, "8TTTSMM", Illegal(6)),
        // A reply that no service gave.
        (&READING, "8TTTSG", Illegal(5)),
        // No answer is due to a store; a value is delivered after its Reply, and once.
        (&READING, "8TR", Illegal(2)),
        (&READING, "8TTTSMGTD", Illegal(8)),
        (&READING, "8TTTSMGTRDD", Illegal(10)),
        // Nothing is taken while a value is due.
        (&READING, "8TTTSMGToooT", Illegal(9)),
        (&READING, "8TTTSMGToooRTD", Legal(None)),
        // The hart waits until its load is delivered.
        (&READING, "9", Illegal(0)),
        (&READING, "8TTTSMGTR1", Illegal(9)),
        // A probe does nothing outside the machine.
        (&READING, "8TTTN", Illegal(4)),
        (&READING, "8TTTd", Illegal(4)),
        // A move of a device comes between two ticks, or a tick is refused.
        (&READING, "8tTtt", Illegal(4)),
    ];
    let machine = with_probe(rt.alloc(), Rights::READ)?;
    let devices = first_probe(rt.alloc());
    for (row, (words, moves, want)) in rows.into_iter().enumerate() {
        let image = image_of(&rt, words)?;
        assert!(rt; image.len() <= FLAT_RAM_BYTES as usize);
        let journal = journal_of(&rt, moves)?;
        let found = replay(rt.alloc(), &machine, &devices, &image, &journal)?;
        assert_eq!(rt; found, want, "row {row}");
    }
    Ok(())
}

/// What an event shows.
fn name_of(shown: Shown) -> &'static str {
    match shown {
        Shown::Nothing => "nothing",
        Shown::Byte(_) => "byte",
        Shown::Finish(_) => "finish",
        Shown::Access(_, Access::Load { .. }) => "load",
        Shown::Access(_, Access::Store { .. }) => "store",
    }
}

#[test]
fn a_hart_that_makes_no_event_would_show_nothing(rt: HostRuntime) -> Result<(), Fail> {
    let image = image_of(&rt, &READING)?;
    assert!(rt; image.len() <= FLAT_RAM_BYTES as usize);
    let machine = with_probe(rt.alloc(), Rights::READ)?;
    let mut guest = Guest::new(rt.alloc(), &machine, &image)?;
    let second = HartNo::new(1).expect(&rt, "a hart");
    let absent = HartNo::new(2).expect(&rt, "a hart");
    for want in [
        "nothing", "nothing", "store", "nothing", "store", "nothing", "store", "load",
    ] {
        assert_eq!(rt; name_of(guest.looks(HartNo::FIRST)), want);
        let (made, shown) = guest.burst(HartNo::FIRST, 1, &OPEN);
        assert_eq!(rt; (made, name_of(shown)), (1, want));
    }
    // it waits for its load; the other hart doesn't, until the run ends
    assert_eq!(rt; name_of(guest.looks(HartNo::FIRST)), "nothing");
    guest.burst(second, 2, &OPEN);
    assert_eq!(rt; name_of(guest.looks(second)), "store");
    assert_eq!(rt; name_of(guest.looks(absent)), "nothing");
    guest.end(Why::Full);
    assert_eq!(rt; name_of(guest.looks(second)), "nothing");
    Ok(())
}
