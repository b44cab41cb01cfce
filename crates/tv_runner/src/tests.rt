//! Whole runs over sinks in memory, with values worked out by hand.

ghost use Rattle.std.specs.Prelude.{◌≡◌, ◌≤◌, [], IfOk};
ghost use Rattle.tv_machine.specs.Valid.{IsValid};

use super::{Ran, solo};
use std::alloc::Global;
use std::process::Abort;
use std::test::Fail;
use tv_base::{FLAT_RAM_BYTES, Memory, Why};
use tv_fake::MemorySink;
use tv_fake::first_run::{IMAGE_WORDS, OUTPUT};
use tv_machine::Machine;
use tv_spec::Stop;

/// The image that puts `A` and then jumps to itself.
const PUT_AND_LOOP: [u32; 4] = [0x100002b7, 0x04100313, 0x00628023, 0x0000006f];

/// Each of two harts adds 1 four times by AMOADD; hart 0 waits for 8, puts it as a digit and switches the machine off.
const ADDING: [u32; 18] = [
    0x00000297, 0x20028e13, 0x00400313, 0x00100393, 0x007e202f, 0xfff30313, 0xfe031ce3, 0x00051063,
    0x00800493, 0x000e2403, 0xfe941ee3, 0x03040413, 0x100005b7, 0x00858023, 0x001005b7, 0x00005637,
    0x55560613, 0x00c5a023,
];

/// Each of two harts adds 1 under a lock by LR and SC, which it holds for longer than a turn: it loads, counts down from
/// 50, and stores. Hart 0 waits for both, puts the sum as a digit and switches the machine off.
const LOCKING: [u32; 28] = [
    0x00000297, 0x20028e13, 0x00100393, 0x100e242f, 0xfe041ee3, 0x187e242f, 0xfe041ae3, 0x008e2483,
    0x03200313, 0xfff30313, 0xfe031ee3, 0x00148493, 0x009e2423, 0x080e202f, 0x010e0693, 0x0076a02f,
    0x00051063, 0x00200313, 0x010e2403, 0xfe641ee3, 0x008e2403, 0x03040413, 0x100005b7, 0x00858023,
    0x001005b7, 0x00005637, 0x55560613, 0x00c5a023,
];

/// Hart 0 reserves 8 bytes and counts down from 40, past its turn, in which hart 1 stores a byte there; it stores where it
/// still may, and puts whether not as a digit. It does so again at once, and switches the machine off.
const RESERVING: [u32; 22] = [
    0x00000297, 0x20028e13, 0x04051463, 0x00500393, 0x100005b7, 0x100e342f, 0x02800313, 0xfff30313,
    0xfe031ee3, 0x187e342f, 0x03040413, 0x00858023, 0x100e342f, 0x187e342f, 0x03040413, 0x00858023,
    0x001005b7, 0x00005637, 0x55560613, 0x00c5a023, 0x00ae03a3, 0x0000006f,
];

/// The journal file of two harts with 200 events: a turn of 64 for each, a tick of 64, a turn of 64, and 8 events.
const TWO_HARTS: [u8; 38] = [
    b'T', b'V', b'J', b'1', 0x01, 0, 64, 0, 0, 0, 0x01, 1, 64, 0, 0, 0, 0x0b, 64, 0, 0, 0, 0x01, 0,
    64, 0, 0, 0, 0x01, 1, 8, 0, 0, 0, 0x00, 5, 0, 0, 0,
];

/// What a run has to go by.
#[derive(Clone, Copy)]
struct Given {
    harts: u8,
    /// Events at most.
    steps: u32,
    /// Room for records.
    room: u32,
    /// Whether the first put fails.
    fails: bool,
}

/// One hart with so many events at most and ample room, over a sink that works.
const fn steps(steps: u32) -> Given {
    Given {
        harts: 1,
        steps,
        room: 1000,
        fails: false,
    }
}

/// A machine of 1 MiB with so many harts, events and records.
fn machine(alloc: Global, harts: u8, steps: u32, records: u32) -> Result<Machine, Memory>
    requires harts { (1 ≤ harts) × (harts ≤ 8) }
    requires steps { (1 ≤ steps) × (steps ≤ 1000) }
    requires records { (1 ≤ records) × (records ≤ 1000) }
    ensures { IfOk result (λ machine. (machine.ram ≡ FLAT_RAM_BYTES) × IsValid machine × (machine.device ≡ [])) }
{
    let mut machine = Machine::flat(alloc)?;
    machine.harts = harts;
    machine.steps = steps;
    machine.journal_entries = records;
    Ok(machine)
}

/// The bytes of an image by its words.
fn image(rt: &impl AllocGlobal, words: &[u32]) -> Result<Vec<u8>, Fail> {
    let mut image = Vec::new(rt.alloc());
    for word in words {
        image.extend_from_slice(&word.to_le_bytes())?;
    }
    Ok(image)
}

/// A run of an image, and its output.
fn run(
    rt: &(impl AllocGlobal + Abort),
    words: &[u32],
    given: Given,
) -> Result<(Ran, MemorySink), Fail> {
    assert!(rt; given.harts >= 1 && given.harts <= 8);
    assert!(rt; given.steps >= 1 && given.steps <= 1000);
    assert!(rt; given.room >= 1 && given.room <= 1000);
    let image = image(rt, words)?;
    assert!(rt; image.len() <= FLAT_RAM_BYTES as usize);
    let machine = machine(rt.alloc(), given.harts, given.steps, given.room)?;
    let mut failing = Vec::new(rt.alloc());
    if given.fails {
        failing.push(0)?;
    }
    let mut out = MemorySink::new(rt.alloc(), 64, failing)?;
    let ran = solo(rt.alloc(), &machine, &image, &mut out)?;
    Ok((ran, out))
}

/// A cause in a word.
fn why_text(why: Why) -> &'static str {
    match why {
        Why::PowerOff => "off",
        Why::Steps => "steps",
        Why::Full => "full",
        Why::DebugLost => "lost",
        _ => "other",
    }
}

/// A stop in a word.
fn stop_text(stop: Option<Stop>) -> &'static str {
    match stop {
        None => "none",
        Some(Stop::Ended(why)) => why_text(why),
        Some(Stop::Full) => "full",
    }
}

#[test]
fn runs_stop_as_their_words_say(rt: HostRuntime) -> Result<(), Fail> {
    // Each by its image, with why it stopped, its output, and the number of its entries.
    let rows: [(&[u32], Given, &str, &str, u64); 9] = [
        (&IMAGE_WORDS, steps(1000), "off", OUTPUT, 7),
        (&IMAGE_WORDS, steps(6), "steps", "A", 6),
        (&[0x0000006f], steps(10), "steps", "", 10),
        (&[0x0000006f], steps(100), "steps", "", 101),
        (&PUT_AND_LOOP, steps(100), "steps", "A", 101),
        // Words that trap, and then trap on at address 0.
        (&[0x00000073], steps(65), "steps", "", 66),
        (
            &[0x100002b7, 0x04100313, 0x00628023, 0x00000000],
            steps(64),
            "steps",
            "A",
            64,
        ),
        (
            &IMAGE_WORDS,
            Given {
                room: 1,
                ..steps(7)
            },
            "off",
            "A",
            7,
        ),
        (
            &IMAGE_WORDS,
            Given {
                harts: 2,
                ..steps(1000)
            },
            "off",
            "A",
            7,
        ),
    ];
    for (words, given, stop, text, entries) in rows {
        let (ran, out) = run(&rt, words, given)?;
        assert_eq!(rt; stop_text(ran.stop), stop);
        assert_eq!(rt; out.as_slice(), text.as_bytes());
        assert_eq!(rt; ran.journal.events(), entries);
        assert!(rt; ran.journal.outer().is_none() && !ran.lost);
    }
    Ok(())
}

#[test]
fn harts_share_memory(rt: HostRuntime) -> Result<(), Fail> {
    // Each by its image, with what it puts.
    let rows: [(&[u32], &str); 3] = [(&ADDING, "8"), (&LOCKING, "2"), (&RESERVING, "10")];
    for (words, text) in rows {
        let given = Given {
            harts: 2,
            ..steps(1000)
        };
        let (ran, out) = run(&rt, words, given)?;
        assert_eq!(rt; stop_text(ran.stop), "off");
        assert_eq!(rt; out.as_slice(), text.as_bytes());
    }
    Ok(())
}

#[test]
fn journal_has_turns_and_ticks(rt: HostRuntime) -> Result<(), Fail> {
    let given = Given {
        harts: 2,
        ..steps(200)
    };
    let (ran, _) = run(&rt, &[0x0000006f], given)?;
    let mut file = MemorySink::new(rt.alloc(), 64, Vec::new(rt.alloc()))?;
    assert!(rt; ran.journal.write_file(&mut file).is_ok());
    assert_eq!(rt; file.as_slice(), TWO_HARTS.as_slice());
    Ok(())
}

#[test]
fn runs_cut_short_say_why(rt: HostRuntime) -> Result<(), Fail> {
    let lost = Given {
        fails: true,
        ..steps(1000)
    };
    // Each with why it stopped, the number of its entries, its outer end, and whether bytes were lost.
    let rows: [(&[u32], Given, &str, u64, (u64, &str), bool); 6] = [
        (
            &[0x0000006f],
            Given {
                room: 1,
                ..steps(64)
            },
            "steps",
            64,
            (0, "none"),
            false,
        ),
        (
            &[0x0000006f],
            Given {
                room: 1,
                ..steps(65)
            },
            "full",
            64,
            (64, "full"),
            false,
        ),
        (
            &[0x0000006f],
            Given {
                room: 2,
                ..steps(65)
            },
            "full",
            65,
            (65, "full"),
            false,
        ),
        (
            &[0x0000006f],
            Given {
                room: 3,
                ..steps(65)
            },
            "steps",
            66,
            (0, "none"),
            false,
        ),
        (&IMAGE_WORDS, lost, "off", 7, (0, "none"), true),
        (&PUT_AND_LOOP, lost, "none", 65, (65, "lost"), true),
    ];
    for (words, given, stop, entries, outer, lost) in rows {
        let (ran, out) = run(&rt, words, given)?;
        let end = match ran.journal.outer() {
            Some((before, why)) => (before, why_text(why)),
            None => (0, "none"),
        };
        assert_eq!(rt; stop_text(ran.stop), stop);
        assert_eq!(rt; ran.journal.events(), entries);
        assert_eq!(rt; end, outer);
        assert!(rt; ran.lost == lost && out.as_slice().is_empty());
    }
    Ok(())
}
