//! Runs of a proxied machine with one probe, worked out by hand: each step, what it comes to, and the journal that the run leaves.
//!
//! A run is told in words, which are the letter of a step and what it comes to. `a` and `b` are turns of one event of hart 0 and 1, `A`
//! and `B` turns of as many as there are: they come to the number of events, `w` where the hart waits, `s` where it stalls, `e` where the
//! run had ended or ends now. Calls come to `+` where they make their entry, else to `-`; of the worker `t` is Take, `s` Send, `g` Got,
//! `r` Reply; `m` and `i` the memory and the interrupt service, `d` Deliver, `c` a tick. `n`, `h` and `H` hand debug bytes out to a slice
//! of none, 2 and 16, `l` is an output that fails, `x` a listener that fails, `w` many turns of hart 0 with all that follows them, `?` the
//! cause of the end with its status, and `z` the last turn, of one event of hart 1.

ghost use Rattle.std.specs.Prelude.{◌≡◌, ◌≤◌, [], IfOk, length, slice_get};
ghost use Rattle.tv_machine.specs.Valid.{IsInRam, IsValid, IsWithin};
ghost use Rattle.tv_plan.specs.Devices.{DeviceState};
ghost use Rattle.tv_plan.specs.Probe.{new_probe};
ghost use Rattle.tv_spec.specs.State.{first_in};

use super::probed::Probed;
use bitflags::Flags;
use std::alloc::Global;
use std::process::Abort;
use std::test::Fail;
use tv_base::{DevNo, FLAT_RAM_BYTES, HartNo, Memory, PAGE_BYTES, RAM_BASE, Rights, Why};
use tv_core::Turn;
use tv_fake::MemorySink;
use tv_journal::Journal;
use tv_machine::{DeviceKind, DeviceSpec, Machine, MemRange, RangeList};

/// What a machine has to go by.
#[derive(Clone, Copy)]
struct Given {
    /// Places of the command tube for harts.
    tube: u16,
    /// Room for records.
    records: u32,
    /// The limit of events.
    steps: u32,
    /// How many pages from the start of memory the probe may touch.
    pages: u32,
    irq: bool,
}

/// Ample room, and a probe that may read and write the first page and raise an interrupt.
const AMPLE: Given = Given {
    tube: 256,
    records: 1000,
    steps: 100_000,
    pages: 1,
    irq: true,
};

/// The flat machine with two harts.
fn two_harts(alloc: Global, given: Given) -> Result<Machine, Memory>
    requires tube { IsWithin 1 256 given.tube }
    requires records { IsWithin 1 1000 given.records }
    requires steps { IsWithin 1 100000 given.steps }
    ensures { IfOk result (λ machine. (machine.ram ≡ FLAT_RAM_BYTES) × (machine.device ≡ []) × IsValid machine) }
{
    let mut machine = Machine::flat(alloc)?;
    machine.harts = 2;
    machine.tube = given.tube;
    machine.journal_entries = given.records;
    machine.steps = given.steps;
    Ok(machine)
}

/// So many pages from the start of memory, to be read and written.
fn first_pages(pages: u32) -> MemRange
    requires { IsWithin 1 2 pages }
    ensures { IsInRam FLAT_RAM_BYTES result }
{
    MemRange {
        base: RAM_BASE,
        len: PAGE_BYTES * pages,
        rights: <Rights as Flags>::from_bits_retain(3),
    }
}

/// That machine with one probe.
fn machine(alloc: Global, given: Given) -> Result<Machine, Memory>
    requires tube { IsWithin 1 256 given.tube }
    requires records { IsWithin 1 1000 given.records }
    requires steps { IsWithin 1 100000 given.steps }
    requires pages { IsWithin 1 2 given.pages }
    ensures machine { IfOk result (λ machine. (machine.ram ≡ FLAT_RAM_BYTES) × (length machine.device ≡ 1) × IsValid machine) }
    ensures probe { IfOk result (λ machine. first_in 0 (slice_get machine.device 0) ≡ DeviceState.Probe new_probe) }
{
    let mut machine = two_harts(alloc, given)?;
    let mut mem = RangeList::new();
    mem.push(alloc, first_pages(given.pages))?;
    let probe = DeviceSpec {
        kind: DeviceKind::Probe,
        mem,
        irq: given.irq,
        disk: None,
        readonly: false,
        output: None,
        input: None,
        sectors: 0,
    };
    machine.device.push(alloc, probe)?;
    Ok(machine)
}

/// The image of these instructions with data behind them.
fn image(rt: &impl AllocGlobal, words: &[u32], data: &[u32]) -> Result<Vec<u8>, Fail> {
    let mut image = Vec::new(rt.alloc());
    for part in [words, data] {
        for word in part {
            image.extend_from_slice(&word.to_le_bytes())?;
        }
    }
    Ok(image)
}

/// That machine with an image, and the worker of its probe.
fn begun(rt: &(impl AllocGlobal + Abort), image: &[u8], given: Given) -> Result<Probed, Fail> {
    assert!(rt; image.len() <= FLAT_RAM_BYTES as usize);
    assert!(rt; 1 <= given.tube && given.tube <= 256);
    assert!(rt; 1 <= given.records && given.records <= 1000);
    assert!(rt; 1 <= given.steps && given.steps <= 100_000);
    assert!(rt; 1 <= given.pages && given.pages <= 2);
    let machine = machine(rt.alloc(), given)?;
    let dev = DevNo::new(0).expect(rt, "a device");
    Ok(Probed::new(rt.alloc(), &machine, image, dev)?)
}

/// What a call of the worker, of a service or of the clock comes to.
fn call(probed: &mut Probed, step: u8) -> Result<bool, Fail> {
    Ok(match step {
        b't' => probed.take(),
        b's' => probed.send(),
        b'm' => probed.serve_mem(),
        b'i' => probed.serve_irq(),
        b'g' => probed.got()?,
        b'r' => probed.reply(),
        b'd' => probed.deliver(),
        b'c' => probed.tick(),
        _ => return Err(Fail::from("there is no such step")),
    })
}

/// Turns of hart 0, each followed by all that the worker and the services can do.
fn work(rt: &impl Abort, probed: &mut Probed) -> Result<(), Fail> {
    for _ in 0..16 {
        let _turn = probed.turn(hart(rt, 0), 64);
        for _ in 0..8 {
            for &step in b"tsmigrd" {
                let _made = call(probed, step)?;
            }
        }
    }
    Ok(())
}

fn hart(rt: &impl Abort, number: u8) -> HartNo {
    HartNo::new(number).expect(rt, "a hart")
}

/// Tells what a call came to: `+` where it made its entry, `-` where it made none.
fn tell_call(said: &mut Vec<u8>, made: bool) -> Result<(), Fail> {
    Ok(said.push(if made { b'+' } else { b'-' })?)
}

/// Tells what a turn came to: its events, or that the hart waits, that it stalls, that the run had ended or ends now; `-` where an
/// outer end was made before.
fn tell_turn(rt: &impl AllocGlobal, said: &mut Vec<u8>, turn: Option<Turn>) -> Result<(), Fail> {
    let word = match turn {
        Some(Turn::Ran(made)) => {
            let count = format!(in rt.alloc(); "{made}")?;
            return Ok(said.extend_from_slice(count.as_bytes())?);
        }
        Some(Turn::Waits) => b'w',
        Some(Turn::Stalled) => b's',
        Some(Turn::Ending) => b'e',
        None => b'-',
    };
    Ok(said.push(word)?)
}

/// Tells the debug bytes that are handed out to a slice of so many.
fn tell_bytes(said: &mut Vec<u8>, probed: &mut Probed, places: usize) -> Result<(), Fail>
    requires { places ≤ 16 }
{
    let mut out = [0; 16];
    let count = probed.debug_take(&mut out[..places]);
    Ok(said.extend_from_slice(&out[..count])?)
}

/// Tells the cause of the end and its status, if there is an end.
fn tell_end(said: &mut Vec<u8>, probed: &Probed) -> Result<(), Fail> {
    let why: &[u8] = match probed.why() {
        None => b"open",
        Some(Why::PowerOff) => b"off",
        Some(Why::Failed(7)) => b"failed",
        Some(Why::DebugLost) => b"lost",
        Some(Why::Steps) => b"steps",
        Some(Why::Full) => b"full",
        Some(Why::ListenFailed) => b"cut",
        Some(_) => b"other",
    };
    said.extend_from_slice(why)?;
    if let Some(status) = probed.status() {
        said.push(status)?;
    }
    Ok(())
}

/// Does a step and tells what it comes to.
fn tell_step(
    rt: &(impl AllocGlobal + Abort),
    said: &mut Vec<u8>,
    probed: &mut Probed,
    step: u8,
) -> Result<(), Fail> {
    match step {
        b'a' => tell_turn(rt, said, probed.turn(hart(rt, 0), 1)),
        b'b' => tell_turn(rt, said, probed.turn(hart(rt, 1), 1)),
        b'A' => tell_turn(rt, said, probed.turn(hart(rt, 0), u16::MAX)),
        b'B' => tell_turn(rt, said, probed.turn(hart(rt, 1), u16::MAX)),
        b'n' => tell_bytes(said, probed, 0),
        b'h' => tell_bytes(said, probed, 2),
        b'H' => tell_bytes(said, probed, 16),
        b'?' => tell_end(said, probed),
        b'w' => work(rt, probed),
        b'l' => {
            probed.lose();
            Ok(())
        }
        b'x' => {
            probed.cut_off();
            Ok(())
        }
        // The last turn comes behind all steps.
        b'z' => Ok(()),
        _ => tell_call(said, call(probed, step)?),
    }
}

/// Does the steps of a text, whose words each begin with the letter of a step, and tells what they come to.
fn tell_steps(
    rt: &(impl AllocGlobal + Abort),
    said: &mut Vec<u8>,
    probed: &mut Probed,
    text: &[u8],
) -> Result<(), Fail> {
    let mut begins = true;
    for &byte in text {
        if begins {
            said.push(byte)?;
            tell_step(rt, said, probed, byte)?;
        }
        begins = byte == b' ';
        if begins {
            said.push(byte)?;
        }
    }
    Ok(())
}

/// A run, and what is told of it.
struct Run {
    /// What lies in memory: instructions, and data behind them.
    words: &'static [u32],
    data: &'static [u32],
    given: Given,
    /// The steps, each with what it comes to.
    told: &'static [u8],
    /// The journal file.
    file: &'static [u8],
}

/// What a run tells, with its last turn, and the journal that it leaves.
fn told_by(rt: &(impl AllocGlobal + Abort), run: &Run) -> Result<(Vec<u8>, Journal), Fail> {
    let image = image(rt, run.words, run.data)?;
    let mut probed = begun(rt, &image, run.given)?;
    let mut said = Vec::new(rt.alloc());
    tell_steps(rt, &mut said, &mut probed, run.told)?;
    let Some((turn, journal)) = probed.last_turn(hart(rt, 1)) else {
        return Err(Fail::from("the machine has two harts"));
    };
    tell_turn(rt, &mut said, Some(turn))?;
    Ok((said, journal))
}

/// The file of a journal.
fn file_of(rt: &(impl AllocGlobal + Abort), journal: &Journal) -> Result<MemorySink, Fail> {
    let mut file = MemorySink::new(rt.alloc(), 1024, Vec::new(rt.alloc()))?;
    assert!(rt; journal.write_file(&mut file).is_ok());
    Ok(file)
}

/// Each run is told as it is written.
fn are_so(rt: &(impl AllocGlobal + Abort), runs: &[Run]) -> Result<(), Fail> {
    for (row, run) in runs.iter().enumerate() {
        let (said, journal) = told_by(rt, run)?;
        assert_eq!(rt; said.as_slice(), run.told, "run {row}");
        let file = file_of(rt, &journal)?;
        assert_eq!(rt; file.as_slice(), run.file, "run {row}");
    }
    Ok(())
}

/// lui x5, 0x10001; addi x7, x0, 0x11; sd x7, 16(x5); addi x7, x0, 0x22; sd x7, 16(x5); ld x8, 16(x5); lui x9, 0x10000;
/// sb x8, 0(x9); jal x0, 0. The sixth event is the load.
const POSTING: [u32; 9] = [
    0x100012b7, 0x01100393, 0x0072b823, 0x02200393, 0x0072b823, 0x0102b403, 0x100004b7, 0x00848023,
    0x0000006f,
];

/// lui x5, 0x10001; lui x11, 0x10000; bne x10, x0, 24. Hart 0: addi x7, x0, 0x33; sd x7, 16(x5); ld x8, 32(x5); sb x8, 0(x11);
/// jal x0, 0. Hart 1: ld x8, 16(x5); sb x8, 0(x11); jal x0, 0. Their loads are the sixth event of hart 0, and the fourth of hart 1.
const LOADING: [u32; 11] = [
    0x100012b7, 0x100005b7, 0x00051c63, 0x03300393, 0x0072b823, 0x0202b403, 0x00858023, 0x0000006f,
    0x0102b403, 0x00858023, 0x0000006f,
];

const POSTED: [Run; 4] = [
    // Two stores and a load before the worker moves, and while it does.
    Run {
        words: &POSTING,
        data: &[],
        given: AMPLE,
        told: b"A6 aw t+ t+ t+ d- r+ aw d+ t- a1 a1 H\x22 ?open z1",
        file: b"TVJ1\x01\0\x06\0\0\0\x02\0\x02\0\x02\0\x07\0\x08\0\x01\0\x02\0\0\0\x01\x01\x01\0\0\0\0\x08\0\0\0",
    },
    Run {
        words: &POSTING,
        data: &[],
        given: AMPLE,
        told: b"a1 a1 a1 t+ t- a1 a1 t+ a1 t+ r+ d+ a1 a1 H\x22 ?open z1",
        file: b"TVJ1\x01\0\x03\0\0\0\x02\0\x01\0\x02\0\0\0\x02\0\x01\0\x01\0\0\0\x02\0\x07\0\x08\0\x01\0\x02\0\0\0\x01\x01\x01\0\0\0\0\x0a\0\0\0",
    },
    // A store of hart 0, then its load of COUNT and the other hart's of DATA, in either order.
    Run {
        words: &LOADING,
        data: &[],
        given: AMPLE,
        told: b"A6 B4 t+ t+ t- r+ t+ r+ d+ bw d+ a1 b1 H\x013 ?open z1",
        file: b"TVJ1\x01\0\x06\0\0\0\x01\x01\x04\0\0\0\x02\0\x02\0\x07\0\x02\0\x07\0\x08\0\x08\0\x01\0\x01\0\0\0\x01\x01\x02\0\0\0\0\x0b\0\0\0",
    },
    Run {
        words: &LOADING,
        data: &[],
        given: AMPLE,
        told: b"a1 a1 a1 a1 a1 B4 a1 t+ t+ r+ t+ r+ d+ aw d+ a1 b1 H\x013 ?open z1",
        file: b"TVJ1\x01\0\x05\0\0\0\x01\x01\x04\0\0\0\x01\0\x01\0\0\0\x02\0\x02\0\x07\0\x02\0\x07\0\x08\0\x08\0\x01\0\x01\0\0\0\x01\x01\x02\0\0\0\0\x0c\0\0\0",
    },
];

#[test]
fn each_value_reaches_its_hart_after_the_stores_before_it(rt: HostRuntime) -> Result<(), Fail> {
    are_so(&rt, &POSTED)
}

/// auipc x6, 0; addi x12, x6, 88; lui x5, 0x10001; lui x11, 0x10000; addi x7, x0, 0x41; sd x7, 16(x5): DATA begins as `A`, and
/// triples of an offset in memory, a length and an action lie behind the words. For each, lw x13, 8(x12); beq x13, x0, 48;
/// lw x7, 0(x12); add x7, x7, x6; sd x7, 0(x5); lw x7, 4(x12); sw x7, 8(x5); sw x13, 24(x5); lw x9, 28(x5); addi x9, x9, 48;
/// sb x9, 0(x11); addi x12, x12, 12; jal x0, -48: the probe does the action, and the digit of RESULT is put. Where there is none,
/// ld x9, 16(x5); sb x9, 0(x11); jal x0, 0: the low byte of DATA is put.
const ASKING: [u32; 22] = [
    0x00000317, 0x05830613, 0x100012b7, 0x100005b7, 0x04100393, 0x0072b823, 0x00862683, 0x02068863,
    0x00062383, 0x006383b3, 0x0072b023, 0x00462383, 0x0072a423, 0x00d2ac23, 0x01c2a483, 0x03048493,
    0x00958023, 0x00c60613, 0xfd1ff06f, 0x0102b483, 0x00958023, 0x0000006f,
];

const ASKED: [Run; 4] = [
    // A write of 4 bytes across the end of the range, and one of 2 bytes up to it; of more than a probe writes at once, which
    // is refused before it is sent; an interrupt.
    Run {
        words: &ASKING,
        data: &[0xffe, 4, 2, 0xffe, 2, 2, 0x1000, 9, 2, 0, 1, 3, 0, 0, 0],
        given: AMPLE,
        told: b"w H2121A ?open z1",
        file: b"TVJ1\x01\0\x0f\0\0\0\x02\0\x02\0\x02\0\x02\0\x03\0\x04\0\x06\0\x02\0\x07\0\x08\0\x01\0\x0d\0\0\0\x02\0\x02\0\x02\0\x03\0\x04\0\x06\0\x02\0\x07\0\x08\0\x01\0\x0d\0\0\0\x02\0\x02\0\x02\0\x02\0\x07\0\x08\0\x01\0\x0d\0\0\0\x02\0\x02\0\x02\0\x03\0\x05\0\x06\0\x02\0\x07\0\x08\0\x01\0\x07\0\0\0\x02\0\x07\0\x08\0\x01\0\xc0\x02\0\0\x01\x01\x01\0\0\0\0,\0\0\0",
    },
    // A probe without an interrupt.
    Run {
        words: &ASKING,
        data: &[0, 1, 3, 0, 0, 0],
        given: Given {
            irq: false,
            ..AMPLE
        },
        told: b"w H2A ?open z1",
        file: b"TVJ1\x01\0\x0f\0\0\0\x02\0\x02\0\x02\0\x02\0\x03\0\x05\0\x06\0\x02\0\x07\0\x08\0\x01\0\x07\0\0\0\x02\0\x07\0\x08\0\x01\0\x80\x03\0\0\x01\x01\x01\0\0\0\0\x11\0\0\0",
    },
    // Written and read; released in between, after which it isn't written until it is regained.
    Run {
        words: &ASKING,
        data: &[0x1000, 1, 2, 0x1000, 1, 1, 0, 0, 0],
        given: Given { pages: 2, ..AMPLE },
        told: b"w H11A ?open z1",
        file: b"TVJ1\x01\0\x0f\0\0\0\x02\0\x02\0\x02\0\x02\0\x03\0\x04\0\x06\0\x02\0\x07\0\x08\0\x01\0\x0d\0\0\0\x02\0\x02\0\x02\0\x03\0\x04\0\x06\0\x02\0\x07\0\x08\0\x01\0\x07\0\0\0\x02\0\x07\0\x08\0\x01\0@\x03\0\0\x01\x01\x01\0\0\0\0\x1b\0\0\0",
    },
    Run {
        words: &ASKING,
        data: &[
            0x1000, 1, 2, 0x1000, 1, 4, 0x1000, 1, 2, 0x1000, 1, 5, 0x1000, 1, 1, 0, 0, 0,
        ],
        given: Given { pages: 2, ..AMPLE },
        told: b"w H11211\0 ?open z1",
        file: b"TVJ1\x01\0\x0f\0\0\0\x02\0\x02\0\x02\0\x02\0\x03\0\x04\0\x06\0\x02\0\x07\0\x08\0\x01\0\x0d\0\0\0\x02\0\x02\0\x02\0\x03\0\x04\0\x06\0\x02\0\x07\0\x08\0\x01\0\x0d\0\0\0\x02\0\x02\0\x02\0\x03\0\x04\0\x06\0\x02\0\x07\0\x08\0\x01\0\x0d\0\0\0\x02\0\x02\0\x02\0\x03\0\x04\0\x06\0\x02\0\x07\0\x08\0\x01\0\x0d\0\0\0\x02\0\x02\0\x02\0\x03\0\x04\0\x06\0\x02\0\x07\0\x08\0\x01\0\x07\0\0\0\x02\0\x07\0\x08\0\x01\0\x80\x02\0\0\x01\x01\x01\0\0\0\09\0\0\0",
    },
];

#[test]
fn actions_are_done_where_they_are_granted(rt: HostRuntime) -> Result<(), Fail> {
    are_so(&rt, &ASKED)
}

/// lui x5, 0x10001; sd x0, 16(x5); ld x6, 16(x5); jal x0, 0.
const STORING: [u32; 4] = [0x100012b7, 0x0002b823, 0x0102b303, 0x0000006f];

const STALLED: [Run; 3] = [
    // One place, and two records: the load stalls, and only where it finds a place is room wanting.
    Run {
        words: &STORING,
        data: &[],
        given: Given {
            tube: 1,
            records: 2,
            ..AMPLE
        },
        told: b"a1 a1 as t+ ae ?full\x07 ze",
        file: b"TVJ1\x01\0\x02\0\0\0\x02\0\x10\x01\0\x02\0\0\0",
    },
    Run {
        words: &STORING,
        data: &[],
        given: Given {
            tube: 1,
            records: 2,
            ..AMPLE
        },
        told: b"w ?full\x07 ze",
        file: b"TVJ1\x01\0\x02\0\0\0\x02\0\x10\x01\0\x02\0\0\0",
    },
    // With more records the other hart stalls at its store, and goes on with a place.
    Run {
        words: &STORING,
        data: &[],
        given: Given {
            tube: 1,
            records: 5,
            ..AMPLE
        },
        told: b"a1 a1 b1 bs as t+ b1 as t+ ?open ze",
        file: b"TVJ1\x01\0\x02\0\0\0\x01\x01\x01\0\0\0\x02\0\x01\x01\x01\0\0\0\x02\0\x10\x01\0\x05\0\0\0",
    },
];

#[test]
fn a_full_tube_stalls_before_room_is_asked_for(rt: HostRuntime) -> Result<(), Fail> {
    are_so(&rt, &STALLED)
}

/// auipc x6, 0; lui x5, 0x10001; sd x6, 0(x5); addi x7, x0, 4; sw x7, 8(x5); addi x7, x0, 1; sw x7, 24(x5); ld x8, 16(x5);
/// jal x0, 0: the probe reads 4 bytes, and the eighth event loads them.
const READING: [u32; 9] = [
    0x00000317, 0x100012b7, 0x0062b023, 0x00400393, 0x0072a423, 0x00100393, 0x0072ac23, 0x0102b403,
    0x0000006f,
];

const CUT: [Run; 4] = [
    // So many records that as many are left as are over 4 used ones and 2 reserved ones.
    Run {
        words: &READING,
        data: &[],
        given: Given {
            records: 7,
            ..AMPLE
        },
        told: b"A8 t+ t+ t+ s- m- g- t- ?full\x07 ze",
        file: b"TVJ1\x01\0\x08\0\0\0\x02\0\x02\0\x02\0\x10\x01\0\x04\0\0\0",
    },
    Run {
        words: &READING,
        data: &[],
        given: Given {
            records: 8,
            ..AMPLE
        },
        told: b"A8 t+ t+ t+ s+ m- g- s- ?full\x07 ze",
        file: b"TVJ1\x01\0\x08\0\0\0\x02\0\x02\0\x02\0\x03\0\x10\x01\0\x05\0\0\0",
    },
    Run {
        words: &READING,
        data: &[],
        given: Given {
            records: 9,
            ..AMPLE
        },
        told: b"A8 t+ t+ t+ s+ m+ be g+ g- t- ?full\x07 ze",
        file: b"TVJ1\x01\0\x08\0\0\0\x02\0\x02\0\x02\0\x03\0\x04\0\x10\x01\x06\0\0\x07\0\0\0",
    },
    Run {
        words: &READING,
        data: &[],
        given: Given {
            records: 10,
            ..AMPLE
        },
        told: b"A8 t+ t+ t+ s+ m+ g+ t+ be d- r+ d+ d- t- ?full\x07 ze",
        file: b"TVJ1\x01\0\x08\0\0\0\x02\0\x02\0\x02\0\x03\0\x04\0\x06\0\x02\0\x10\x01\x07\0\x08\0\0\x0a\0\0\0",
    },
];

#[test]
fn what_was_begun_arrives_after_the_journal_is_full(rt: HostRuntime) -> Result<(), Fail> {
    are_so(&rt, &CUT)
}

/// lui x5, 0x100; lui x6, 0x5; addi x6, x6, 0x555; sw x6, 0(x5); jal x0, 0: the fourth event switches the machine off.
const OFF: [u32; 5] = [0x001002b7, 0x00005337, 0x55530313, 0x0062a023, 0x0000006f];

/// lui x5, 0x100; lui x6, 0x73; addi x6, x6, 0x333; sw x6, 0(x5); jal x0, 0: the fourth event reports the failure 7.
const FAILING: [u32; 5] = [0x001002b7, 0x00073337, 0x33330313, 0x0062a023, 0x0000006f];

const ENDED: [Run; 11] = [
    // By events, of which the last may be the last of all: the other causes come too late.
    Run {
        words: &OFF,
        data: &[],
        given: AMPLE,
        told: b"A4 ae be l x c- ?off\0 ze",
        file: b"TVJ1\x01\0\x04\0\0\0\0\x01\0\0\0",
    },
    Run {
        words: &FAILING,
        data: &[],
        given: AMPLE,
        told: b"b1 b1 A4 be t- l ?failed\x01 ze",
        file: b"TVJ1\x01\x01\x02\0\0\0\x01\0\x04\0\0\0\0\x02\0\0\0",
    },
    Run {
        words: &OFF,
        data: &[],
        given: Given { steps: 4, ..AMPLE },
        told: b"A4 ae ?off\0 ze",
        file: b"TVJ1\x01\0\x04\0\0\0\0\x01\0\0\0",
    },
    Run {
        words: &OFF,
        data: &[],
        given: Given { steps: 3, ..AMPLE },
        told: b"a1 B2 ae x ?steps\x06 ze",
        file: b"TVJ1\x01\0\x01\0\0\0\x01\x01\x02\0\0\0\0\x02\0\0\0",
    },
    // From outside.
    Run {
        words: &OFF,
        data: &[],
        given: AMPLE,
        told: b"a1 a1 a1 l x t- c- a- ?lost\x05 ze",
        file: b"TVJ1\x01\0\x03\0\0\0\x10\x02\0\x01\0\0\0",
    },
    Run {
        words: &OFF,
        data: &[],
        given: AMPLE,
        told: b"x l t- s- m- ?cut\x0a ze",
        file: b"TVJ1\x10\x03\0\0\0\0\0",
    },
    // For want of room: at the clock's entry; at a hart's, which ends the turn in which its other events are; at a worker's.
    Run {
        words: &OFF,
        data: &[],
        given: Given {
            records: 1,
            ..AMPLE
        },
        told: b"a1 c- l g- d- ?full\x07 ze",
        file: b"TVJ1\x01\0\x01\0\0\0\x10\x01\0\x01\0\0\0",
    },
    Run {
        words: &STORING,
        data: &[],
        given: Given {
            records: 1,
            ..AMPLE
        },
        told: b"A2 t- i- x ?full\x07 ze",
        file: b"TVJ1\x01\0\x02\0\0\0\x10\x01\0\x01\0\0\0",
    },
    Run {
        words: &STORING,
        data: &[],
        given: Given {
            records: 1,
            ..AMPLE
        },
        told: b"a1 a1 t- l ?full\x07 ze",
        file: b"TVJ1\x01\0\x02\0\0\0\x10\x01\0\x01\0\0\0",
    },
    // Where nothing may stand, no room is wanting: a tube is empty, nothing was sent, and no two ticks follow one another.
    Run {
        words: &STORING,
        data: &[],
        given: Given {
            records: 1,
            ..AMPLE
        },
        told: b"a1 t- s- m- a1 ?open ze",
        file: b"TVJ1\x01\0\x02\0\0\0\x10\x01\0\x01\0\0\0",
    },
    Run {
        words: &STORING,
        data: &[],
        given: Given {
            records: 3,
            ..AMPLE
        },
        told: b"c+ c- a1 c+ c- t- ?open ze",
        file: b"TVJ1\x0b@\0\0\0\x01\0\x01\0\0\0\x0b@\0\0\0\x10\x01\0\x03\0\0\0",
    },
];

#[test]
fn the_first_cause_of_an_end_stays(rt: HostRuntime) -> Result<(), Fail> {
    are_so(&rt, &ENDED)
}

/// lui x9, 0x10000; sb x8, 0(x9); addi x8, x8, 1; jal x0, -8: the bytes from 0 on, of three events each.
const COUNTING: [u32; 4] = [0x100004b7, 0x00848023, 0x00140413, 0xff9ff06f];

const HANDED: [Run; 1] = [
    // Fewer than there are, none, and all; as many as the ring holds, after which the hart stalls until there is a place.
    Run {
        words: &COUNTING,
        data: &[],
        given: AMPLE,
        told: b"H a1 a1 a1 a1 a1 a1 a1 a1 a1 a1 h\0\x01 n a1 a1 a1 h\x02\x03 H A12288 as h\x04\x05 A6 as H\x06\x07\x08\x09\x0a\x0b\x0c\x0d\x0e\x0f\x10\x11\x12\x13\x14\x15 A48 ?open z1",
        file: b"TVJ1\x01\0C0\0\0\x01\x01\x01\0\0\0\0\x02\0\0\0",
    },
];

#[test]
fn debug_bytes_are_handed_out_once_and_in_order(rt: HostRuntime) -> Result<(), Fail> {
    are_so(&rt, &HANDED)
}
