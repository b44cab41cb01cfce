ghost use Rattle.std.specs.Prelude.{◌<◌};

use super::*;
use std::test::Fail;
use tv_base::{HartNo, Width};

// A step of a table, with the answer that is wanted.
#[derive(Clone, Copy)]
enum Step {
    Store(u32, u64),
    Load(u32, u64),
    Raise(u8, bool),
    // The lines of hart 0.
    Lines(u64),
}

use Step::{Lines, Load, Raise, Store};

// The place of the first step that is answered otherwise.
fn first_fault(intc: &mut Intc, steps: &[Step]) -> Option<usize>
    requires { 0 < intc.old.harts }
{
    for (place, step) in steps.iter().enumerate() {
        let right = match *step {
            Store(off, value) => {
                intc.write(off, Width::B4, value);
                true
            }
            Load(off, want) => intc.read(off, Width::B4) == want,
            Raise(source, want) => intc.raise(source) == want,
            Lines(want) => intc.lines(HartNo::FIRST) == want,
        };
        if !right {
            return Some(place);
        }
    }
    None
}

const EXTERNAL: u64 = 1 << 11;

const PENDING: u32 = 0x1000;

const ENABLES: u32 = 0x2000;

const THRESHOLD: u32 = 0x20_0000;

const CLAIM: u32 = 0x20_0004;

const OTHER_CLAIM: u32 = 0x20_1004;

#[test]
fn claims_go_by_priority_then_number(rt: HostRuntime) -> Result<(), Fail> {
    let steps = [
        Store(8, 3),
        Store(20, 3),
        Store(24, 2),
        Store(28, 4),
        Store(ENABLES, 0xffff_ffff),
        Store(THRESHOLD, 2),
        Lines(0),
        Raise(5, true),
        Raise(2, true),
        Raise(6, true),
        Load(PENDING, 0x64),
        Lines(EXTERNAL),
        Load(OTHER_CLAIM, 0),
        Load(CLAIM, 2),
        Raise(7, true),
        Load(CLAIM, 7),
        Load(CLAIM, 5),
        Load(CLAIM, 0),
        Load(PENDING, 0x40),
        Lines(0),
        Store(THRESHOLD, 1),
        Lines(EXTERNAL),
        Store(ENABLES, 0x1be),
        Lines(0),
        Load(CLAIM, 0),
    ];
    assert_eq!(rt; first_fault(&mut Intc::new(2), &steps), None);
    Ok(())
}

#[test]
fn a_threshold_as_great_as_the_priority_masks(rt: HostRuntime) -> Result<(), Fail> {
    let steps = [
        Store(8, 3),
        Store(20, 3),
        Store(ENABLES, 0x24),
        Raise(2, true),
        Raise(5, true),
        Store(THRESHOLD, 3),
        Lines(0),
        Load(CLAIM, 0),
        Load(PENDING, 0x24),
    ];
    assert_eq!(rt; first_fault(&mut Intc::new(1), &steps), None);
    Ok(())
}

#[test]
fn a_raise_while_claimed_is_held_once(rt: HostRuntime) -> Result<(), Fail> {
    let steps = [
        Store(8, 1),
        Store(ENABLES, 4),
        Raise(2, true),
        Raise(2, true),
        Load(CLAIM, 2),
        Raise(2, true),
        Raise(2, true),
        Load(PENDING, 0),
        // No source, a source that isn't claimed, and numbers that end in 2.
        Store(CLAIM, 0),
        Store(CLAIM, 5),
        Store(CLAIM, 0x102),
        Store(CLAIM, 0x8000_0002),
        Load(PENDING, 0),
        // Any hart completes, and the bytes above the fourth don't count.
        Store(OTHER_CLAIM, 0x7_0000_0002),
        Load(PENDING, 4),
        // Completing what is pending does nothing.
        Store(CLAIM, 2),
        Load(CLAIM, 2),
        Store(CLAIM, 2),
        Load(PENDING, 0),
        Lines(0),
    ];
    assert_eq!(rt; first_fault(&mut Intc::new(2), &steps), None);
    Ok(())
}

#[test]
fn registers_keep_their_bits(rt: HostRuntime) -> Result<(), Fail> {
    let steps = [
        Raise(0, false),
        Raise(9, false),
        Raise(255, false),
        Load(PENDING, 0),
        Store(0, 7),
        Load(0, 0),
        Store(4, 8),
        Load(4, 0),
        Store(32, 15),
        Load(32, 7),
        Store(36, 7),
        Load(36, 0),
        Store(PENDING, 0x1fe),
        Load(PENDING, 0),
        Store(ENABLES, 0xffff_ffff),
        Load(ENABLES, 0x1fe),
        Store(ENABLES + 4, 2),
        Load(ENABLES + 4, 0),
        Store(ENABLES + 0x80, 0x101),
        Load(ENABLES + 0x80, 0x100),
        Store(ENABLES + 0x100, 2),
        Load(ENABLES + 0x100, 0),
        Store(THRESHOLD + 0x1000, 0xff),
        Load(THRESHOLD + 0x1000, 7),
        Store(THRESHOLD + 0x2000, 1),
        Load(THRESHOLD + 0x2000, 0),
        Load(THRESHOLD + 2, 0),
    ];
    let mut intc = Intc::new(2);
    assert_eq!(rt; first_fault(&mut intc, &steps), None);
    for width in [Width::B1, Width::B2, Width::B8] {
        intc.write(ENABLES, width, 0);
        assert_eq!(rt; intc.read(ENABLES, width), 0);
    }
    assert_eq!(rt; intc.read(ENABLES, Width::B4), 0x1fe);
    Ok(())
}

#[test]
fn timer_registers_are_stored_in_parts(rt: HostRuntime) -> Result<(), Fail> {
    // Offset, width, stored value, value that is then loaded; the machine has two harts.
    let rows = [
        (0u32, Width::B4, 3u64, 1u64),
        (4, Width::B4, 2, 0),
        (0, Width::B8, 1, 0),
        (8, Width::B4, 1, 0),
        (0x4000, Width::B8, 0x11_2222_3333, 0x11_2222_3333),
        (0x4004, Width::B4, 0x5_0000_0007, 7),
        (0x4000, Width::B4, 0x2222_3334, 0x2222_3334),
        (0x4008, Width::B4, 9, 9),
        (0x4008, Width::B8, 0x9_0000_0009, 0x9_0000_0009),
        (0x4004, Width::B8, 1, 0),
        (0x4010, Width::B8, 1, 0),
        (0xbff8, Width::B8, 1 << 40, 1 << 40),
        (0xbff8, Width::B4, 6, 6),
        (0xbffc, Width::B4, 5, 5),
        (0xbffc, Width::B2, 1, 0),
    ];
    let mut timer = Timer::new(2);
    assert_eq!(rt; timer.read(0x4008, Width::B8), u64::MAX);
    for (off, width, value, want) in rows {
        timer.write(off, width, value);
        assert_eq!(rt; timer.read(off, width), want, "at {off}");
    }
    assert_eq!(rt; timer.read(0x4000, Width::B8), 0x7_2222_3334);
    assert_eq!(rt; timer.read(0xbff8, Width::B8), 0x5_0000_0006);
    Ok(())
}

#[test]
fn the_timer_line_is_up_from_its_time_on(rt: HostRuntime) -> Result<(), Fail> {
    let mut timer = Timer::new(1);
    timer.write(0x4000, Width::B8, 64);
    timer.tick(63);
    assert_eq!(rt; timer.lines(HartNo::FIRST), 0);
    timer.tick(1);
    assert_eq!(rt; timer.lines(HartNo::FIRST), 1 << 7);
    timer.write(0, Width::B4, 1);
    assert_eq!(rt; timer.lines(HartNo::FIRST), 0x88);
    Ok(())
}

#[test]
fn the_time_wraps(rt: HostRuntime) -> Result<(), Fail> {
    let mut timer = Timer::new(8);
    timer.write(0xbff8, Width::B8, u64::MAX);
    timer.tick(0xffff_ffff);
    assert_eq!(rt; timer.read(0xbff8, Width::B8), 0xffff_fffe);
    Ok(())
}

#[test]
fn finisher_words(rt: HostRuntime) -> Result<(), Fail> {
    // The code 0x10000 stands for switching off, and 0x20000 for nothing.
    let rows = [
        (0x5555u32, 0x1_0000u32),
        (0x3333, 0),
        (0x7_3333, 7),
        (0xffff_3333, 0xffff),
        (0x1_5555, 0x2_0000),
        (0, 0x2_0000),
        (0x3333_0000, 0x2_0000),
    ];
    for (value, want) in rows {
        let got = match finish(value) {
            Some(Finish::Off) => 0x1_0000,
            Some(Finish::Failed(code)) => u32::from(code),
            None => 0x2_0000,
        };
        assert_eq!(rt; got, want);
    }
    Ok(())
}
