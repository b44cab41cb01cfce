//! The probe's registers, and what it asks for and hears.

ghost use Rattle.std.specs.Prelude.{◌≡◌, true};
ghost use Rattle.tv_items.specs.Fits.{FitsAction};

use crate::Probe;
use std::alloc::Global;
use std::process::Abort;
use tv_base::Width;
use tv_port::{Action, Bytes, Device, Heard, Item, next_after, repeat};

const WIDTHS: [Width; 4] = [Width::B1, Width::B2, Width::B4, Width::B8];

const OFFSETS: [u16; 8] = [0x00, 0x04, 0x08, 0x10, 0x18, 0x1c, 0x20, 0x24];

fn load(probe: &mut Probe, width: Width, off: u16) -> u64 {
    probe.act(0, &Item::Load { width, off }).value
}

fn store(probe: &mut Probe, width: Width, off: u16, value: u64) {
    let _acted = probe.act(0, &Item::Store { width, off, value });
}

/// Stores ADDR, LEN and GO.
fn start(probe: &mut Probe, addr: u64, len: u64, go: u64) {
    store(probe, Width::B8, 0x00, addr);
    store(probe, Width::B4, 0x08, len);
    store(probe, Width::B4, 0x18, go);
}

/// DATA, RESULT and COUNT.
fn outcome(probe: &mut Probe) -> (u64, u64, u64) {
    (
        load(probe, Width::B8, 0x10),
        load(probe, Width::B4, 0x1c),
        load(probe, Width::B8, 0x20),
    )
}

fn is_fitting(action: &Action, heard: &Heard) -> bool
    ensures { result ≡ true → FitsAction action.now heard.now }
{
    match (action, heard) {
        (Action::Read { len, .. }, Heard::Bytes(bytes)) => {
            bytes.as_slice().len() == usize::from(*len)
        }
        (Action::Read { .. }, Heard::Refused) => true,
        (Action::Write { .. }, Heard::Done | Heard::Refused) => true,
        (Action::Raise, Heard::Done | Heard::Refused) => true,
        _ => false,
    }
}

/// Serves the one action that the probe asks for; `false` where it asks for none, or the reply doesn't fit.
#[tactic(auto, using(tv_port::proofs::Repeats::heard_first))]
fn is_served(probe: &mut Probe, heard: Heard, alloc: Global) -> bool {
    let Ok(Some(action)) = next_after(probe, &[], alloc) else {
        return false;
    };
    if !is_fitting(&action, &heard) {
        return false;
    }
    let replies = [heard];
    repeat(probe, &replies).is_none()
}

#[test]
fn each_register_answers_at_its_width_alone(rt: HostRuntime) {
    let mut probe = Probe::new(rt.alloc()).ok().expect(&rt, "memory");
    store(&mut probe, Width::B8, 0x00, 0x1122_3344_5566_7788);
    store(&mut probe, Width::B4, 0x08, 0xffff_ffff_a0b0_c0d0);
    store(&mut probe, Width::B8, 0x10, 0x0102_0304_0506_0708);
    for off in OFFSETS {
        for width in WIDTHS {
            match (width, off) {
                (Width::B8, 0x00 | 0x10) | (Width::B4, 0x08 | 0x18) => {}
                _ => store(&mut probe, width, off, 1),
            }
        }
    }
    for off in OFFSETS {
        for width in WIDTHS {
            let expected = match (width, off) {
                (Width::B8, 0x00) => 0x1122_3344_5566_7788,
                (Width::B4, 0x08) => 0xa0b0_c0d0,
                (Width::B8, 0x10) => 0x0102_0304_0506_0708,
                (Width::B8, 0x20) => 31,
                _ => 0,
            };
            let value = load(&mut probe, width, off);
            assert_eq!(rt; value, expected);
        }
    }
}

#[test]
fn each_action_starts_only_where_it_can_be_asked(rt: HostRuntime) {
    let end = 1 << 44;
    for (addr, len, go, result) in [
        (0, 0, 0, 0),
        (0, 8, 6, 0),
        (0, 0, 1, 2),
        (0, 9, 1, 2),
        (0, 0x1_0000_0001, 1, 0),
        (0, 0, 2, 2),
        (0, 8, 2, 0),
        (end, 0, 3, 0),
        (end - 1, 0, 4, 0),
        (end, 0, 4, 2),
        (end - 1, 0, 0x1_0000_0005, 0),
        (end, 0, 5, 2),
    ] {
        let mut probe = Probe::new(rt.alloc()).ok().expect(&rt, "memory");
        start(&mut probe, addr, len, go);
        let next = next_after(&probe, &[], rt.alloc())
            .ok()
            .expect(&rt, "memory");
        let is_right = match next {
            Some(Action::Read { addr: 0, len: 1 }) => go == 1,
            Some(Action::Write { addr: 0, bytes }) => go == 2 && bytes.as_slice().len() == 8,
            Some(Action::Raise) => go == 3,
            Some(Action::Release { page, hold: true }) => go == 4 && page == 0xffff_ffff,
            Some(Action::Regain { page }) => go == 0x1_0000_0005 && page == 0xffff_ffff,
            None => go == 0 || go == 6 || result == 2,
            _ => false,
        };
        assert!(rt; is_right);
        assert_eq!(rt; outcome(&mut probe), (0, result, 3));
    }
}

#[test]
fn a_reply_reaches_the_registers(rt: HostRuntime) {
    let mut probe = Probe::new(rt.alloc()).ok().expect(&rt, "memory");
    store(&mut probe, Width::B8, 0x10, 0x8877_6655_4433_2211);

    start(&mut probe, 0x8000_0000, 3, 1);
    let short = Heard::Bytes(Bytes::of(&[0x0a, 0x0b]));
    assert!(rt; !is_served(&mut probe, short, rt.alloc()));
    assert!(rt; is_served(&mut probe, Heard::Refused, rt.alloc()));
    assert_eq!(rt; outcome(&mut probe), (0x8877_6655_4433_2211, 2, 4));

    start(&mut probe, 0x8000_0000, 3, 2);
    assert!(rt; is_served(&mut probe, Heard::Done, rt.alloc()));
    assert_eq!(rt; outcome(&mut probe), (0x8877_6655_4433_2211, 1, 7));

    start(&mut probe, 0x8000_0000, 3, 1);
    let bytes = Heard::Bytes(Bytes::of(&[0x0a, 0x0b, 0x0c]));
    assert!(rt; is_served(&mut probe, bytes, rt.alloc()));
    assert_eq!(rt; outcome(&mut probe), (0x0c_0b0a, 1, 10));
    assert!(rt; !is_served(&mut probe, Heard::Done, rt.alloc()));

    start(&mut probe, 0, 0, 3);
    assert!(rt; is_served(&mut probe, Heard::Refused, rt.alloc()));
    assert_eq!(rt; outcome(&mut probe), (0x0c_0b0a, 2, 13));
}
