//! Accesses of harts to memory and at the registers of a device.

ghost use Rattle.std.specs.Prelude.{◌≡◌, ◌≤◌, IfOk};

use super::burst::run_events;
use super::local::Local;
use super::peek::look;
use std::alloc::Global;
use std::process::Abort;
use std::test::Fail;
use tv_base::{Access, HartNo, RAM_BASE, RAM_BYTES_LEAST, Width};
use tv_exec::AmoOp;
use tv_hart::{Hart, Loaded, Place, Stored};
use tv_ram::Ram;
use tv_spec::{Closed, Shown};

/// lui x5, 0x10001; sd x0, 16(x5); ld x6, 16(x5); jal x0, 0: the first device is at 0x1000_1000.
const IMAGE: [u8; 16] = [
    0xb7, 0x12, 0x00, 0x10, 0x23, 0xb8, 0x02, 0x00, 0x03, 0xb3, 0x02, 0x01, 0x6f, 0x00, 0x00, 0x00,
];

/// The place of one hart, with this image and so many devices.
fn place(alloc: Global, devices: u8) -> Result<Local, Fail>
    requires { devices ≤ 8 }
    ensures { IfOk result (λ local. local.shown ≡ Shown.Nothing) }
{
    let Ok(mut ram) = Ram::new(alloc, RAM_BYTES_LEAST) else {
        return Err(Fail::from("memory"));
    };
    let _loaded = ram.write(RAM_BASE, &IMAGE);
    match Local::new(alloc, ram, 1, devices) {
        Ok(local) => Ok(local),
        Err(_) => Err(Fail::from("memory")),
    }
}

/// What takes no access.
fn closed(load: bool, store: bool) -> Closed {
    let mut closed = Closed {
        debug: false,
        loads: [false; 8],
        stores: [false; 8],
    };
    closed.loads[0] = load;
    closed.stores[0] = store;
    closed
}

/// What an event showed: the word `store` or `load` with slot and offset, or nothing.
fn said(shown: Shown) -> (&'static str, u8, u16) {
    match shown {
        Shown::Access(slot, access) => {
            let (word, off) = said_of(access);
            (word, slot.get(), off)
        }
        Shown::Nothing => ("nothing", 0, 0),
        Shown::Byte(_) | Shown::Finish(_) => ("something else", 0, 0),
    }
}

/// The word and the offset of an access of 8 bytes, of which a store is of 0.
fn said_of(access: Access) -> (&'static str, u16) {
    match access {
        Access::Store {
            width: Width::B8,
            off,
            value: 0,
        } => ("store", off),
        Access::Load {
            width: Width::B8,
            off,
        } => ("load", off),
        Access::Store { .. } | Access::Load { .. } => ("another access", 0),
    }
}

#[test]
fn an_access_to_a_device_ends_a_burst(rt: HostRuntime) -> Result<(), Fail> {
    let mut local = place(rt.alloc(), 1)?;
    let number = HartNo::FIRST;
    let mut hart = Hart::new(number);
    let (made, shown) = run_events(&mut hart, &mut local, number, 64);
    assert_eq!(rt; (made, said(shown)), (2, ("store", 0, 16)));
    assert!(rt; !hart.waits());
    let (made, shown) = run_events(&mut hart, &mut local, number, 64);
    assert_eq!(rt; (made, said(shown)), (1, ("load", 0, 16)));
    assert!(rt; hart.waits());
    hart.finish_load(7);
    assert!(rt; !hart.waits());
    let (made, shown) = run_events(&mut hart, &mut local, number, 5);
    assert_eq!(rt; (made, said(shown)), (5, ("nothing", 0, 0)));
    Ok(())
}

#[test]
fn an_access_to_what_is_closed_stalls(rt: HostRuntime) -> Result<(), Fail> {
    // What is closed, and how many events come before the stall: lui alone, or lui and the store.
    for (load, store, want) in [(false, true, 1), (true, false, 2)] {
        let mut local = place(rt.alloc(), 1)?;
        let number = HartNo::FIRST;
        let mut hart = Hart::new(number);
        local.close(&closed(load, store));
        let (first, _) = run_events(&mut hart, &mut local, number, 64);
        assert!(rt; !hart.waits());
        let (second, shown) = run_events(&mut hart, &mut local, number, 64);
        assert_eq!(rt; (first, second, said(shown)), (want, 0, ("nothing", 0, 0)));
    }
    Ok(())
}

#[test]
fn nothing_lies_in_a_slot_without_a_device(rt: HostRuntime) -> Result<(), Fail> {
    let mut local = place(rt.alloc(), 0)?;
    let number = HartNo::FIRST;
    let mut hart = Hart::new(number);
    // the store traps to address 0, where each fetch traps again
    let (made, shown) = run_events(&mut hart, &mut local, number, 9);
    assert_eq!(rt; (made, said(shown)), (9, ("nothing", 0, 0)));
    Ok(())
}

/// Looks at what the next event shows, where its access is closed and where it is not, makes that event, and compares both.
fn look_and_make(rt: &impl Abort, hart: &mut Hart, local: &mut Local, want: (&str, u8, u16))
    requires { local.old.shown ≡ Shown.Nothing }
    ensures { local.new.shown ≡ Shown.Nothing }
{
    let number = HartNo::FIRST;
    assert!(rt; !hart.waits());
    local.close(&closed(true, true));
    assert_eq!(rt; said(look(hart, local, number)), want);
    local.close(&closed(false, false));
    assert_eq!(rt; said(look(hart, local, number)), want);
    let (made, shown) = run_events(hart, local, number, 1);
    assert_eq!(rt; (made, said(shown)), (1, want));
    if hart.waits() {
        hart.finish_load(0);
    }
}

#[test]
fn what_an_event_would_show_is_seen_without_making_it(rt: HostRuntime) -> Result<(), Fail> {
    let mut local = place(rt.alloc(), 1)?;
    let mut hart = Hart::new(HartNo::FIRST);
    // lui, the store, the load and the jump.
    look_and_make(&rt, &mut hart, &mut local, ("nothing", 0, 0));
    look_and_make(&rt, &mut hart, &mut local, ("store", 0, 16));
    look_and_make(&rt, &mut hart, &mut local, ("load", 0, 16));
    look_and_make(&rt, &mut hart, &mut local, ("nothing", 0, 0));
    Ok(())
}

/// What a hart does with some bytes of memory.
#[derive(Clone, Copy)]
enum Act {
    Store,
    Amo,
    Reserve,
    Conditional,
}

/// Makes an access of the hart with this number, over these bytes; whether it was made and, where it is a conditional
/// store, whether it was stored. What is written is 0x55 in the low byte and zeros above it.
fn access(
    rt: &impl Abort,
    local: &mut Local,
    (number, act, width, addr): (u8, Act, Width, u64),
) -> bool {
    let hart = HartNo::new(number).expect(rt, "a hart");
    assert!(rt; addr % u64::from(width.bytes()) == 0);
    if matches!(act, Act::Store) {
        return matches!(local.store(hart, width, addr, 0x55), Stored::Done);
    }
    assert!(rt; matches!(width, Width::B4 | Width::B8));
    match act {
        Act::Store => false,
        Act::Amo => local.amo(hart, width, addr, AmoOp::Or, 0).is_some(),
        Act::Reserve => local.reserve(hart, width, addr).is_some(),
        Act::Conditional => local.conditional(hart, width, addr, 0x55) == Some(true),
    }
}

#[test]
fn reservations_end_by_the_writes_of_others(rt: HostRuntime) -> Result<(), Fail> {
    // Hart 0 has reserved the 8 bytes at 0x8000_0200. What is done then, and whether it may store to these bytes.
    let rows: [((u8, Act, Width, u64), (Width, u64), bool); 15] = [
        // A byte of another hart's in them; beside them; a number that stays the same.
        ((1, Act::Store, Width::B1, 0x207), (Width::B8, 0x200), false),
        ((1, Act::Store, Width::B1, 0x200), (Width::B8, 0x200), false),
        ((1, Act::Store, Width::B1, 0x1ff), (Width::B8, 0x200), true),
        ((1, Act::Store, Width::B1, 0x208), (Width::B8, 0x200), true),
        ((7, Act::Amo, Width::B4, 0x204), (Width::B8, 0x200), false),
        ((7, Act::Amo, Width::B8, 0x208), (Width::B8, 0x200), true),
        // The hart's own writes.
        ((0, Act::Store, Width::B8, 0x200), (Width::B8, 0x200), true),
        ((0, Act::Amo, Width::B4, 0x200), (Width::B8, 0x200), true),
        // Another hart's reservation, and its conditional store without one.
        (
            (1, Act::Reserve, Width::B8, 0x200),
            (Width::B8, 0x200),
            true,
        ),
        (
            (1, Act::Conditional, Width::B8, 0x200),
            (Width::B8, 0x200),
            true,
        ),
        // The hart's own conditional store elsewhere, and a later reservation.
        (
            (0, Act::Conditional, Width::B8, 0x300),
            (Width::B8, 0x200),
            false,
        ),
        (
            (0, Act::Reserve, Width::B4, 0x20c),
            (Width::B8, 0x200),
            false,
        ),
        (
            (0, Act::Reserve, Width::B4, 0x20c),
            (Width::B8, 0x208),
            true,
        ),
        // A word of the 8 bytes, and the word after them.
        ((0, Act::Store, Width::B8, 0x200), (Width::B4, 0x204), true),
        ((0, Act::Store, Width::B8, 0x200), (Width::B4, 0x208), false),
    ];
    for (row, ((number, act, width, at), (wide, place), stored)) in rows.into_iter().enumerate() {
        let mut local = Local::new(rt.alloc(), Ram::new(rt.alloc(), 0x1_0000)?, 8, 0)?;
        let base = 0x8000_0000;
        assert!(rt; at < 0x400 && place < 0x400);
        let reserved = (0, Act::Reserve, Width::B8, base + 0x200);
        assert!(rt; access(&rt, &mut local, reserved), "row {row}");
        access(&rt, &mut local, (number, act, width, base + at));
        let last = (0, Act::Conditional, wide, base + place);
        assert_eq!(rt; access(&rt, &mut local, last), stored, "row {row}");
        assert!(rt; !access(&rt, &mut local, last), "row {row}");
    }
    Ok(())
}

#[test]
fn a_refused_conditional_store_changes_no_memory(rt: HostRuntime) -> Result<(), Fail> {
    let mut local = Local::new(rt.alloc(), Ram::new(rt.alloc(), 0x1_0000)?, 8, 0)?;
    let hart = HartNo::FIRST;
    let base = 0x8000_0200;
    access(&rt, &mut local, (0, Act::Reserve, Width::B8, base));
    access(&rt, &mut local, (1, Act::Store, Width::B1, base + 7));
    assert_eq!(rt;
        local.conditional(hart, Width::B8, base, u64::MAX),
        Some(false)
    );
    for (addr, held) in [(base - 8, 0), (base, 0x55 << 56), (base + 8, 0)] {
        assert!(rt; addr % 8 == 0);
        match local.load(hart, Width::B8, addr) {
            Loaded::Value(value) => assert_eq!(rt; value, held),
            Loaded::Held | Loaded::Full | Loaded::Nothing => assert!(rt; false),
        }
    }
    // Beyond memory, and at a port, there is nothing to reserve.
    for addr in [0x8001_0000, 0x0010_0000] {
        assert!(rt; !access(&rt, &mut local, (0, Act::Reserve, Width::B4, addr)));
        assert!(rt; !access(&rt, &mut local, (0, Act::Conditional, Width::B4, addr)));
        assert!(rt; !access(&rt, &mut local, (0, Act::Amo, Width::B4, addr)));
    }
    Ok(())
}
