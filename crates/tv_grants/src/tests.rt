ghost use Rattle.std.specs.Prelude.{◌≡◌, IfOk, length};
ghost use Rattle.tv_grants.specs.Grants.{no_grants};

use super::{GrantError, Grants};
use std::alloc::Global;
use std::test::Fail;
use tv_base::{DevNo, Memory, Rights, Width};
use tv_items::{Action, Bytes, Heard};
use tv_machine::{DeviceKind, DeviceSpec, KeyText, Machine, MemRange, RangeList};
use tv_ram::Ram;

/// Memory of 64 KiB: its pages are 0x8_0000 to 0x8_000f.
fn least(alloc: Global) -> Result<Grants, Memory>
    ensures { IfOk result (λ grants. grants ≡ no_grants 65536) }
{
    Grants::new(alloc, 0x1_0000)
}

/// The bytes of this memory, which are 0.
#[tactic(auto, using(tv_ram::proofs::Inside::length_zeros))]
fn memory(alloc: Global) -> Result<Ram, Fail>
    ensures { IfOk result (λ ram. length ram ≡ 65536) }
{
    Ram::new(alloc, 0x1_0000).map_err(|_| Fail::from("memory"))
}

/// The slots 0 and 1.
fn slots() -> Result<[DevNo; 2], Fail> {
    match (DevNo::new(0), DevNo::new(1)) {
        (Some(first), Some(second)) => Ok([first, second]),
        _ => Err(Fail::from("slots")),
    }
}

/// Whether these bytes are heard.
fn gives(heard: &Heard, want: &[u8]) -> bool {
    match heard {
        Heard::Bytes(bytes) => bytes.as_slice() == want,
        _ => false,
    }
}

/// Whether a device may read bytes, and whether it may write them.
fn access(grants: &Grants, dev: DevNo, addr: u64, len: u16) -> [bool; 2] {
    [
        grants.allowed(dev, addr, len, false),
        grants.allowed(dev, addr, len, true),
    ]
}

#[test]
fn ranges_lie_in_memory_and_are_64_at_most(rt: HostRuntime) -> Result<(), Fail> {
    let mut grants = least(rt.alloc())?;
    let [first, second] = slots()?;
    for (base, len) in [
        (0x7fff_ffff, 1),
        (0x7fff_ffff, 2),
        (0x8000_0000, 0),
        (0x8001_0000, 1),
        (0x8000_ffff, 2),
        (0x8000_0000, 0x1_0001),
        (0, u32::MAX),
        (u64::MAX, 1),
        (u64::MAX, u32::MAX),
    ] {
        let refused = grants.add(first, base, len, Rights::READ);
        assert!(rt; matches!(refused, Err(GrantError::Outside)), "{base}");
    }
    for number in 0..64u16 {
        let base = 0x8000_0000 + 1024 * u64::from(number);
        let cap = grants.add(second, base, 1024, Rights::READ)?;
        assert_eq!(rt; cap.get(), number);
    }
    let full = grants.add(first, 0x8000_0000, 1, Rights::READ);
    assert!(rt; matches!(full, Err(GrantError::TooMany)));
    let outside = grants.add(first, 0x7fff_ffff, 1, Rights::READ);
    assert!(rt; matches!(outside, Err(GrantError::Outside)));
    // 64 ranges that meet cover all of memory for the one device
    assert_eq!(rt; access(&grants, second, 0x8000_0000, 4096), [true, false]);
    assert_eq!(rt;
        access(&grants, second, 0x8000_03ff, u16::MAX),
        [false, false]
    );
    assert_eq!(rt;
        access(&grants, second, 0x8000_0001, u16::MAX),
        [true, false]
    );
    assert_eq!(rt; access(&grants, first, 0x8000_0000, 1), [false, false]);
    Ok(())
}

#[test]
fn numbers_count_ranges_files_and_sources(rt: HostRuntime) -> Result<(), Fail> {
    let mut grants = least(rt.alloc())?;
    let [first, second] = slots()?;
    assert_eq!(rt;
        grants.add(first, 0x8000_0000, 4096, Rights::READ)?.get(),
        0
    );
    assert_eq!(rt; grants.add_file().get(), 1);
    assert!(rt; !grants.owns_irq(first) && !grants.owns_irq(second));
    assert_eq!(rt; grants.add_irq(first).get(), 2);
    assert_eq!(rt;
        grants.add(second, 0x8000_0000, 4096, Rights::WRITE)?.get(),
        3
    );
    assert!(rt; grants.owns_irq(first) && !grants.owns_irq(second));
    Ok(())
}

#[test]
fn each_byte_needs_a_range_with_the_right(rt: HostRuntime) -> Result<(), Fail> {
    let mut grants = least(rt.alloc())?;
    let [first, second] = slots()?;
    grants.add(first, 0x8000_0000, 0x1000, Rights::READ | Rights::WRITE)?;
    grants.add(first, 0x8000_1800, 0x800, Rights::WRITE)?;
    grants.add(first, 0x8000_1000, 0x800, Rights::READ)?;
    grants.add(second, 0x8000_3000, 0x1000, Rights::READ | Rights::WRITE)?;
    for (addr, len, want) in [
        (0x8000_0000, 4096, [true, true]),
        (0x8000_0000, 4097, [true, false]),
        (0x7fff_ffff, 1, [false, false]),
        (0x7fff_ffff, 2, [false, false]),
        // the first range ends, and one that can only be read goes on
        (0x8000_0fff, 1, [true, true]),
        (0x8000_0ffe, 4, [true, false]),
        (0x8000_0800, 4096, [true, false]),
        (0x8000_0801, 4096, [false, false]),
        // from there on it can only be written
        (0x8000_17ff, 1, [true, false]),
        (0x8000_17ff, 2, [false, false]),
        (0x8000_1800, 0x800, [false, true]),
        (0x8000_1800, 0x801, [false, false]),
        (0x8000_2000, 1, [false, false]),
        (0x8000_3000, 1, [false, false]),
        (0x1_8000_0000, 1, [false, false]),
        (u64::MAX, 1, [false, false]),
        (u64::MAX, 2, [false, false]),
        (u64::MAX, u16::MAX, [false, false]),
    ] {
        assert_eq!(rt; access(&grants, first, addr, len), want, "{addr} {len}");
    }
    assert_eq!(rt; access(&grants, second, 0x8000_3ffe, 2), [true, true]);
    assert_eq!(rt; access(&grants, second, 0x8000_3ffe, 4), [false, false]);
    Ok(())
}

#[test]
fn a_withdrawn_page_is_out_of_reach_of_every_device(rt: HostRuntime) -> Result<(), Fail> {
    let mut grants = least(rt.alloc())?;
    let [first, second] = slots()?;
    grants.add(first, 0x8000_0000, 0x1_0000, Rights::READ | Rights::WRITE)?;
    grants.add(second, 0x8000_0000, 0x1_0000, Rights::READ | Rights::WRITE)?;
    assert!(rt; grants.withdraw(0x8_0005));
    for dev in [first, second] {
        for (addr, len, want) in [
            (0x8000_5000, 1, false),
            (0x8000_5fff, 1, false),
            (0x8000_4fff, 1, true),
            (0x8000_4fff, 2, false),
            (0x8000_6000, 4096, true),
            (0x8000_5fff, 4096, false),
            // the page lies in the middle of the access
            (0x8000_4000, 0x3000, false),
            (0x8000_0000, 0x5000, true),
        ] {
            assert_eq!(rt; access(&grants, dev, addr, len), [want; 2], "{addr} {len}");
        }
        assert!(rt; grants.allowed_page(dev, 0x8_0005));
    }
    assert!(rt; grants.give_back(0x8_0005) && grants.give_back(0x8_0005));
    for dev in [first, second] {
        assert_eq!(rt; access(&grants, dev, 0x8000_4000, 0x3000), [true; 2]);
    }
    for (page, want) in [
        (0x8_0000, true),
        (0x8_000f, true),
        (0x8_0010, false),
        (0x7_ffff, false),
        (0, false),
        (u32::MAX, false),
    ] {
        assert_eq!(rt; grants.withdraw(page), want, "{page}");
        assert_eq!(rt; grants.give_back(page), want, "{page}");
    }
    Ok(())
}

#[test]
fn a_page_is_released_where_each_byte_may_be_written(rt: HostRuntime) -> Result<(), Fail> {
    let mut grants = least(rt.alloc())?;
    let [first, second] = slots()?;
    grants.add(first, 0x8000_0fff, 0x2000, Rights::READ | Rights::WRITE)?;
    grants.add(first, 0x8000_3000, 0x800, Rights::WRITE)?;
    grants.add(first, 0x8000_3800, 0x800, Rights::READ | Rights::WRITE)?;
    grants.add(second, 0x8000_1000, 0x1000, Rights::READ)?;
    for (page, want) in [
        (0x8_0000, false),
        (0x8_0001, true),
        (0x8_0002, false),
        (0x8_0003, true),
        (0x8_0010, false),
        (0, false),
        (u32::MAX, false),
    ] {
        assert_eq!(rt; grants.allowed_page(first, page), want, "{page}");
        assert!(rt; !grants.allowed_page(second, page), "{page}");
    }
    Ok(())
}

#[test]
fn a_refused_action_changes_nothing(rt: HostRuntime) -> Result<(), Fail> {
    let alloc = rt.alloc();
    let mut grants = least(alloc)?;
    let mut ram = memory(alloc)?;
    let [first, second] = slots()?;
    grants.add(first, 0x8000_0000, 4096, Rights::READ | Rights::WRITE)?;
    // two bytes of four lie in the range, and none is written
    assert!(rt; !grants.write(&mut ram, first, 0x8000_0ffe, &[1, 2, 3, 4]));
    assert_eq!(rt; ram.load(0x8000_0ff8, Width::B8), Some(0));
    assert!(rt; grants.write(&mut ram, first, 0x8000_0ffe, &[1, 2]));
    assert_eq!(rt; ram.load(0x8000_0ffc, Width::B8), Some(0x0201_0000));
    let mut out = [9; 2];
    assert!(rt; !grants.read(&ram, second, 0x8000_0ffe, &mut out));
    assert_eq!(rt; out, [9, 9]);
    assert!(rt; grants.read(&ram, first, 0x8000_0ffe, &mut out));
    assert_eq!(rt; out, [1, 2]);
    assert!(rt; !grants.release(&mut ram, second, 0x8_0000, true));
    assert_eq!(rt; ram.load(0x8000_0ffe, Width::B2), Some(0x0201));
    assert!(rt; grants.release(&mut ram, first, 0x8_0000, true));
    assert_eq!(rt; ram.load(0x8000_0ffe, Width::B2), Some(0));
    assert!(rt; !grants.read(&ram, first, 0x8000_0000, &mut out));
    assert!(rt; !grants.regain(second, 0x8_0000) && grants.regain(first, 0x8_0000));
    assert!(rt; grants.read(&ram, first, 0x8000_0000, &mut out));
    assert_eq!(rt; out, [0, 0]);
    Ok(())
}

#[test]
fn each_action_on_memory_is_heard_as_done_or_as_refused(rt: HostRuntime) -> Result<(), Fail> {
    let alloc = rt.alloc();
    let mut grants = least(alloc)?;
    let mut ram = memory(alloc)?;
    let [first, second] = slots()?;
    let page = 0x8_0001;
    let addr = 0x8000_1ffe;
    grants.add(first, 0x8000_1000, 0x2000, Rights::READ | Rights::WRITE)?;
    let write = Action::Write {
        addr,
        bytes: Bytes::of(&[1, 2, 3, 4]),
    };
    let read = Action::Read { addr, len: 4 };
    let release = Action::Release { page, hold: true };
    let regain = Action::Regain { page };
    assert!(rt; matches!(grants.act(&mut ram, second, &write), Heard::Refused));
    assert!(rt; matches!(grants.act(&mut ram, second, &read), Heard::Refused));
    assert!(rt; matches!(grants.act(&mut ram, second, &release), Heard::Refused));
    assert!(rt; matches!(grants.act(&mut ram, second, &regain), Heard::Refused));
    assert!(rt; matches!(grants.act(&mut ram, first, &write), Heard::Done));
    assert!(rt; gives(&grants.act(&mut ram, first, &read), &[1, 2, 3, 4]));
    assert!(rt; matches!(grants.act(&mut ram, first, &release), Heard::Done));
    // the read reaches into the page that is withdrawn
    assert!(rt; matches!(grants.act(&mut ram, first, &read), Heard::Refused));
    assert!(rt; matches!(grants.act(&mut ram, first, &regain), Heard::Done));
    assert!(rt; gives(&grants.act(&mut ram, first, &read), &[0, 0, 3, 4]));
    Ok(())
}

#[test]
fn a_machine_without_devices_has_no_grant(rt: HostRuntime) -> Result<(), Fail> {
    let alloc = rt.alloc();
    let machine = Machine::flat(alloc)?;
    let mut grants = Grants::of_machine(alloc, &machine)?;
    let [first, _] = slots()?;
    assert_eq!(rt; access(&grants, first, 0x8000_0000, 1), [false, false]);
    assert!(rt; !grants.owns_irq(first));
    // memory of 1 MiB ends with page 0x8_00ff
    assert!(rt; grants.withdraw(0x8_00ff) && !grants.withdraw(0x8_0100));
    Ok(())
}

#[test]
fn a_device_has_its_ranges_then_its_files_then_its_source(rt: HostRuntime) -> Result<(), Fail> {
    let alloc = rt.alloc();
    let mut grants = least(alloc)?;
    let [first, _] = slots()?;
    let mut mem = RangeList::new();
    let rights = Rights::READ;
    mem.push(
        alloc,
        MemRange {
            base: 0x8000_1000,
            len: 4,
            rights,
        },
    )?;
    let spec = DeviceSpec {
        kind: DeviceKind::Console,
        mem,
        irq: true,
        disk: None,
        readonly: false,
        output: Some(KeyText::new(alloc, "out")?),
        input: Some(KeyText::new(alloc, "in")?),
        sectors: 0,
    };
    grants.add_device(first, &spec);
    assert_eq!(rt; access(&grants, first, 0x8000_1000, 4), [true, false]);
    assert_eq!(rt; access(&grants, first, 0x8000_1001, 4), [false, false]);
    assert!(rt; grants.owns_irq(first));
    // a range, two files and a source have the numbers 0 to 3
    assert_eq!(rt; grants.add_file().get(), 4);
    Ok(())
}
