use super::{Bus, BusError, Target};
use std::alloc::Global;
use std::test::Fail;
use tv_base::{DevNo, Width};

/// A number for each place that ranges lead to.
fn number(target: Target) -> u32 {
    match target {
        Target::Ram => 1,
        Target::Finisher => 2,
        Target::Timer => 3,
        Target::Intc => 4,
        Target::Debug => 5,
        Target::Device(dev) => 10 + u32::from(dev.get()),
    }
}

/// Where an access leads, as a number and the offset.
fn place(bus: &Bus, addr: u64, width: Width) -> [u32; 2] {
    match bus.find(addr, width) {
        Some((target, off)) => [number(target), off],
        None => [0, 0],
    }
}

/// The bus of a machine with 1 MiB of memory and a device in slot 2.
fn machine(alloc: Global) -> Result<Bus, BusError> {
    let mut bus = Bus::new();
    if let Some(dev) = DevNo::new(2) {
        bus.add(alloc, 0x1000_3000, 0x1000, Target::Device(dev))?;
    }
    bus.add(alloc, 0x0010_0000, 4, Target::Finisher)?;
    bus.add(alloc, 0x0200_0000, 0xc000, Target::Timer)?;
    bus.add(alloc, 0x0c00_0000, 0x40_0000, Target::Intc)?;
    bus.add(alloc, 0x1000_0000, 1, Target::Debug)?;
    bus.add(alloc, 0x8000_0000, 0x10_0000, Target::Ram)?;
    Ok(bus)
}

#[test]
fn an_access_leads_where_all_its_bytes_do(rt: HostRuntime) -> Result<(), Fail> {
    let bus = machine(rt.alloc())?;
    for (addr, width, want) in [
        (0x0010_0000, Width::B4, [2, 0]),
        (0x0010_0002, Width::B2, [2, 2]),
        (0x0010_0000, Width::B8, [0, 0]),
        (0x0010_0002, Width::B4, [0, 0]),
        (0x0200_bff8, Width::B8, [3, 0xbff8]),
        (0x0c3f_fffc, Width::B4, [4, 0x3f_fffc]),
        (0x0c40_0000, Width::B1, [0, 0]),
        (0x1000_0000, Width::B1, [5, 0]),
        (0x1000_0000, Width::B2, [0, 0]),
        (0x1000_3100, Width::B4, [12, 0x100]),
        (0x1000_2100, Width::B4, [0, 0]),
        (0x7fff_ffff, Width::B2, [0, 0]),
        (0x8000_0000, Width::B8, [1, 0]),
        (0x800f_fff8, Width::B8, [1, 0xf_fff8]),
        (0x800f_fff9, Width::B8, [0, 0]),
        (u64::MAX, Width::B8, [0, 0]),
    ] {
        assert_eq!(rt; place(&bus, addr, width), want, "at {addr}");
    }
    Ok(())
}

#[test]
fn ranges_are_refused_in_order(rt: HostRuntime) -> Result<(), Fail> {
    let mut bus = Bus::new();
    for number in 0..64u64 {
        bus.add(rt.alloc(), 16 * number, 16, Target::Ram)?;
    }
    let empty = bus.add(rt.alloc(), 0, 0, Target::Debug);
    let overlap = bus.add(rt.alloc(), 0x3ff, 2, Target::Debug);
    let too_many = bus.add(rt.alloc(), 0x400, 1, Target::Debug);
    assert!(rt; matches!(empty, Err(BusError::Empty)));
    assert!(rt; matches!(overlap, Err(BusError::Overlap)));
    assert!(rt; matches!(too_many, Err(BusError::TooMany)));
    // the last byte, one after it, and two bytes of two ranges
    assert_eq!(rt; place(&bus, 0x3ff, Width::B1), [1, 15]);
    assert_eq!(rt; place(&bus, 0x400, Width::B1), [0, 0]);
    assert_eq!(rt; place(&bus, 0x00f, Width::B2), [0, 0]);
    Ok(())
}

#[test]
fn a_range_may_end_with_the_last_address(rt: HostRuntime) -> Result<(), Fail> {
    let mut bus = Bus::new();
    bus.add(rt.alloc(), u64::MAX - 15, 16, Target::Ram)?;
    let overlap = bus.add(rt.alloc(), u64::MAX, 1, Target::Debug);
    assert!(rt; matches!(overlap, Err(BusError::Overlap)));
    assert_eq!(rt; place(&bus, u64::MAX, Width::B1), [1, 15]);
    assert_eq!(rt; place(&bus, u64::MAX, Width::B2), [0, 0]);
    assert_eq!(rt; place(&bus, 0, Width::B1), [0, 0]);
    Ok(())
}
