use super::{Ram, RamError};
use std::alloc::Global;
use std::test::Fail;
use tv_base::Width;

/// Memory of the least size, 64 KiB, so that it ends with the byte at 0x8000_ffff.
fn least(alloc: Global) -> Result<Ram, RamError> {
    Ram::new(alloc, 0x1_0000)
}

/// What is read from an address on into 4 bytes of 0xee.
fn read_4(ram: &Ram, addr: u64) -> (bool, [u8; 4]) {
    let mut out = [0xee; 4];
    let done = ram.read(addr, &mut out);
    (done, out)
}

#[test]
fn memory_has_whole_pages_within_its_limits(rt: HostRuntime) -> Result<(), Fail> {
    for bytes in [
        0,
        4096,
        61_440,
        65_535,
        65_537,
        67_584,
        268_435_455,
        268_435_457,
        268_439_552,
        u32::MAX,
    ] {
        let refused = Ram::new(rt.alloc(), bytes);
        assert!(rt; matches!(refused, Err(RamError::Size)), "{bytes}");
    }
    for (bytes, last) in [
        (65_536, 0x8000_ffff),
        (69_632, 0x8001_0fff),
        (268_435_456, 0x8fff_ffff),
    ] {
        let ram = Ram::new(rt.alloc(), bytes)?;
        assert_eq!(rt; ram.load(last, Width::B1), Some(0), "{bytes}");
        assert_eq!(rt; ram.load(last, Width::B2), None, "{bytes}");
    }
    Ok(())
}

#[test]
fn bytes_are_read_and_written_where_all_lie_in_memory(rt: HostRuntime) -> Result<(), Fail> {
    for (addr, want) in [
        (0x8000_0000, true),
        (0x8000_0001, true),
        (0x8000_fffc, true),
        (0x8000_fffd, false),
        (0x8001_0000, false),
        (0x7fff_ffff, false),
        (0x7fff_fffc, false),
        (0, false),
        (0x1_8000_0000, false),
        (u64::MAX - 1, false),
        (u64::MAX, false),
    ] {
        let mut ram = least(rt.alloc())?;
        let (read, zeros) = read_4(&ram, addr);
        let wrote = ram.write(addr, &[1, 2, 3, 4]);
        let (_, back) = read_4(&ram, addr);
        assert_eq!(rt; read, want, "{addr}");
        assert_eq!(rt; wrote, want, "{addr}");
        assert_eq!(rt; zeros, if want { [0; 4] } else { [0xee; 4] }, "{addr}");
        assert_eq!(rt; back, if want { [1, 2, 3, 4] } else { [0xee; 4] }, "{addr}");
    }
    Ok(())
}

#[test]
fn no_byte_lies_outside(rt: HostRuntime) -> Result<(), Fail> {
    let mut ram = least(rt.alloc())?;
    for addr in [0, 0x8000_0000, 0x8001_0000, u64::MAX] {
        assert!(rt; ram.read(addr, &mut []) && ram.write(addr, &[]), "{addr}");
    }
    Ok(())
}

#[test]
fn a_store_changes_its_own_bytes(rt: HostRuntime) -> Result<(), Fail> {
    for (width, low, after) in [
        (Width::B1, 0x88, 0xffff_ffff_ffff_88ff),
        (Width::B2, 0x7788, 0xffff_ffff_ff77_88ff),
        (Width::B4, 0x5566_7788, 0xffff_ff55_6677_88ff),
    ] {
        let mut ram = least(rt.alloc())?;
        assert!(rt; ram.store(0x8000_0ff8, Width::B8, u64::MAX));
        assert!(rt; ram.store(0x8000_0ff9, width, 0x1122_3344_5566_7788));
        assert_eq!(rt; ram.load(0x8000_0ff8, Width::B8), Some(after));
        assert_eq!(rt; ram.load(0x8000_0ff9, width), Some(low));
    }
    let mut ram = least(rt.alloc())?;
    assert!(rt; ram.store(0x8000_fff8, Width::B8, 0x0102_0304_0506_0708));
    assert!(rt; !ram.store(0x8000_fff9, Width::B8, 0) && !ram.store(0x7fff_ffff, Width::B2, 0));
    assert_eq!(rt;
        ram.load(0x8000_fff8, Width::B8),
        Some(0x0102_0304_0506_0708)
    );
    assert_eq!(rt; ram.word(0x8000_fffc), Some(0x0102_0304));
    assert_eq!(rt; ram.word(0x8000_fffd), None);
    Ok(())
}

#[test]
fn a_page_is_filled_with_zeros(rt: HostRuntime) -> Result<(), Fail> {
    let mut ram = least(rt.alloc())?;
    for addr in [0x8000_0ff8, 0x8000_1000, 0x8000_1ff8, 0x8000_2000] {
        assert!(rt; ram.store(addr, Width::B8, u64::MAX));
    }
    for (page, want) in [
        (0x8_0001, true),
        (0x8_000f, true),
        (0x8_0010, false),
        (0x7_ffff, false),
        (0, false),
        (u32::MAX, false),
    ] {
        assert_eq!(rt; ram.zero_page(page), want, "{page}");
    }
    for (addr, left) in [
        (0x8000_0ff8, u64::MAX),
        (0x8000_1000, 0),
        (0x8000_1ff8, 0),
        (0x8000_2000, u64::MAX),
    ] {
        assert_eq!(rt; ram.load(addr, Width::B8), Some(left), "{addr}");
    }
    Ok(())
}
