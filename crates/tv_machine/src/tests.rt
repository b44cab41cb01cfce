use super::*;
use std::alloc::Global;
use std::test::Fail;
use tv_base::{CapNo, Rights};

#[test]
fn disks_have_sectors(rt: HostRuntime) -> Result<(), Fail> {
    let alloc = rt.alloc();
    let Ok(mut machine) = Machine::flat(alloc) else {
        return Err(Fail::from("memory"));
    };
    assert_eq!(rt; machine.image.as_str(), "image");
    assert_eq!(rt; machine.ram, 0x10_0000);
    for kind in [DeviceKind::Console, DeviceKind::Block] {
        let Ok(spec) = device(alloc, kind) else {
            return Err(Fail::from("memory"));
        };
        assert!(rt; machine.device.push(alloc, spec).is_ok());
    }
    // The console has a range, an output and an interrupt source; the disk's number comes after the next range.
    let disk = CapNo::new(4);
    assert_eq!(rt; machine.sectors(disk), Some(0));
    assert!(rt; machine.set_sectors(disk, 128));
    assert_eq!(rt; machine.sectors(disk), Some(128));
    for other in [0, 1, 2, 3, 5, 6, 100] {
        assert!(rt; !machine.set_sectors(CapNo::new(other), 7));
        assert!(rt; machine.sectors(CapNo::new(other)).is_none());
    }
    Ok(())
}

/// A device with one range, one file and an interrupt source.
fn device(alloc: Global, kind: DeviceKind) -> Result<DeviceSpec, tv_base::Memory> {
    let mut mem = RangeList::new();
    let file = KeyText::new(alloc, "file")?;
    mem.push(
        alloc,
        MemRange {
            base: 0x8000_0000,
            len: 4096,
            rights: Rights::READ,
        },
    )?;
    let (disk, output) = match kind {
        DeviceKind::Block => (Some(file), None),
        _ => (None, Some(file)),
    };
    Ok(DeviceSpec {
        kind,
        mem,
        irq: true,
        disk,
        readonly: false,
        output,
        input: None,
        sectors: 0,
    })
}
