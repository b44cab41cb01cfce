//! The devices of a machine by what their registers tell.

ghost use Rattle.std.specs.Prelude.{◌≡◌};

use super::{AnyDevice, make};
use std::process::Abort;
use std::test::Fail;
use tv_base::{DISK_SECTORS, DevNo, Width};
use tv_driver::{
    BUFFERS, DRIVER_OK, Guest, NOTIFY, Outside, STATUS, USED, WRITE, load, set_up, store,
};
use tv_machine::{DeviceKind, DeviceSpec, Machine, RangeList};
use tv_port::{Device, Item, Served};

/// A device of a kind, on a disk of 6 sectors where it has one.
fn spec(kind: DeviceKind, sectors: u32) -> DeviceSpec
    ensures { result.sectors ≡ sectors }
{
    DeviceSpec {
        kind,
        mem: RangeList::new(),
        irq: true,
        disk: None,
        readonly: false,
        output: None,
        input: None,
        sectors,
    }
}

/// A machine with a device of each kind.
fn machine(rt: &impl AllocGlobal) -> Result<Machine, Fail> {
    let mut machine = Machine::flat(rt.alloc())?;
    for (kind, sectors) in [
        (DeviceKind::Block, 6),
        (DeviceKind::Console, 0),
        (DeviceKind::Entropy, 0),
        (DeviceKind::Balloon, 0),
        (DeviceKind::Probe, 0),
    ] {
        machine.device.push(rt.alloc(), spec(kind, sectors))?;
    }
    Ok(machine)
}

/// The device in a slot of that machine.
fn device(rt: &(impl AllocGlobal + Abort), machine: &Machine, slot: u8) -> Result<AnyDevice, Fail> {
    let number = DevNo::new(slot).expect(rt, "a slot");
    let spec = machine
        .device
        .as_slice()
        .get(usize::from(slot))
        .expect(rt, "a device");
    assert!(rt; spec.sectors <= DISK_SECTORS);
    Ok(make(machine, number, rt.alloc())?)
}

#[test]
fn each_kind_is_made_and_served(rt: HostRuntime) -> Result<(), Fail> {
    let machine = machine(&rt)?;
    // The device type, how many queues there are, the first word of the configuration; and, after a chain of 16 writable bytes
    // in queue 0, Status, the used index and the used length.
    let rows: [(u64, u64, u64, u64, u8, u8); 4] = [
        (2, 1, 6, 0x4f, 0, 0),
        (3, 2, 0, 0x0f, 1, 16),
        (4, 1, 0, 0x0f, 1, 16),
        (5, 3, 0, 0x0f, 1, 0),
    ];
    let mut slot = 0u8;
    for (kind, queues, config, status, index, len) in rows {
        let mut first = device(&rt, &machine, slot)?;
        slot = slot.wrapping_add(1);
        set_up(&mut first, 0, queues);
        let mut device = first.copy(rt.alloc())?;
        assert_eq!(rt; load(&mut device, 0x08), kind);
        assert_eq!(rt; load(&mut device, 0x100), config);
        let mut guest = Guest::new(Outside::new(6, 16));
        guest.describe(0, 0, BUFFERS, 16, WRITE, 0);
        guest.offer(0, 0, 0, 1);
        store(&mut device, STATUS, DRIVER_OK);
        store(&mut device, NOTIFY, 0);
        assert_eq!(rt; device.serve(&mut guest), Served::Idle);
        assert_eq!(rt; load(&mut device, STATUS), status);
        assert_eq!(rt; guest.load(USED + 2, 2), &[index, 0][..]);
        assert_eq!(rt; guest.load(USED + 8, 4), &[len, 0, 0, 0][..]);
    }
    let mut probe = device(&rt, &machine, slot)?;
    store(&mut probe, 0x08, 4);
    let (width, off) = (Width::B8, 0x20);
    assert_eq!(rt; probe.act(0, &Item::Load { width, off }).value, 1);
    Ok(())
}
