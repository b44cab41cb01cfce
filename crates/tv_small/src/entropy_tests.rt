//! The entropy device, with a driver that sets up its queue in a list of bytes and looks at what comes back.

use crate::EntropyDevice;
use std::process::Abort;
use tv_driver::{
    AVAILABLE, Asked, BUFFERS, DESCRIPTORS, DRIVER_OK, Guest, INTERRUPT_STATUS, MEMORY, NEXT,
    NOTIFY, Outside, RANDOM, STATUS, USED, WRITE, load, set_up, store,
};
use tv_port::{Action, Device, Served, next_after};

const READY: u16 = 0x44;

/// Memory of zeros. There is nothing outside but random bytes.
fn new_guest() -> Guest {
    Guest::new(Outside::new(0, 0))
}

/// Stores DRIVER_OK, notifies the queue, and serves.
fn serve(device: &mut EntropyDevice, guest: &mut Guest) -> Served {
    store(device, STATUS, DRIVER_OK);
    store(device, NOTIFY, 0);
    device.serve(guest)
}

#[test]
fn a_round_of_4097_bytes(rt: HostRuntime) {
    let mut device = EntropyDevice::new(rt.alloc()).ok().expect(&rt, "memory");
    let mut guest = new_guest();
    guest.describe(0, 0, BUFFERS, 4097, WRITE, 0);
    guest.offer(0, 0, 0, 1);
    set_up(&mut device, 0, 1);
    assert_eq!(rt; load(&mut device, READY), 1);
    assert_eq!(rt; serve(&mut device, &mut guest), Served::Idle);
    let index = Asked::Read {
        addr: AVAILABLE + 2,
        len: 2,
    };
    let expected = [
        index,
        Asked::Read {
            addr: AVAILABLE + 4,
            len: 2,
        },
        Asked::Read {
            addr: DESCRIPTORS,
            len: 16,
        },
        Asked::Random(4096),
        Asked::Random(1),
        Asked::Write {
            addr: BUFFERS,
            len: 4096,
        },
        Asked::Write {
            addr: BUFFERS + 4096,
            len: 1,
        },
        Asked::Write {
            addr: USED + 4,
            len: 8,
        },
        Asked::Write {
            addr: USED + 2,
            len: 2,
        },
        Asked::Read {
            addr: AVAILABLE,
            len: 2,
        },
        Asked::Raise,
        index,
    ];
    assert_eq!(rt; &guest.asked[..], &expected[..]);
    assert_eq!(rt; guest.load(BUFFERS - 1, 4099), &filled()[..]);
    assert_eq!(rt;
        guest.load(USED, 12),
        &[0, 0, 1, 0, 0, 0, 0, 0, 0x01, 0x10, 0, 0][..]
    );
    assert_eq!(rt; load(&mut device, INTERRUPT_STATUS), 1);
    store(&mut device, 0x64, 1);
    assert_eq!(rt; load(&mut device, INTERRUPT_STATUS), 0);
    assert_eq!(rt; load(&mut device, STATUS), 15);
}

/// 4097 random bytes between two zeros.
fn filled() -> [u8; 4099] {
    let mut bytes = [RANDOM; 4099];
    bytes[0] = 0;
    bytes[4098] = 0;
    bytes
}

#[test]
fn what_comes_back_of_each_chain(rt: HostRuntime) {
    let mut device = EntropyDevice::new(rt.alloc()).ok().expect(&rt, "memory");
    let mut guest = new_guest();
    set_up(&mut device, 0, 1);
    // the lengths of a readable buffer and of two writable ones, whether the driver wants no interrupt, and the random pieces
    let rows: [(u32, u32, u32, bool, usize); 6] = [
        (0, 0, 0, false, 0),
        (3, 1, 0, true, 1),
        (0, 4095, 1, false, 1),
        (4097, 5, 4092, false, 2),
        (1, 4096, 4096, true, 2),
        (0, 8192, 1, false, 3),
    ];
    let mut index = 0u16;
    for (readable, first, second, is_quiet, pieces) in rows {
        guest.bytes = [0; MEMORY];
        guest.asked.clear();
        let _ = guest.store(AVAILABLE, &[u8::from(is_quiet), 0]);
        guest.describe(0, 7, BUFFERS, readable, NEXT, 2);
        guest.describe(0, 2, BUFFERS, first, NEXT | WRITE, 4);
        guest.describe(0, 4, BUFFERS + 0x2800, second, WRITE, 0);
        let at = USED + 4 + 8 * u64::from(index);
        let place = index;
        index = index.wrapping_add(1);
        guest.offer(0, place, 7, index);
        assert_eq!(rt; serve(&mut device, &mut guest), Served::Idle);
        assert_eq!(rt; guest.load(USED + 2, 2), &index.to_le_bytes()[..]);
        assert_eq!(rt; guest.load(at, 4), &[7, 0, 0, 0][..]);
        let writable = first.wrapping_add(second);
        assert_eq!(rt; guest.load(at + 4, 4), &writable.to_le_bytes()[..]);
        let (mut random, mut raised, mut filled) = (0usize, 0u32, 0u32);
        for asked in guest.asked.iter() {
            match asked {
                Asked::Random(_) => random = random.wrapping_add(1),
                Asked::Raise => raised = raised.wrapping_add(1),
                _ => {}
            }
        }
        for byte in guest.load(BUFFERS, 0x4000) {
            filled = filled.wrapping_add(u32::from(*byte == RANDOM));
        }
        assert_eq!(rt; random, pieces);
        assert_eq!(rt; raised, u32::from(!is_quiet));
        assert_eq!(rt; filled, writable);
    }
}

#[test]
fn a_broken_service_needs_a_reset(rt: HostRuntime) {
    // the head, whether there are random bytes and an interrupt, how many actions are asked for, of which the last is a raise,
    // and then Status and InterruptStatus
    let rows = [
        (8, true, true, 3, 0x4f, 2),
        (0, false, true, 5, 0x4f, 2),
        (0, true, false, 9, 0x4f, 3),
    ];
    for (head, has_random, has_interrupt, actions, status, interrupt) in rows {
        let mut device = EntropyDevice::new(rt.alloc()).ok().expect(&rt, "memory");
        let mut guest = new_guest();
        guest.outside.fails_after = if has_random { None } else { Some(0) };
        guest.has_interrupt = has_interrupt;
        guest.describe(0, 0, BUFFERS, 16, WRITE, 0);
        guest.offer(0, 0, head, 1);
        set_up(&mut device, 0, 1);
        assert_eq!(rt; serve(&mut device, &mut guest), Served::Idle);
        assert_eq!(rt; guest.asked.len(), actions);
        assert_eq!(rt; guest.asked.last().copied(), Some(Asked::Raise));
        assert_eq!(rt; load(&mut device, STATUS), status);
        assert_eq!(rt; load(&mut device, INTERRUPT_STATUS), interrupt);
        assert_eq!(rt; serve(&mut device, &mut guest), Served::Idle);
        assert_eq!(rt; guest.asked.len(), actions);
        store(&mut device, STATUS, 0);
        set_up(&mut device, 0, 1);
        guest.has_interrupt = true;
        guest.offer(0, 0, 0, 1);
        assert_eq!(rt; serve(&mut device, &mut guest), Served::Idle);
        assert_eq!(rt; load(&mut device, STATUS), 0x0f);
        assert_eq!(rt; guest.load(USED, 4), &[0, 0, 1, 0][..]);
    }
}

#[test]
fn a_notification_is_served_only_where_it_can_be(rt: HostRuntime) {
    let mut device = EntropyDevice::new(rt.alloc()).ok().expect(&rt, "memory");
    let mut guest = new_guest();
    guest.describe(0, 0, BUFFERS, 16, WRITE, 0);
    guest.offer(0, 0, 0, 1);
    set_up(&mut device, 0, 1);
    store(&mut device, NOTIFY, 0);
    assert_eq!(rt; device.serve(&mut guest), Served::Idle);
    store(&mut device, STATUS, 4);
    for number in [1, 2, 0x1_0000] {
        store(&mut device, NOTIFY, number);
        assert_eq!(rt; device.serve(&mut guest), Served::Idle);
    }
    store(&mut device, READY, 0);
    store(&mut device, NOTIFY, 0);
    assert_eq!(rt; device.serve(&mut guest), Served::Idle);
    assert_eq!(rt; guest.asked.len(), 0);
    for off in [0x00, 0x08, 0x100] {
        let expected = match off {
            0x00 => 0x7472_6976,
            0x08 => 4,
            _ => 0,
        };
        assert_eq!(rt; load(&mut device, off), expected);
    }
}

#[test]
fn each_end_of_the_port_ends_a_service(rt: HostRuntime) {
    for left in 0..11 {
        let mut device = EntropyDevice::new(rt.alloc()).ok().expect(&rt, "memory");
        let mut guest = new_guest();
        guest.describe(0, 0, BUFFERS, 16, WRITE, 0);
        guest.offer(0, 0, 0, 1);
        guest.left = left;
        set_up(&mut device, 0, 1);
        let served = serve(&mut device, &mut guest);
        assert_eq!(rt;
            served,
            if left < 10 {
                Served::Ended
            } else {
                Served::Idle
            }
        );
    }
}

#[test]
fn a_copy_goes_on_where_the_device_is(rt: HostRuntime) {
    let mut device = EntropyDevice::new(rt.alloc()).ok().expect(&rt, "memory");
    let mut guest = new_guest();
    guest.describe(0, 0, BUFFERS, 16, WRITE, 0);
    guest.offer(0, 0, 0, 1);
    set_up(&mut device, 0, 1);
    assert_eq!(rt; serve(&mut device, &mut guest), Served::Idle);
    store(&mut device, NOTIFY, 0);
    let next = next_after(&device, &[], rt.alloc())
        .ok()
        .expect(&rt, "memory");
    let is_index = match next {
        Some(Action::Read { addr, len: 2 }) => addr == AVAILABLE + 2,
        _ => false,
    };
    assert!(rt; is_index);
    let mut copy = device.copy(rt.alloc()).ok().expect(&rt, "memory");
    guest.offer(0, 1, 0, 2);
    assert_eq!(rt; copy.serve(&mut guest), Served::Idle);
    assert_eq!(rt; guest.load(USED + 2, 2), &[2, 0][..]);
    assert_eq!(rt; load(&mut copy, STATUS), 15);
}
