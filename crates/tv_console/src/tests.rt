//! The console, with a driver that sets its two queues up, and looks at what goes out and what comes in.

use crate::Console;
use std::process::Abort;
use tv_driver::{
    AVAILABLE, Asked, BUFFERS, DESCRIPTORS, DRIVER_OK, Guest, INTERRUPT_STATUS, MEMORY, NEXT,
    NOTIFY, Outside, RING_BYTES, STATUS, USED, WRITE, load, set_up, store,
};
use tv_port::{Device, Served};

/// The queue whose chains take what comes in.
const RECEIVE: u8 = 0;

/// The queue whose chains hold what goes out.
const TRANSMIT: u8 = 1;

/// Where a second buffer of a chain lies.
const SECOND: u64 = BUFFERS + 0x2000;

/// Stores DRIVER_OK, notifies a queue, and serves.
fn serve(device: &mut Console, guest: &mut Guest, queue: u8) -> Served {
    store(device, STATUS, DRIVER_OK);
    store(device, NOTIFY, u64::from(queue));
    device.serve(guest)
}

/// Memory whose bytes from [`BUFFERS`] on differ from their neighbours, with an input of so many bytes.
fn filled(input: usize) -> Guest {
    let mut guest = Guest::new(Outside::new(0, input));
    for at in BUFFERS as usize..MEMORY {
        guest.bytes[at] = (at % 251) as u8;
    }
    guest
}

/// `len` bytes from a place on; none where they aren't all there.
fn part(bytes: &[u8], at: usize, len: usize) -> &[u8] {
    if at <= bytes.len() && len <= bytes.len() - at {
        &bytes[at..at + len]
    } else {
        &[]
    }
}

/// How many bytes the first two puts had, and how many interrupts were raised.
fn counted(guest: &Guest) -> ([usize; 2], u32) {
    let (mut puts, mut count, mut raises) = ([0; 2], 0, 0u32);
    for asked in guest.asked.iter() {
        match asked {
            Asked::Put(len) if count < 2 => {
                puts[count] = *len;
                count += 1;
            }
            Asked::Raise => raises = raises.wrapping_add(1),
            _ => {}
        }
    }
    (puts, raises)
}

fn read(addr: u64, len: usize) -> Asked {
    Asked::Read { addr, len }
}

fn write(addr: u64, len: usize) -> Asked {
    Asked::Write { addr, len }
}

#[test]
fn a_chain_of_4097_bytes_goes_out(rt: HostRuntime) {
    let mut device = Console::new(rt.alloc()).ok().expect(&rt, "memory");
    let mut guest = filled(0);
    guest.describe(TRANSMIT, 0, BUFFERS, 4097, 0, 0);
    guest.offer(TRANSMIT, 0, 0, 1);
    set_up(&mut device, 0, 2);
    assert_eq!(rt; serve(&mut device, &mut guest, TRANSMIT), Served::Idle);
    let available = AVAILABLE + RING_BYTES;
    let used = USED + RING_BYTES;
    let expected = [
        read(available + 2, 2),
        read(available + 4, 2),
        read(DESCRIPTORS + RING_BYTES, 16),
        read(BUFFERS, 4096),
        read(BUFFERS + 4096, 1),
        Asked::Put(4096),
        Asked::Put(1),
        write(used + 4, 8),
        write(used + 2, 2),
        read(available, 2),
        Asked::Raise,
        read(available + 2, 2),
    ];
    assert_eq!(rt; &guest.asked[..], &expected[..]);
    assert_eq!(rt; guest.outside.put, 4097);
    assert_eq!(rt;
        part(&guest.outside.output, 0, 4097),
        guest.load(BUFFERS, 4097)
    );
    assert_eq!(rt;
        guest.load(used, 12),
        &[0, 0, 1, 0, 0, 0, 0, 0, 0, 0, 0, 0][..]
    );
    for (off, value) in [
        (0x00, 0x7472_6976),
        (0x08, 3),
        (STATUS, 15),
        (INTERRUPT_STATUS, 1),
        (0x100, 0),
    ] {
        assert_eq!(rt; load(&mut device, off), value);
    }
}

#[test]
fn what_goes_out_of_each_chain(rt: HostRuntime) {
    let mut device = Console::new(rt.alloc()).ok().expect(&rt, "memory");
    let mut guest = filled(0);
    set_up(&mut device, 0, 2);
    // the lengths of two readable buffers, whether the driver wants no interrupt, and the lengths of the puts
    let rows: [(u32, u32, bool, [usize; 2]); 6] = [
        (1, 0, false, [1, 0]),
        (0, 0, false, [0, 0]),
        (4096, 0, true, [4096, 0]),
        (4095, 2, false, [4096, 1]),
        (1, 4095, true, [4096, 0]),
        (4096, 4096, false, [4096, 4096]),
    ];
    let mut index = 0u16;
    for (first, second, is_quiet, puts) in rows {
        guest.forget();
        guest.outside.put = 0;
        let _ = guest.store(AVAILABLE + RING_BYTES, &[u8::from(is_quiet), 0]);
        guest.describe(TRANSMIT, 7, BUFFERS, first, NEXT, 2);
        guest.describe(TRANSMIT, 2, SECOND, second, NEXT, 4);
        guest.describe(TRANSMIT, 4, 0, 9, WRITE, 0);
        let place = index;
        index = index.wrapping_add(1);
        guest.offer(TRANSMIT, place, 7, index);
        assert_eq!(rt; serve(&mut device, &mut guest, TRANSMIT), Served::Idle);
        assert_eq!(rt; counted(&guest), (puts, u32::from(!is_quiet)));
        let (first, second) = (first as usize, second as usize);
        assert_eq!(rt; guest.outside.put, first.wrapping_add(second));
        assert_eq!(rt;
            part(&guest.outside.output, 0, first),
            guest.load(BUFFERS, first)
        );
        assert_eq!(rt;
            part(&guest.outside.output, first, second),
            guest.load(SECOND, second)
        );
        let element = USED + RING_BYTES + 4 + 8 * u64::from(place);
        assert_eq!(rt;
            guest.load(USED + RING_BYTES + 2, 2),
            &index.to_le_bytes()[..]
        );
        assert_eq!(rt; guest.load(element, 8), &[7, 0, 0, 0, 0, 0, 0, 0][..]);
    }
}

#[test]
fn a_put_that_fails_ends_all(rt: HostRuntime) {
    // how many puts are done before one fails, the puts that were asked for, and how many bytes went out
    for (done, puts, out) in [(0, [4096, 0], 3), (1, [4096, 1], 4097)] {
        let mut device = Console::new(rt.alloc()).ok().expect(&rt, "memory");
        let mut guest = filled(0);
        guest.outside.fails_after = Some(done);
        guest.describe(TRANSMIT, 0, BUFFERS, 4097, 0, 0);
        guest.offer(TRANSMIT, 0, 0, 1);
        set_up(&mut device, 0, 2);
        assert_eq!(rt; serve(&mut device, &mut guest, TRANSMIT), Served::Lost);
        assert_eq!(rt; counted(&guest), (puts, 0));
        let is_last = match guest.asked.last() {
            Some(Asked::Put(_)) => true,
            _ => false,
        };
        assert!(rt; is_last);
        assert_eq!(rt; guest.outside.put, out);
        assert_eq!(rt; guest.load(USED + RING_BYTES + 2, 2), &[0, 0][..]);
    }
}

#[test]
fn five_bytes_come_in_and_then_the_end(rt: HostRuntime) {
    let mut device = Console::new(rt.alloc()).ok().expect(&rt, "memory");
    let mut guest = filled(5);
    guest.describe(RECEIVE, 0, BUFFERS, 8, WRITE, 0);
    guest.describe(RECEIVE, 1, SECOND, 8, WRITE, 0);
    guest.offer(RECEIVE, 0, 0, 1);
    guest.offer(RECEIVE, 1, 1, 2);
    set_up(&mut device, 0, 2);
    assert_eq!(rt; serve(&mut device, &mut guest, RECEIVE), Served::Idle);
    let expected = [
        read(AVAILABLE + 2, 2),
        read(AVAILABLE + 4, 2),
        read(DESCRIPTORS, 16),
        Asked::Input(8),
        write(BUFFERS, 5),
        write(USED + 4, 8),
        write(USED + 2, 2),
        read(AVAILABLE, 2),
        Asked::Raise,
        read(AVAILABLE + 2, 2),
        read(AVAILABLE + 6, 2),
        read(DESCRIPTORS + 16, 16),
        Asked::Input(8),
    ];
    assert_eq!(rt; &guest.asked[..], &expected[..]);
    assert_eq!(rt; guest.load(BUFFERS, 5), &[0, 3, 6, 9, 12][..]);
    assert_eq!(rt;
        guest.load(USED, 12),
        &[0, 0, 1, 0, 0, 0, 0, 0, 5, 0, 0, 0][..]
    );
    assert_eq!(rt; load(&mut device, STATUS), 15);

    // the input has bytes again, and yet queue 0 is served no more
    guest.forget();
    guest.outside.input = 5;
    let mut copy = device.copy(rt.alloc()).ok().expect(&rt, "memory");
    assert_eq!(rt; serve(&mut copy, &mut guest, RECEIVE), Served::Idle);
    assert_eq!(rt; serve(&mut device, &mut guest, RECEIVE), Served::Idle);
    store(&mut device, STATUS, 0);
    set_up(&mut device, 0, 2);
    assert_eq!(rt; serve(&mut device, &mut guest, RECEIVE), Served::Idle);
    assert_eq!(rt; guest.asked.len(), 0);
    guest.describe(TRANSMIT, 0, BUFFERS, 1, 0, 0);
    guest.offer(TRANSMIT, 0, 0, 1);
    assert_eq!(rt; serve(&mut device, &mut guest, TRANSMIT), Served::Idle);
    assert_eq!(rt; counted(&guest), ([1, 0], 1));
}

#[test]
fn what_comes_into_each_chain(rt: HostRuntime) {
    // the lengths of two writable buffers, how many bytes the input has, how many are asked for (0: none), and how many come
    let rows: [(u32, u32, usize, u16, u32); 5] = [
        (0, 0, 9, 0, 0),
        (3, 6, 9, 9, 9),
        (3, 6, 4, 9, 4),
        (904, 4096, 9000, 4096, 4096),
        (4096, 0, 9000, 4096, 4096),
    ];
    for (first, second, input, most, came) in rows {
        let mut device = Console::new(rt.alloc()).ok().expect(&rt, "memory");
        let mut guest = filled(input);
        guest.describe(RECEIVE, 0, BUFFERS, first, NEXT | WRITE, 1);
        guest.describe(RECEIVE, 1, SECOND, second, WRITE, 0);
        guest.offer(RECEIVE, 0, 0, 1);
        set_up(&mut device, 0, 2);
        assert_eq!(rt; serve(&mut device, &mut guest, RECEIVE), Served::Idle);
        let mut asked_most = 0;
        for asked in guest.asked.iter() {
            if let Asked::Input(most) = asked {
                asked_most = *most;
            }
        }
        assert_eq!(rt; asked_most, most);
        assert_eq!(rt; guest.load(USED + 2, 2), &[1, 0][..]);
        assert_eq!(rt; guest.load(USED + 8, 4), &came.to_le_bytes()[..]);
        assert_eq!(rt; guest.outside.input, input.wrapping_sub(came as usize));
    }
}

#[test]
fn a_broken_service_needs_a_reset(rt: HostRuntime) {
    // the head, whether the input fails, whether there is an interrupt, how many actions are asked for, of which the last is a
    // raise, and InterruptStatus
    let rows = [
        (8, false, true, 3, 2),
        (0, true, true, 5, 2),
        (0, false, false, 9, 3),
    ];
    for (head, fails, has_interrupt, actions, interrupt) in rows {
        let mut device = Console::new(rt.alloc()).ok().expect(&rt, "memory");
        let mut guest = filled(5);
        guest.outside.fails_after = if fails { Some(0) } else { None };
        guest.has_interrupt = has_interrupt;
        guest.describe(RECEIVE, 0, BUFFERS, 8, WRITE, 0);
        guest.offer(RECEIVE, 0, head, 1);
        set_up(&mut device, 0, 2);
        assert_eq!(rt; serve(&mut device, &mut guest, RECEIVE), Served::Idle);
        assert_eq!(rt; guest.asked.len(), actions);
        assert_eq!(rt; guest.asked.last().copied(), Some(Asked::Raise));
        assert_eq!(rt; counted(&guest), ([0, 0], 1));
        assert_eq!(rt; load(&mut device, STATUS), 0x4f);
        assert_eq!(rt; load(&mut device, INTERRUPT_STATUS), interrupt);
        for queue in [RECEIVE, TRANSMIT] {
            assert_eq!(rt; serve(&mut device, &mut guest, queue), Served::Idle);
        }
        assert_eq!(rt; guest.asked.len(), actions);
    }
}

#[test]
fn each_end_of_the_port_ends_a_service(rt: HostRuntime) {
    for queue in [RECEIVE, TRANSMIT] {
        for left in 0..12 {
            let mut device = Console::new(rt.alloc()).ok().expect(&rt, "memory");
            let mut guest = filled(5);
            guest.describe(RECEIVE, 0, BUFFERS, 8, WRITE, 0);
            guest.describe(TRANSMIT, 0, BUFFERS, 8, 0, 0);
            guest.offer(queue, 0, 0, 1);
            guest.left = left;
            set_up(&mut device, 0, 2);
            let served = serve(&mut device, &mut guest, queue);
            assert_eq!(rt;
                served,
                if left < 10 {
                    Served::Ended
                } else {
                    Served::Idle
                }
            );
        }
    }
}
