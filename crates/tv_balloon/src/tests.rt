//! The balloon, with a driver that sets up its queues in a list of bytes: what is asked for, what is told, what comes back.

use crate::Balloon;
use std::process::Abort;
use tv_base::Width;
use tv_driver::{
    AVAILABLE, Asked, BUFFERS, DESCRIPTORS, DRIVER_OK, Guest, INTERRUPT_STATUS, NOTIFY, Outside,
    RING_BYTES, STATUS, Told, USED, load, set_up, store,
};
use tv_items::{Item, Verdict};
use tv_port::{Device, Served};

const MUST_TELL_HOST: u64 = 1;

const STATS_VQ: u64 = 2;

const PAGES: u16 = 0x100;

const ACTUAL: u16 = 0x104;

const GENERATION: u16 = 0xfc;

/// The tag, the status and the other tag of a verdict.
type Row = Option<(u32, u8, u32)>;

fn guest() -> Guest {
    Guest::new(Outside::new(0, 0))
}

fn row(verdict: Option<Verdict>) -> Row {
    match verdict {
        Some(verdict) => Some((verdict.tag, verdict.status, verdict.other)),
        None => None,
    }
}

/// Asks for statistics.
fn ask(device: &mut Balloon, tag: u32) -> Row {
    row(device.act(tag, &Item::Stats).verdict)
}

/// Sets up the three queues with these features. The driver is ready.
fn begin(device: &mut Balloon, features: u64) {
    set_up(device, features, 3);
    store(device, STATUS, DRIVER_OK);
}

/// Offers a chain of one readable buffer, and serves the queue.
fn offer(device: &mut Balloon, guest: &mut Guest, queue: u8, place: u16, bytes: &[u8]) -> Served {
    let _ = guest.store(BUFFERS, bytes);
    guest.describe(queue, 3, BUFFERS, bytes.len().min(4096) as u32, 0, 0);
    guest.offer(queue, place % 8, 3, place.wrapping_add(1));
    store(device, NOTIFY, u64::from(queue));
    device.serve(guest)
}

/// What is asked for of a chain with two pages: these moves between the take and the give.
fn around(queue: u8, len: usize, moves: [Asked; 2]) -> [Asked; 11] {
    let behind = RING_BYTES * u64::from(queue);
    let [first, second] = moves;
    let index = Asked::Read {
        addr: AVAILABLE + behind + 2,
        len: 2,
    };
    let entry = Asked::Read {
        addr: AVAILABLE + behind + 4,
        len: 2,
    };
    let descriptor = Asked::Read {
        addr: DESCRIPTORS + behind + 48,
        len: 16,
    };
    let request = Asked::Read { addr: BUFFERS, len };
    let element = Asked::Write {
        addr: USED + behind + 4,
        len: 8,
    };
    let used = Asked::Write {
        addr: USED + behind + 2,
        len: 2,
    };
    let flags = Asked::Read {
        addr: AVAILABLE + behind,
        len: 2,
    };
    [
        index,
        entry,
        descriptor,
        request,
        first,
        second,
        element,
        used,
        flags,
        Asked::Raise,
        index,
    ]
}

/// A page that is released.
fn release(page: u32, hold: bool) -> Asked {
    Asked::Release { page, hold }
}

#[test]
fn pages_move(rt: HostRuntime) {
    let held = [release(5, true), release(6, true)];
    let given = [release(5, false), release(6, false)];
    let regained = [Asked::Regain(5), Asked::Regain(6)];
    // the accepted features, the queue, the length of the request, the moves
    let rows: [(u64, u8, usize, [Asked; 2]); 5] = [
        (MUST_TELL_HOST, 0, 8, held),
        (0, 0, 8, given),
        (STATS_VQ, 0, 9, given),
        (MUST_TELL_HOST, 1, 8, regained),
        (0, 1, 11, regained),
    ];
    for (features, queue, len, moves) in rows {
        let mut device = Balloon::new(rt.alloc()).ok().expect(&rt, "memory");
        let mut guest = guest();
        begin(&mut device, features);
        let request = [5, 0, 0, 0, 6, 0, 0, 0, 7, 0, 0];
        let request = &request[..len.min(11)];
        assert_eq!(rt;
            offer(&mut device, &mut guest, queue, 0, request),
            Served::Idle
        );
        assert_eq!(rt; &guest.asked[..], &around(queue, len, moves)[..]);
        let used = USED + RING_BYTES * u64::from(queue);
        let expected = [0, 0, 1, 0, 3, 0, 0, 0, 0, 0, 0, 0];
        assert_eq!(rt; guest.load(used, 12), &expected[..]);
        assert_eq!(rt; load(&mut device, INTERRUPT_STATUS), 1);
        assert_eq!(rt; load(&mut device, STATUS), 15);
        assert_eq!(rt; guest.told.len(), 0);
    }
}

#[test]
fn a_broken_service_refuses_the_request_that_waits(rt: HostRuntime) {
    let refused = Told {
        after: 6,
        tag: 7,
        status: 5,
        other: 0,
        sum: 0,
    };
    let rows = [
        (0, release(5, false), release(8, false)),
        (1, Asked::Regain(5), Asked::Regain(8)),
    ];
    for (queue, first, second) in rows {
        let mut device = Balloon::new(rt.alloc()).ok().expect(&rt, "memory");
        let mut guest = guest();
        begin(&mut device, STATS_VQ);
        assert_eq!(rt; ask(&mut device, 7), None);
        assert_eq!(rt; device.serve(&mut guest), Served::Idle);
        let request = [5, 0, 0, 0, 8, 0, 0, 0, 6, 0, 0, 0];
        assert_eq!(rt;
            offer(&mut device, &mut guest, queue, 0, &request),
            Served::Idle
        );
        assert_eq!(rt; guest.asked.len(), 7);
        assert_eq!(rt; guest.asked.get(4).copied(), Some(first));
        assert_eq!(rt; guest.asked.get(5).copied(), Some(second));
        assert_eq!(rt; guest.asked.last().copied(), Some(Asked::Raise));
        assert_eq!(rt; &guest.told[..], &[refused][..]);
        assert_eq!(rt; load(&mut device, STATUS), 0x4f);
        assert_eq!(rt; load(&mut device, INTERRUPT_STATUS), 2);
        assert_eq!(rt; ask(&mut device, 8), Some((8, 5, 0)));
    }
}

#[test]
fn a_refused_interrupt_is_not_followed_by_another(rt: HostRuntime) {
    let mut device = Balloon::new(rt.alloc()).ok().expect(&rt, "memory");
    let mut guest = guest();
    guest.has_interrupt = false;
    begin(&mut device, STATS_VQ);
    assert_eq!(rt; ask(&mut device, 7), None);
    assert_eq!(rt;
        row(device.act(9, &Item::Target { pages: 3 }).verdict),
        Some((9, 0, 0))
    );
    assert_eq!(rt; device.serve(&mut guest), Served::Idle);
    assert_eq!(rt; &guest.asked[..], &[Asked::Raise][..]);
    let refused = Told {
        after: 1,
        tag: 7,
        status: 5,
        other: 0,
        sum: 0,
    };
    assert_eq!(rt; &guest.told[..], &[refused][..]);
    assert_eq!(rt; load(&mut device, STATUS), 0x4f);
}

#[test]
fn a_new_number_of_pages(rt: HostRuntime) {
    let mut device = Balloon::new(rt.alloc()).ok().expect(&rt, "memory");
    let mut guest = guest();
    set_up(&mut device, 0, 3);
    for (tag, pages, raises) in [(1, 0x1234_5678, 0), (2, 9, 1)] {
        guest.forget();
        let verdict = device.act(tag, &Item::Target { pages }).verdict;
        assert_eq!(rt; row(verdict), Some((tag, 0, 0)));
        assert_eq!(rt; device.serve(&mut guest), Served::Idle);
        assert_eq!(rt; guest.asked.len(), raises);
        assert_eq!(rt;
            guest.asked.last().copied().unwrap_or(Asked::Raise),
            Asked::Raise
        );
        assert_eq!(rt; load(&mut device, PAGES), u64::from(pages));
        assert_eq!(rt; load(&mut device, GENERATION), u64::from(tag));
        assert_eq!(rt; load(&mut device, INTERRUPT_STATUS), 2);
        store(&mut device, STATUS, DRIVER_OK);
    }
}

/// 33 numbers with their tags: 1 to 33.
fn numbers() -> [u8; 330] {
    let mut bytes = [0; 330];
    let mut number = 0u8;
    for item in bytes.chunks_exact_mut(10) {
        number = number.wrapping_add(1);
        item[0] = number;
        item[2] = number;
    }
    bytes
}

#[test]
fn statistics_wait_for_a_chain(rt: HostRuntime) {
    let mut device = Balloon::new(rt.alloc()).ok().expect(&rt, "memory");
    let mut guest = guest();
    set_up(&mut device, STATS_VQ, 3);
    assert_eq!(rt; ask(&mut device, 1), Some((1, 5, 0)));
    store(&mut device, STATUS, DRIVER_OK);
    assert_eq!(rt; ask(&mut device, 2), None);
    assert_eq!(rt; ask(&mut device, 3), Some((3, 6, 2)));
    assert_eq!(rt; device.serve(&mut guest), Served::Idle);
    assert_eq!(rt; guest.asked.len(), 0);
    // 1 to 32 are kept
    assert_eq!(rt;
        offer(&mut device, &mut guest, 2, 0, &numbers()),
        Served::Idle
    );
    let first = Told {
        after: 4,
        tag: 2,
        status: 0,
        other: 0,
        sum: 528,
    };
    assert_eq!(rt; &guest.told[..], &[first][..]);
    assert_eq!(rt; guest.asked.len(), 4);
    // the chain is held until the next request, and no other chain is served meanwhile
    guest.forget();
    assert_eq!(rt; offer(&mut device, &mut guest, 2, 1, &[0; 9]), Served::Idle);
    assert_eq!(rt; guest.asked.len(), 0);
    assert_eq!(rt; ask(&mut device, 4), None);
    assert_eq!(rt; device.serve(&mut guest), Served::Idle);
    let ring = 2 * RING_BYTES;
    let expected = [
        Asked::Write {
            addr: USED + ring + 4,
            len: 8,
        },
        Asked::Write {
            addr: USED + ring + 2,
            len: 2,
        },
        Asked::Read {
            addr: AVAILABLE + ring,
            len: 2,
        },
        Asked::Raise,
        Asked::Read {
            addr: AVAILABLE + ring + 2,
            len: 2,
        },
        Asked::Read {
            addr: AVAILABLE + ring + 6,
            len: 2,
        },
        Asked::Read {
            addr: DESCRIPTORS + ring + 48,
            len: 16,
        },
        Asked::Read {
            addr: BUFFERS,
            len: 9,
        },
    ];
    assert_eq!(rt; &guest.asked[..], &expected[..]);
    let second = Told {
        after: 8,
        tag: 4,
        status: 0,
        other: 0,
        sum: 0,
    };
    assert_eq!(rt; &guest.told[..], &[second][..]);
    let used = [0, 0, 1, 0, 3, 0, 0, 0, 0, 0, 0, 0];
    assert_eq!(rt; guest.load(USED + ring, 12), &used[..]);
    assert_eq!(rt; load(&mut device, INTERRUPT_STATUS), 1);
}

#[test]
fn a_reset_forgets_who_waits(rt: HostRuntime) {
    let mut device = Balloon::new(rt.alloc()).ok().expect(&rt, "memory");
    let mut guest = guest();
    begin(&mut device, STATS_VQ);
    store(&mut device, ACTUAL, 0x1_0000_004d);
    for (width, off) in [(Width::B2, ACTUAL), (Width::B4, PAGES)] {
        let value = 1;
        let _acted = device.act(0, &Item::Store { width, off, value });
    }
    assert_eq!(rt; load(&mut device, ACTUAL), 77);
    assert_eq!(rt; load(&mut device, PAGES), 0);
    let reset = Item::Store {
        width: Width::B4,
        off: STATUS,
        value: 0,
    };
    // a request that waits is refused, and a chain that is held is forgotten
    assert_eq!(rt; ask(&mut device, 7), None);
    assert_eq!(rt; row(device.act(0, &reset).verdict), Some((7, 5, 0)));
    assert_eq!(rt; load(&mut device, ACTUAL), 0);
    begin(&mut device, STATS_VQ);
    assert_eq!(rt;
        offer(&mut device, &mut guest, 2, 0, &[0; 10]),
        Served::Idle
    );
    assert_eq!(rt; guest.asked.len(), 4);
    assert_eq!(rt; guest.told.len(), 0);
    assert_eq!(rt; row(device.act(0, &reset).verdict), None);
    begin(&mut device, STATS_VQ);
    guest.forget();
    assert_eq!(rt; ask(&mut device, 8), None);
    assert_eq!(rt; device.serve(&mut guest), Served::Idle);
    assert_eq!(rt; guest.asked.len(), 0);
}

#[test]
fn each_end_of_the_port_ends_a_service(rt: HostRuntime) {
    for left in 0..13 {
        let mut device = Balloon::new(rt.alloc()).ok().expect(&rt, "memory");
        let mut guest = guest();
        guest.left = left;
        begin(&mut device, 0);
        let served = offer(&mut device, &mut guest, 1, 0, &[5, 0, 0, 0, 6, 0, 0, 0]);
        assert_eq!(rt;
            served,
            if left < 11 {
                Served::Ended
            } else {
                Served::Idle
            }
        );
    }
}

#[test]
fn a_copy_goes_on_where_the_device_is(rt: HostRuntime) {
    let mut device = Balloon::new(rt.alloc()).ok().expect(&rt, "memory");
    let mut guest = guest();
    begin(&mut device, STATS_VQ);
    store(&mut device, ACTUAL, 3);
    assert_eq!(rt;
        offer(&mut device, &mut guest, 2, 0, &[0; 10]),
        Served::Idle
    );
    assert_eq!(rt; ask(&mut device, 6), None);
    let mut copy = device.copy(rt.alloc()).ok().expect(&rt, "memory");
    guest.forget();
    assert_eq!(rt; copy.serve(&mut guest), Served::Idle);
    assert_eq!(rt; guest.asked.len(), 5);
    assert_eq!(rt; load(&mut copy, ACTUAL), 3);
    assert_eq!(rt; ask(&mut copy, 9), Some((9, 6, 6)));
}
