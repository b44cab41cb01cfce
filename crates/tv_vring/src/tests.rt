//! Queues in a list of bytes: the faults of a driver, what is asked for of a chain, and what comes back to the driver.

ghost use Rattle.std.specs.Prelude.{◌≤◌, ◌<◌};
ghost use Rattle.tv_virtio.specs.Queue.{IsServable};

use crate::guest::{AVAILABLE, Asked, BUFFERS, DESCRIPTORS, Guest, USED};
use crate::{QueueFault, QueueRegs, QueueStop, Taken, Vring};
use tv_base::QUEUE_SIZE;

const NEXT: u16 = 1;

const WRITE: u16 = 2;

const INDIRECT: u16 = 4;

/// A queue of so many descriptors.
fn queue(size: u16) -> QueueRegs
    requires some { 0 < size }
    requires most { size ≤ QUEUE_SIZE }
    ensures { IsServable result }
{
    QueueRegs {
        number: 1,
        size,
        desc: DESCRIPTORS,
        driver: AVAILABLE,
        device: USED,
    }
}

fn take(ring: &mut Vring, queue: &QueueRegs, guest: &mut Guest) -> Result<Taken, QueueStop>
    requires { IsServable queue.now }
{
    ring.take(queue, guest)
}

/// Takes a chain, answers it with at most 8192 bytes of 0x5A, and gives it back.
fn serve(
    ring: &mut Vring,
    queue: &QueueRegs,
    guest: &mut Guest,
    len: u32,
) -> Result<bool, QueueStop>
    requires { IsServable queue.now }
{
    let taken = ring.take(queue, guest)?;
    let len = len.min(taken.writable).min(8192);
    let bytes = [0x5a; 8192];
    ring.answer(&bytes[..len as usize]);
    ring.give(queue, guest, taken.head, len)
}

/// Four descriptors of the table, from the first one on.
type Table = [(u64, u32, u16, u16); 4];

#[test]
fn each_fault_is_found_first(rt: HostRuntime) {
    let none = (0, 0, 0, 0);
    let plain = (BUFFERS, 4, NEXT, 1);
    let rows: [(Table, u16, u16, QueueFault, u16, usize); 13] = [
        ([none; 4], 9, 0, QueueFault::Ahead, 9, 1),
        ([none; 4], 8, 8, QueueFault::Head, 8, 2),
        (
            [(BUFFERS, 4, INDIRECT, 0), none, none, none],
            1,
            0,
            QueueFault::Indirect,
            0,
            3,
        ),
        (
            [
                (BUFFERS, 4, NEXT | WRITE, 1),
                (BUFFERS, 4, INDIRECT, 0),
                none,
                none,
            ],
            1,
            0,
            QueueFault::Indirect,
            1,
            4,
        ),
        (
            [
                (BUFFERS, 4, NEXT | WRITE, 1),
                (BUFFERS, 1_052_673, 0, 0),
                none,
                none,
            ],
            1,
            0,
            QueueFault::Order,
            1,
            4,
        ),
        (
            [
                (BUFFERS, 0, NEXT | WRITE, 1),
                (BUFFERS, 0, 0, 0),
                none,
                none,
            ],
            1,
            0,
            QueueFault::Order,
            1,
            4,
        ),
        (
            [(BUFFERS, 1_052_673, WRITE | NEXT, 9), none, none, none],
            1,
            0,
            QueueFault::Long,
            0,
            3,
        ),
        (
            [
                (BUFFERS, 1_052_672, WRITE | NEXT, 1),
                (BUFFERS, 1, WRITE, 0),
                none,
                none,
            ],
            1,
            0,
            QueueFault::Long,
            1,
            4,
        ),
        (
            [
                (BUFFERS, 1_052_672, NEXT, 1),
                (BUFFERS, 0xffff_ffff, 0, 0),
                none,
                none,
            ],
            1,
            0,
            QueueFault::Long,
            1,
            4,
        ),
        (
            [plain, (BUFFERS, 4, NEXT, 2), (BUFFERS, 4, NEXT, 2), none],
            1,
            0,
            QueueFault::Loop,
            2,
            10,
        ),
        (
            [(BUFFERS, 4, NEXT, 0), none, none, none],
            8,
            0,
            QueueFault::Loop,
            0,
            10,
        ),
        (
            [(BUFFERS, 4, NEXT, 8), none, none, none],
            1,
            0,
            QueueFault::Next,
            0,
            3,
        ),
        (
            [
                plain,
                (BUFFERS, 4, NEXT, 2),
                (BUFFERS, 4, NEXT, 3),
                (BUFFERS, 4, NEXT | 0xfff8, 0xffff),
            ],
            1,
            0,
            QueueFault::Next,
            3,
            6,
        ),
    ];
    for (table, index, head, fault, number, reads) in &rows {
        let mut ring = Vring::new(rt.alloc()).ok().expect(&rt, "memory");
        let mut guest = Guest::new();
        for (i, (addr, len, flags, next)) in table.iter().enumerate() {
            guest.describe(i as u16, *addr, *len, *flags, *next);
        }
        guest.offer(0, *head, *index);
        let taken = take(&mut ring, &queue(8), &mut guest);
        assert_eq!(rt; taken, Err(QueueStop::Malformed(*fault, *number)));
        assert_eq!(rt; guest.asked.len(), *reads);
    }
}

fn read(addr: u64, len: usize) -> Asked {
    Asked {
        writes: false,
        addr,
        len,
    }
}

fn write(addr: u64, len: usize) -> Asked {
    Asked {
        writes: true,
        addr,
        len,
    }
}

#[test]
fn a_chain_is_asked_for_in_pieces(rt: HostRuntime) {
    let mut ring = Vring::new(rt.alloc()).ok().expect(&rt, "memory");
    let mut guest = Guest::new();
    guest.describe(7, BUFFERS, 4097, NEXT, 0);
    guest.describe(0, 0xffff_ffff_ffff_ffff, 0, NEXT, 3);
    guest.describe(3, 0x10, 2, NEXT, 4);
    guest.describe(4, BUFFERS, 4097, NEXT | WRITE, 5);
    guest.describe(5, 0x20, 100, WRITE, 0);
    guest.offer(0, 7, 1);
    let stored = guest.store(BUFFERS + 4096, &[0x11]) && guest.store(0x10, &[0x22, 0x33]);
    assert!(rt; stored);
    let queue = queue(8);
    let taken = take(&mut ring, &queue, &mut guest);
    assert_eq!(rt;
        taken,
        Ok(Taken {
            head: 7,
            writable: 4197
        })
    );
    assert_eq!(rt; ring.readable().len(), 4099);
    assert_eq!(rt; &ring.readable()[4095..], &[0, 0x11, 0x22, 0x33][..]);
    ring.keep();

    guest.asked.clear();
    assert_eq!(rt; serve(&mut ring, &queue, &mut guest, 4100), Ok(true));
    let expected = [
        read(AVAILABLE + 2, 2),
        read(AVAILABLE + 4, 2),
        read(DESCRIPTORS + 16 * 7, 16),
        read(DESCRIPTORS, 16),
        read(DESCRIPTORS + 16 * 3, 16),
        read(DESCRIPTORS + 16 * 4, 16),
        read(DESCRIPTORS + 16 * 5, 16),
        read(BUFFERS, 4096),
        read(BUFFERS + 4096, 1),
        read(0x10, 2),
        write(BUFFERS, 4096),
        write(BUFFERS + 4096, 1),
        write(0x20, 3),
        write(USED + 4, 8),
        write(USED + 2, 2),
        read(AVAILABLE, 2),
    ];
    assert_eq!(rt; &guest.asked[..], &expected[..]);
    assert_eq!(rt; guest.load(0x1f, 5), &[0, 0x5a, 0x5a, 0x5a, 0][..]);
    assert_eq!(rt;
        guest.load(USED, 12),
        &[0, 0, 1, 0, 7, 0, 0, 0, 0x04, 0x10, 0, 0][..]
    );
    assert_eq!(rt; take(&mut ring, &queue, &mut guest), Err(QueueStop::Empty));
}

#[test]
fn each_refusal_and_each_end_stops_a_round(rt: HostRuntime) {
    let lost = 0x1_0000;
    let rows = [
        (AVAILABLE, DESCRIPTORS, USED, BUFFERS, BUFFERS, Ok(false)),
        (
            lost,
            DESCRIPTORS,
            USED,
            BUFFERS,
            BUFFERS,
            Err(QueueStop::Refused),
        ),
        (
            AVAILABLE,
            lost,
            USED,
            BUFFERS,
            BUFFERS,
            Err(QueueStop::Refused),
        ),
        (
            AVAILABLE,
            DESCRIPTORS,
            lost,
            BUFFERS,
            BUFFERS,
            Err(QueueStop::Refused),
        ),
        (
            AVAILABLE,
            DESCRIPTORS,
            USED,
            lost,
            BUFFERS,
            Err(QueueStop::Refused),
        ),
        (
            AVAILABLE,
            DESCRIPTORS,
            USED,
            BUFFERS,
            lost,
            Err(QueueStop::Refused),
        ),
    ];
    for (driver, desc, device, readable, writable, end) in &rows {
        let queue = QueueRegs {
            number: 2,
            size: 2,
            desc: *desc,
            driver: *driver,
            device: *device,
        };
        let mut ring = Vring::new(rt.alloc()).ok().expect(&rt, "memory");
        let mut guest = Guest::new();
        let _ = guest.store(AVAILABLE, &[1, 0]);
        guest.describe(0, *readable, 1, NEXT, 1);
        guest.describe(1, *writable, 1, WRITE, 0);
        guest.offer(0, 0, 1);
        for _ in 0..2 {
            ring.fresh(2);
            assert_eq!(rt; serve(&mut ring, &queue, &mut guest, 1), *end);
        }
    }
    for left in 0..10 {
        let mut ring = Vring::new(rt.alloc()).ok().expect(&rt, "memory");
        let mut guest = Guest::new();
        guest.describe(0, BUFFERS, 1, NEXT, 1);
        guest.describe(1, BUFFERS, 1, WRITE, 0);
        guest.offer(0, 0, 1);
        guest.left = left;
        let end = serve(&mut ring, &queue(2), &mut guest, 1);
        assert_eq!(rt;
            end,
            if left < 9 {
                Err(QueueStop::Ended)
            } else {
                Ok(true)
            }
        );
    }
}

#[test]
fn indices_wrap_at_65535(rt: HostRuntime) {
    let mut ring = Vring::new(rt.alloc()).ok().expect(&rt, "memory");
    let mut guest = Guest::new();
    let queue = queue(8);
    guest.describe(5, BUFFERS, 0, 0, 0);
    for place in 0..8 {
        guest.offer(place, 5, 0);
    }
    for index in 0..65535u16 {
        guest.offer(index % 8, 5, index + 1);
        guest.left = 100;
        let wanted = serve(&mut ring, &queue, &mut guest, 0);
        assert!(rt; wanted == Ok(true));
    }
    guest.offer(7, 5, 8);
    assert_eq!(rt;
        take(&mut ring, &queue, &mut guest),
        Err(QueueStop::Malformed(QueueFault::Ahead, 8))
    );
    guest.offer(7, 6, 0);
    guest.describe(6, BUFFERS, 3, WRITE, 0);
    guest.asked.clear();
    let copy = ring.copy(rt.alloc()).ok().expect(&rt, "memory");
    for mut ring in [ring, copy] {
        assert_eq!(rt; serve(&mut ring, &queue, &mut guest, 2), Ok(true));
        assert_eq!(rt; guest.load(USED + 2, 2), &[0, 0][..]);
        assert_eq!(rt;
            guest.load(USED + 4 + 8 * 7, 8),
            &[6, 0, 0, 0, 2, 0, 0, 0][..]
        );
        assert_eq!(rt; take(&mut ring, &queue, &mut guest), Err(QueueStop::Empty));
    }
    assert_eq!(rt;
        guest.asked.get(1).copied(),
        Some(read(AVAILABLE + 4 + 2 * 7, 2))
    );
}

#[test]
fn a_chain_of_256_descriptors_costs_as_many_reads(rt: HostRuntime) {
    let mut ring = Vring::new(rt.alloc()).ok().expect(&rt, "memory");
    let mut guest = Guest::new();
    for n in 0..255 {
        guest.describe(n, BUFFERS, 0, NEXT, n + 1);
    }
    guest.describe(255, BUFFERS, 7, WRITE, 0);
    guest.offer(0, 0, 1);
    let taken = take(&mut ring, &queue(256), &mut guest);
    assert_eq!(rt;
        taken,
        Ok(Taken {
            head: 0,
            writable: 7
        })
    );
    assert_eq!(rt; guest.asked.len(), 2 + 256);
    assert_eq!(rt; guest.asked[257], read(DESCRIPTORS + 16 * 255, 16));
}
