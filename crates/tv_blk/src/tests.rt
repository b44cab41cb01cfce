//! The block device, with a driver that puts requests into a list of bytes and looks at what comes back.

use crate::Block;
use std::alloc::Global;
use std::process::Abort;
use tv_base::{DevNo, Width};
use tv_driver::{
    AVAILABLE, Asked, BUFFERS, DESCRIPTORS, DRIVER_OK, Guest, INTERRUPT_STATUS, NEXT, NOTIFY,
    Outside, STATUS, Told, USED, WRITE, load, set_up, store,
};
use tv_port::{Action, Device, Item, Served, next_after};

/// The offset of ConfigGeneration.
const GENERATION: u16 = 0xfc;
/// The offset of the capacity.
const CAPACITY: u16 = 0x100;
/// The feature of requests to flush.
const FLUSH: u64 = 0x200;
/// Where a request lies.
const REQUEST: u64 = BUFFERS;
/// Where its reply goes to.
const REPLY: u64 = BUFFERS + 0x2000;
/// What a byte there was before.
const OLD: u8 = 0xaa;
/// What a byte is that a request writes to the disk.
const NEW: u8 = 0x77;

/// A driver's device and its memory.
#[derive(Drop)]
struct Driver {
    device: Block,
    guest: Guest,
    /// How many requests were made.
    index: u16,
}

impl Driver {
    /// A disk in slot 3, each byte of its sector n is n + 1. The device is set up, and its driver ready.
    fn new(sectors: u32, readonly: bool, alloc: Global) -> Option<Driver> {
        let slot = DevNo::new(3)?;
        let mut device = Block::new(slot, sectors.min(8), readonly, alloc).ok()?;
        set_up(&mut device, FLUSH, 1);
        store(&mut device, STATUS, DRIVER_OK);
        let mut outside = Outside::new(sectors, 0);
        let mut at = 0usize;
        for byte in &mut outside.disk[..] {
            *byte = (at / 512 % 256) as u8;
            *byte = byte.wrapping_add(1);
            at = at.wrapping_add(1);
        }
        Some(Driver {
            device,
            guest: Guest::new(outside),
            index: 0,
        })
    }

    /// Makes the request of a type on a sector, followed by so many bytes to be written, and with so many for its reply.
    fn request(&mut self, kind: u32, sector: u64, bytes: u32, writable: u32) -> Served {
        let guest = &mut self.guest;
        let _ = guest.store(REQUEST, &kind.to_le_bytes());
        let _ = guest.store(REQUEST + 4, &[9; 4]);
        let _ = guest.store(REQUEST + 8, &sector.to_le_bytes());
        let _ = guest.store(REQUEST + 16, &[NEW; 0x1000]);
        let _ = guest.store(REPLY, &[OLD; 0x1000]);
        guest.describe(0, 0, REQUEST, bytes.wrapping_add(16), NEXT, 1);
        guest.describe(0, 1, REPLY, writable, WRITE, 0);
        self.serve()
    }

    /// Offers the chain at descriptor 0, and notifies the device.
    fn serve(&mut self) -> Served {
        let place = self.index % 8;
        self.index = self.index.wrapping_add(1);
        self.guest.offer(0, place, 0, self.index);
        self.guest.forget();
        store(&mut self.device, NOTIFY, 0);
        self.device.serve(&mut self.guest)
    }

    /// Whether the last chain was used with so many bytes: a content of this byte and a status, and nothing behind it.
    fn has_reply(&self, writable: u32, content: u8, status: u8) -> bool {
        let len = writable as usize;
        let mut is_right = self.has_used(writable);
        let mut at = 1usize;
        for byte in self.guest.load(REPLY, 0x1000) {
            let expected = if at < len {
                content
            } else if at == len {
                status
            } else {
                OLD
            };
            is_right = is_right && *byte == expected;
            at = at.wrapping_add(1);
        }
        is_right
    }

    /// Whether the last chain was used with so many bytes.
    fn has_used(&self, written: u32) -> bool {
        let place = self.index.wrapping_sub(1) % 8;
        let element = USED + 4 + 8 * u64::from(place);
        self.guest.load(USED + 2, 2) == &self.index.to_le_bytes()[..]
            && self.guest.load(element, 4) == &[0; 4][..]
            && self.guest.load(element + 4, 4) == &written.to_le_bytes()[..]
    }

    /// How many actions on the disk were asked for.
    fn disk_actions(&self) -> u32 {
        let mut count = 0u32;
        for asked in self.guest.asked.iter() {
            match asked {
                Asked::DiskRead(_) | Asked::DiskWrite(_) | Asked::Flush => {
                    count = count.wrapping_add(1);
                }
                _ => {}
            }
        }
        count
    }
}

/// All actions of the first request's service, where these four are those from its readable bytes to its written ones.
fn actions(request: [Asked; 4]) -> [Asked; 13] {
    let index = Asked::Read {
        addr: AVAILABLE + 2,
        len: 2,
    };
    let [readable, first, second, written] = request;
    [
        index,
        Asked::Read {
            addr: AVAILABLE + 4,
            len: 2,
        },
        Asked::Read {
            addr: DESCRIPTORS,
            len: 16,
        },
        Asked::Read {
            addr: DESCRIPTORS + 16,
            len: 16,
        },
        readable,
        first,
        second,
        written,
        Asked::Write {
            addr: USED + 4,
            len: 8,
        },
        Asked::Write {
            addr: USED + 2,
            len: 2,
        },
        Asked::Read {
            addr: AVAILABLE,
            len: 2,
        },
        Asked::Raise,
        index,
    ]
}

#[test]
fn the_actions_of_a_read(rt: HostRuntime) {
    let mut driver = Driver::new(2, false, rt.alloc()).expect(&rt, "memory");
    assert_eq!(rt; driver.request(0, 0, 0, 1025), Served::Idle);
    let expected = actions([
        Asked::Read {
            addr: REQUEST,
            len: 16,
        },
        Asked::DiskRead(0),
        Asked::DiskRead(1),
        Asked::Write {
            addr: REPLY,
            len: 1025,
        },
    ]);
    assert_eq!(rt; &driver.guest.asked[..], &expected[..]);
    assert!(rt; driver.has_used(1025));
    assert_eq!(rt; driver.guest.load(REPLY, 512), &[1; 512][..]);
    assert_eq!(rt; driver.guest.load(REPLY + 512, 512), &[2; 512][..]);
    assert_eq!(rt; driver.guest.load(REPLY + 1024, 2), &[0, OLD][..]);
}

#[test]
fn the_actions_of_a_write(rt: HostRuntime) {
    let mut driver = Driver::new(2, false, rt.alloc()).expect(&rt, "memory");
    assert_eq!(rt; driver.request(1, 0, 1024, 1), Served::Idle);
    let expected = actions([
        Asked::Read {
            addr: REQUEST,
            len: 1040,
        },
        Asked::DiskWrite(0),
        Asked::DiskWrite(1),
        Asked::Write {
            addr: REPLY,
            len: 1,
        },
    ]);
    assert_eq!(rt; &driver.guest.asked[..], &expected[..]);
    assert!(rt; driver.has_reply(1, 0, 0));
    assert_eq!(rt; &driver.guest.outside.disk[..1024], &[NEW; 1024][..]);
    assert_eq!(rt; &driver.guest.outside.disk[1024..1026], &[3, 3][..]);
}

#[test]
fn each_request_has_its_status_and_content(rt: HostRuntime) {
    // the type, the sector, how many bytes are to be written, how many the reply has, the byte of its content, its status,
    // and how many actions on the disk there are
    let far = 0xffff_ffff_ffff_ffff;
    let rows: [(u32, u64, u32, u32, u8, u8, u32); 20] = [
        (0, 0, 0, 513, 1, 0, 1),
        (0, 1, 0, 513, 2, 0, 1),
        (0, 2, 0, 513, 0, 1, 0),
        (0, 1, 0, 1025, 0, 1, 0),
        (0, 0, 0, 1, 0, 0, 0),
        (0, far, 0, 1, 0, 0, 0),
        (0, far, 0, 513, 0, 1, 0),
        (0, 0x1_0000_0000, 0, 513, 0, 1, 0),
        (0, 0, 0, 512, 0, 1, 0),
        (0, 0, 0, 514, 0, 1, 0),
        (3, 0, 0, 513, 0, 2, 0),
        (0x1_0000, 0, 512, 1, 0, 2, 0),
        (4, 0, 0, 1, 0, 0, 1),
        (4, 9, 512, 513, 0, 0, 1),
        (1, far, 0, 1, 0, 0, 0),
        (1, 0, 513, 1, 0, 1, 0),
        (1, 1, 1024, 1, 0, 1, 0),
        (1, 2, 512, 1, 0, 1, 0),
        (1, 1, 512, 100, 0, 0, 1),
        (0, 1, 0, 513, NEW, 0, 1),
    ];
    let mut driver = Driver::new(2, false, rt.alloc()).expect(&rt, "memory");
    for (kind, sector, bytes, writable, content, status, actions) in rows {
        assert_eq!(rt; driver.request(kind, sector, bytes, writable), Served::Idle);
        assert!(rt; driver.has_reply(writable, content, status));
        assert_eq!(rt; driver.disk_actions(), actions);
    }
}

#[test]
fn the_name_of_a_disk(rt: HostRuntime) {
    let mut driver = Driver::new(2, false, rt.alloc()).expect(&rt, "memory");
    let rows: [(u32, [u8; 12]); 3] = [
        (1, *b"\0\xaa\xaa\xaa\xaa\xaa\xaa\xaa\xaa\xaa\xaa\xaa"),
        (6, *b"tv-bl\0\xaa\xaa\xaa\xaa\xaa\xaa"),
        (12, *b"tv-blk-3\0\0\0\0"),
    ];
    for (writable, reply) in rows {
        assert_eq!(rt; driver.request(8, 0, 0, writable), Served::Idle);
        assert!(rt; driver.has_used(writable));
        assert_eq!(rt; driver.guest.load(REPLY, 12), &reply[..]);
    }
}

#[test]
fn a_disk_that_can_only_be_read(rt: HostRuntime) {
    let mut driver = Driver::new(2, true, rt.alloc()).expect(&rt, "memory");
    store(&mut driver.device, 0x14, 0);
    assert_eq!(rt; load(&mut driver.device, 0x10), 0x220);
    for bytes in [0, 512] {
        assert_eq!(rt; driver.request(1, 0, bytes, 1), Served::Idle);
        assert!(rt; driver.has_reply(1, 0, 1));
        assert_eq!(rt; driver.disk_actions(), 0);
    }
    assert_eq!(rt; driver.request(0, 0, 0, 513), Served::Idle);
    assert!(rt; driver.has_reply(513, 1, 0));
}

#[test]
fn a_failed_action_is_the_last_of_its_request(rt: HostRuntime) {
    let mut driver = Driver::new(4, false, rt.alloc()).expect(&rt, "memory");
    driver.guest.outside.fails_after = Some(1);
    assert_eq!(rt; driver.request(0, 0, 0, 1537), Served::Idle);
    assert!(rt; driver.has_reply(1537, 0, 1));
    assert_eq!(rt; driver.disk_actions(), 2);

    driver.guest.outside.fails_after = Some(2);
    assert_eq!(rt; driver.request(1, 0, 2048, 1), Served::Idle);
    assert!(rt; driver.has_reply(1, 0, 1));
    assert_eq!(rt; driver.disk_actions(), 3);
    assert_eq!(rt; driver.guest.outside.disk[1023], NEW);
    assert_eq!(rt; driver.guest.outside.disk[1024], 3);
    assert_eq!(rt; driver.request(1, 2, 512, 1), Served::Idle);
    assert!(rt; driver.has_reply(1, 0, 0));
    assert_eq!(rt; driver.guest.outside.disk[1024], NEW);

    driver.guest.outside.fails_after = Some(0);
    assert_eq!(rt; driver.request(4, 0, 0, 1), Served::Idle);
    assert!(rt; driver.has_reply(1, 0, 1));
}

#[test]
fn a_chain_that_is_no_request_breaks_the_device(rt: HostRuntime) {
    // the bytes that the device reads, whether a buffer follows, the bytes that it writes to it, and how many actions there are
    for (readable, flags, writable, actions) in [
        (1, 0, 0, 5),
        (16, 0, 0, 5),
        (16, NEXT, 0, 6),
        (15, NEXT, 1, 6),
    ] {
        let mut driver = Driver::new(2, false, rt.alloc()).expect(&rt, "memory");
        driver.guest.describe(0, 0, REQUEST, readable, flags, 1);
        driver.guest.describe(0, 1, REPLY, writable, WRITE, 0);
        assert_eq!(rt; driver.serve(), Served::Idle);
        assert_eq!(rt; driver.disk_actions(), 0);
        assert_eq!(rt; driver.guest.asked.len(), actions);
        assert_eq!(rt; driver.guest.asked.last().copied(), Some(Asked::Raise));
        assert_eq!(rt; load(&mut driver.device, STATUS), 0x4f);
        assert_eq!(rt; load(&mut driver.device, INTERRUPT_STATUS), 2);
        assert_eq!(rt; driver.request(0, 0, 0, 513), Served::Idle);
        assert_eq!(rt; driver.guest.asked.len(), 0);
    }
}

#[test]
fn a_resize_changes_the_capacity_where_it_is_done(rt: HostRuntime) {
    // whether the driver is ready, whether the disk gets the new length, whether there is an interrupt; then how many
    // actions there are, the verdict, the capacity, ConfigGeneration, InterruptStatus and Status
    let rows = [
        (true, true, true, 2, 0, 4, 1, 2, 0x0f),
        (false, true, true, 1, 0, 4, 1, 2, 0x0b),
        (true, false, true, 1, 7, 2, 0, 0, 0x0f),
        (true, true, false, 2, 0, 4, 1, 2, 0x4f),
    ];
    for (
        is_ready,
        is_done,
        has_interrupt,
        actions,
        verdict,
        capacity,
        generation,
        bits,
        status,
    ) in rows {
        let mut driver = Driver::new(2, false, rt.alloc()).expect(&rt, "memory");
        if !is_ready {
            store(&mut driver.device, STATUS, 0);
            set_up(&mut driver.device, FLUSH, 1);
        }
        driver.guest.has_interrupt = has_interrupt;
        driver.guest.outside.fails_after = if is_done { None } else { Some(0) };
        let acted = driver.device.act(7, &Item::Resize { sectors: 4 });
        assert!(rt; acted.verdict.is_none());
        assert_eq!(rt; driver.device.serve(&mut driver.guest), Served::Idle);
        assert_eq!(rt; driver.guest.asked.len(), actions);
        assert_eq!(rt; driver.guest.asked.first().copied(), Some(Asked::SetLen(4)));
        let told = Told {
            after: 1,
            tag: 7,
            status: verdict,
            other: 0,
            sum: 0,
        };
        assert_eq!(rt; &driver.guest.told[..], &[told][..]);
        let (width, off) = (Width::B8, CAPACITY);
        let loaded = driver.device.act(0, &Item::Load { width, off }).value;
        assert_eq!(rt; loaded, capacity);
        assert_eq!(rt; load(&mut driver.device, GENERATION), generation);
        assert_eq!(rt; load(&mut driver.device, INTERRUPT_STATUS), bits);
        assert_eq!(rt; load(&mut driver.device, STATUS), status);
    }
}

#[test]
fn each_end_of_the_port_ends_a_service(rt: HostRuntime) {
    for left in 0..13 {
        let mut driver = Driver::new(2, false, rt.alloc()).expect(&rt, "memory");
        driver.guest.left = left;
        let served = driver.request(0, 0, 0, 513);
        assert_eq!(rt;
            served,
            if left < 12 {
                Served::Ended
            } else {
                Served::Idle
            }
        );
    }
}

#[test]
fn a_copy_goes_on_where_the_device_is(rt: HostRuntime) {
    let mut driver = Driver::new(2, false, rt.alloc()).expect(&rt, "memory");
    assert_eq!(rt; driver.request(0, 0, 0, 513), Served::Idle);
    store(&mut driver.device, NOTIFY, 0);
    let next = next_after(&driver.device, &[], rt.alloc())
        .ok()
        .expect(&rt, "memory");
    let is_index = match next {
        Some(Action::Read { addr, len: 2 }) => addr == AVAILABLE + 2,
        _ => false,
    };
    assert!(rt; is_index);
    driver.device = driver.device.copy(rt.alloc()).ok().expect(&rt, "memory");
    assert_eq!(rt; driver.request(0, 1, 0, 513), Served::Idle);
    assert!(rt; driver.has_reply(513, 2, 0));
}
