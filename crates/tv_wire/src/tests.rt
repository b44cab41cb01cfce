use super::{Msg, decode, encode};
use std::test::Fail;
use tv_base::Width;
use tv_items::{Bytes, Stats};
use tv_tube::PLACE_BYTES;

/// Whether these bytes are written for the message and are read as it, and neither a beginning of them nor they with a byte
/// behind them are read as any.
fn is_spelt(msg: &Msg, bytes: &[u8]) -> bool {
    let mut out = [0xee; PLACE_BYTES];
    let size = encode(msg, &mut out);
    if &out[..size] != bytes || out[size..].iter().any(|byte| *byte != 0xee) {
        return false;
    }
    for n in 0..size {
        if decode(&out[..n]).is_some() {
            return false;
        }
    }
    decode(&out[..size + 1]).is_none() && is_read_again(bytes)
}

/// Whether the bytes are read as a message for which the same bytes are written.
fn is_read_again(bytes: &[u8]) -> bool {
    let mut out = [0xee; PLACE_BYTES];
    match decode(bytes) {
        Some(msg) => {
            let size = encode(&msg, &mut out);
            &out[..size] == bytes
        }
        None => false,
    }
}

#[test]
fn posted_stores_a_load_and_its_value(rt: HostRuntime) -> Result<(), Fail> {
    let first = [16, 0, 2, 0, 0, 0, 0, 8, 0x10, 0, 0x11, 0, 0, 0, 0, 0, 0, 0];
    let second = [16, 0, 2, 1, 0, 0, 0, 8, 0x10, 0, 0x22, 0, 0, 0, 0, 0, 0, 0];
    let load = [8, 0, 1, 2, 0, 0, 0, 8, 0x10, 0];
    let reply = [13, 0, 3, 2, 0, 0, 0, 0x22, 0, 0, 0, 0, 0, 0, 0];
    let width = Width::B8;
    let off = 0x10;
    assert!(rt;
        is_spelt(
            &Msg::Store {
                tag: 0,
                width,
                off,
                value: 0x11
            },
            &first
        )
    );
    assert!(rt;
        is_spelt(
            &Msg::Store {
                tag: 1,
                width,
                off,
                value: 0x22
            },
            &second
        )
    );
    assert!(rt; is_spelt(&Msg::Load { tag: 2, width, off }, &load));
    assert!(rt;
        is_spelt(
            &Msg::Value {
                tag: 2,
                value: 0x22
            },
            &reply
        )
    );
    assert!(rt;
        matches!(
            decode(&first),
            Some(Msg::Store {
                tag: 0,
                width: Width::B8,
                off: 0x10,
                value: 0x11
            })
        )
    );
    assert!(rt;
        matches!(
            decode(&load),
            Some(Msg::Load {
                tag: 2,
                width: Width::B8,
                off: 0x10
            })
        )
    );
    assert!(rt;
        matches!(
            decode(&reply),
            Some(Msg::Value {
                tag: 2,
                value: 0x22
            })
        )
    );
    Ok(())
}

#[test]
fn the_other_kinds(rt: HostRuntime) -> Result<(), Fail> {
    let tag = 0x4030_2010;
    assert!(rt;
        is_spelt(
            &Msg::Target { tag, pages: 258 },
            &[9, 0, 4, 16, 32, 48, 64, 2, 1, 0, 0]
        )
    );
    assert!(rt; is_spelt(&Msg::Stats { tag }, &[5, 0, 5, 16, 32, 48, 64]));
    assert!(rt;
        is_spelt(
            &Msg::Resize { tag, sectors: 1 },
            &[9, 0, 6, 16, 32, 48, 64, 1, 0, 0, 0]
        )
    );
    assert!(rt;
        is_spelt(
            &Msg::Resize {
                tag,
                sectors: 0x8000_0000
            },
            &[9, 0, 6, 16, 32, 48, 64, 0, 0, 0, 128]
        )
    );
    assert!(rt;
        is_spelt(
            &Msg::Read {
                tag,
                addr: 0x8000_0001,
                len: 4096
            },
            &[15, 0, 8, 16, 32, 48, 64, 1, 0, 0, 128, 0, 0, 0, 0, 0, 16]
        )
    );
    assert!(rt;
        is_spelt(
            &Msg::Bytes {
                tag,
                bytes: Bytes::of(b"x")
            },
            &[8, 0, 9, 16, 32, 48, 64, 1, 0, b'x']
        )
    );
    assert!(rt;
        is_spelt(
            &Msg::Write {
                tag,
                addr: 5,
                bytes: Bytes::of(b"xy")
            },
            &[
                17, 0, 10, 16, 32, 48, 64, 5, 0, 0, 0, 0, 0, 0, 0, 2, 0, b'x', b'y'
            ]
        )
    );
    assert!(rt;
        is_spelt(
            &Msg::Release {
                tag,
                page: 0x8_0005,
                hold: true
            },
            &[10, 0, 11, 16, 32, 48, 64, 5, 0, 8, 0, 1]
        )
    );
    assert!(rt;
        is_spelt(
            &Msg::Release {
                tag,
                page: 0x8_0005,
                hold: false
            },
            &[10, 0, 11, 16, 32, 48, 64, 5, 0, 8, 0, 0]
        )
    );
    assert!(rt;
        is_spelt(
            &Msg::Regain {
                tag,
                page: 0x8_0005
            },
            &[9, 0, 12, 16, 32, 48, 64, 5, 0, 8, 0]
        )
    );
    assert!(rt; is_spelt(&Msg::MemDone { tag }, &[5, 0, 13, 16, 32, 48, 64]));
    assert!(rt; is_spelt(&Msg::MemRefused { tag }, &[5, 0, 14, 16, 32, 48, 64]));
    assert!(rt; is_spelt(&Msg::Raise { tag }, &[5, 0, 15, 16, 32, 48, 64]));
    assert!(rt; is_spelt(&Msg::IrqDone { tag }, &[5, 0, 16, 16, 32, 48, 64]));
    assert!(rt; is_spelt(&Msg::IrqRefused { tag }, &[5, 0, 17, 16, 32, 48, 64]));
    Ok(())
}

/// So many numbers: 4 with the tag 9, for each.
fn stats_of(count: u8) -> Stats {
    let mut stats = Stats::new();
    for _ in 0..count {
        stats.push(9, 4);
    }
    stats
}

/// The bytes of an answer with so many numbers, at the start of a longer array.
fn answer_bytes(status: u8, other: u8, count: u8) -> [u8; 343] {
    let mut bytes = [0; 343];
    let pairs = usize::from(count.min(33));
    let len = 11 + 10 * pairs;
    bytes[0] = (len % 256) as u8;
    bytes[1] = (len / 256) as u8;
    bytes[2] = 7;
    bytes[7] = status;
    bytes[8] = other;
    bytes[12] = count;
    for i in 0..pairs {
        bytes[13 + 10 * i] = 9;
        bytes[15 + 10 * i] = 4;
    }
    bytes
}

#[test]
fn answers_of_each_status_and_size(rt: HostRuntime) -> Result<(), Fail> {
    for count in [0, 1, 2, 31, 32] {
        let answer = Msg::Answer {
            tag: 0,
            status: 0,
            other: 0,
            stats: stats_of(count),
        };
        assert!(rt;
            is_spelt(
                &answer,
                &answer_bytes(0, 0, count)[..13 + 10 * usize::from(count)]
            ),
            "{count}"
        );
    }
    for (status, other) in [(5, 0), (6, 0), (6, 3), (7, 0)] {
        let answer = Msg::Answer {
            tag: 0,
            status,
            other: u32::from(other),
            stats: Stats::new(),
        };
        assert!(rt;
            is_spelt(&answer, &answer_bytes(status, other, 0)[..13]),
            "{status} {other}"
        );
    }
    assert!(rt; decode(&answer_bytes(0, 0, 33)).is_none());
    for (status, other, count) in [
        (0, 1, 0),
        (5, 1, 0),
        (7, 1, 0),
        (5, 0, 1),
        (6, 0, 1),
        (7, 0, 1),
        (1, 0, 0),
        (4, 0, 0),
        (8, 0, 0),
        (255, 0, 0),
    ] {
        let end = if count == 0 { 13 } else { 23 };
        assert!(rt;
            decode(&answer_bytes(status, other, count)[..end]).is_none(),
            "{status} {other} {count}"
        );
    }
    Ok(())
}

#[test]
fn pieces_of_each_size(rt: HostRuntime) -> Result<(), Fail> {
    let mut out = [0; PLACE_BYTES];
    for n in [1, 2, 255, 256, 4095, 4096] {
        let piece = [0x5a; 4096];
        let bytes = Msg::Bytes {
            tag: 1,
            bytes: Bytes::of(&piece[..n]),
        };
        assert_eq!(rt; encode(&bytes, &mut out), 9 + n);
        assert!(rt; is_read_again(&out[..9 + n]), "{n}");
        let write = Msg::Write {
            tag: 1,
            addr: 0,
            bytes: Bytes::of(&piece[..n]),
        };
        assert_eq!(rt; encode(&write, &mut out), 17 + n);
        assert!(rt; is_read_again(&out[..17 + n]), "{n}");
    }
    // No byte, and 4097 of them.
    assert!(rt; decode(&[7, 0, 9, 0, 0, 0, 0, 0, 0]).is_none());
    let mut long = [0; 4106];
    long[..9].copy_from_slice(&[8, 16, 9, 0, 0, 0, 0, 1, 16]);
    assert!(rt; decode(&long).is_none());
    Ok(())
}

#[test]
fn what_no_message_spells(rt: HostRuntime) -> Result<(), Fail> {
    for load in [
        // The length is one too small or too great, or there is no such kind.
        [7, 0, 1, 2, 1, 0, 0, 4, 0x70, 0],
        [9, 0, 1, 2, 1, 0, 0, 4, 0x70, 0],
        [8, 1, 1, 2, 1, 0, 0, 4, 0x70, 0],
        [8, 0, 0, 2, 1, 0, 0, 4, 0x70, 0],
        [8, 0, 18, 2, 1, 0, 0, 4, 0x70, 0],
        // No width, an offset that is no multiple of its width, and one beyond the registers.
        [8, 0, 1, 2, 1, 0, 0, 0, 0x70, 0],
        [8, 0, 1, 2, 1, 0, 0, 3, 0x70, 0],
        [8, 0, 1, 2, 1, 0, 0, 16, 0x70, 0],
        [8, 0, 1, 2, 1, 0, 0, 2, 0x71, 0],
        [8, 0, 1, 2, 1, 0, 0, 4, 0x72, 0],
        [8, 0, 1, 2, 1, 0, 0, 8, 0x74, 0],
        [8, 0, 1, 2, 1, 0, 0, 1, 0, 0x10],
        [8, 0, 1, 2, 1, 0, 0, 8, 0, 0x10],
    ] {
        assert!(rt; decode(&load).is_none(), "{load:?}");
    }
    // The last register of each width.
    for (width, off) in [(1, 0xff), (2, 0xfe), (4, 0xfc), (8, 0xf8)] {
        assert!(rt;
            is_read_again(&[8, 0, 1, 0, 0, 0, 0, width, off, 0x0f]),
            "{width}"
        );
    }
    // A bit above the width of a store, for each width, and the one below it.
    for (width, below, above) in [(1, 10, 11), (2, 11, 12), (4, 13, 14)] {
        let mut store = [16, 0, 2, 0, 0, 0, 0, width, 8, 0, 0, 0, 0, 0, 0, 0, 0, 0];
        store[below] = 0x80;
        assert!(rt; is_read_again(&store), "{width}");
        store[above] = 1;
        assert!(rt; decode(&store).is_none(), "{width}");
    }
    // No sector, and one sector more than a disk has; no byte of memory, and 4097.
    assert!(rt; decode(&[9, 0, 6, 0, 0, 0, 0, 0, 0, 0, 0]).is_none());
    assert!(rt; decode(&[9, 0, 6, 0, 0, 0, 0, 1, 0, 0, 128]).is_none());
    assert!(rt; decode(&[15, 0, 8, 0, 0, 0, 0, 0, 0, 0, 0, 0, 0, 0, 0, 0, 0]).is_none());
    assert!(rt; decode(&[15, 0, 8, 0, 0, 0, 0, 0, 0, 0, 0, 0, 0, 0, 0, 1, 16]).is_none());
    // A page that is neither kept nor withdrawn.
    assert!(rt; decode(&[10, 0, 11, 0, 0, 0, 0, 5, 0, 8, 0, 2]).is_none());
    Ok(())
}
