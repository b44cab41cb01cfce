//! Buffers at their ends, and who does each action.

use crate::{Action, Bytes, STATS, Stats, Way};
use tv_base::PIECE_BYTES;

#[test]
fn bytes_end_at_their_bound(rt: HostRuntime) {
    let mut bytes = Bytes::new();
    for i in 0..PIECE_BYTES {
        let added = bytes.push((i % 251) as u8);
        assert!(rt; added);
    }
    assert!(rt; !bytes.push(7));
    let copy = bytes.copy();
    assert_eq!(rt; copy.as_slice().len(), 4096);
    assert_eq!(rt; copy.as_slice()[4095], 79);
}

#[test]
fn stats_end_at_their_bound(rt: HostRuntime) {
    let mut stats = Stats::new();
    for tag in 0..STATS {
        let added = stats.push(tag as u16, 10);
        assert!(rt; added);
    }
    assert!(rt; !stats.push(32, 11));
    let copy = stats.copy();
    assert_eq!(rt; copy.as_slice().len(), 32);
    assert_eq!(rt; copy.as_slice()[31], (31, 10));
}

#[test]
fn each_action_has_its_way(rt: HostRuntime) {
    let table = [
        (Action::Read { addr: 0, len: 1 }, Way::Memory),
        (
            Action::Write {
                addr: 0,
                bytes: Bytes::of(&[1]),
            },
            Way::Memory,
        ),
        (
            Action::Release {
                page: 0,
                hold: true,
            },
            Way::Memory,
        ),
        (Action::Regain { page: 0 }, Way::Memory),
        (Action::Raise, Way::Interrupt),
        (Action::DiskRead { sector: 0 }, Way::Outside),
        (
            Action::DiskWrite {
                sector: 0,
                bytes: Bytes::of(&[0; 512]),
            },
            Way::Outside,
        ),
        (Action::Flush, Way::Outside),
        (Action::SetLen { sectors: 8 }, Way::Outside),
        (
            Action::Put {
                bytes: Bytes::of(&[1]),
            },
            Way::Outside,
        ),
        (Action::Input { most: 1 }, Way::Outside),
        (Action::Random { len: 1 }, Way::Outside),
    ];
    for (action, way) in &table {
        assert_eq!(rt; action.way(), *way);
        assert_eq!(rt; action.copy().way(), *way);
    }
}
