//! Tags, and who gets which answer.

use crate::{Landed, Proxy, heard_in, item_in, item_message, verdict_message};
use std::process::Abort;
use std::test::Fail;
use tv_base::{Access, HartNo, LineNo, Width};
use tv_items::{Bytes, Heard, Item, Stats, Verdict};
use tv_wire::Msg;

const LOAD: Access = Access::Load {
    width: Width::B8,
    off: 0x10,
};

fn hart(rt: &impl Abort, number: u8) -> HartNo {
    HartNo::new(number).expect(rt, "a hart")
}

fn line(rt: &impl Abort, number: u8) -> LineNo {
    LineNo::new(number).expect(rt, "a line")
}

/// The message of an access; `None` where the hart waits.
fn issued(proxy: &mut Proxy, hart: HartNo, access: &Access) -> Option<Msg> {
    if proxy.made() == u32::MAX || proxy.hart_waits(hart).is_some() {
        return None;
    }
    Some(proxy.issue(hart, access))
}

/// The message of a command; `None` where the line waits.
fn commanded(proxy: &mut Proxy, line: LineNo, pages: u32) -> Option<Msg> {
    if proxy.made() == u32::MAX || proxy.line_waits(line).is_some() {
        return None;
    }
    Some(proxy.command(line, &Item::Target { pages }))
}

#[test]
fn the_tag_of_an_item_is_the_number_of_items_before_it(rt: HostRuntime) -> Result<(), Fail> {
    let mut proxy = Proxy::new();
    let store = Access::Store {
        width: Width::B1,
        off: 3,
        value: 0x1ff,
    };
    for tag in 0..6u32 {
        let posted = issued(&mut proxy, hart(&rt, 7), &store);
        assert!(rt;
            matches!(posted, Some(Msg::Store { tag: found, width: Width::B1, off: 3, value: 0xff }) if found == tag)
        );
    }
    let asked = issued(&mut proxy, hart(&rt, 7), &LOAD);
    assert!(rt;
        matches!(
            asked,
            Some(Msg::Load {
                tag: 6,
                width: Width::B8,
                off: 0x10
            })
        )
    );
    let commanded = commanded(&mut proxy, line(&rt, 3), 9);
    assert!(rt; matches!(commanded, Some(Msg::Target { tag: 7, pages: 9 })));
    assert!(rt; issued(&mut proxy, hart(&rt, 7), &store).is_none());
    assert_eq!(rt; proxy.made(), 8);
    assert_eq!(rt;
        (
            proxy.hart_waits(hart(&rt, 7)),
            proxy.line_waits(line(&rt, 3))
        ),
        (Some(6), Some(7))
    );
    Ok(())
}

/// The hart that a value reached, with the value.
fn reached(proxy: &mut Proxy, tag: u32, value: u64) -> Option<(u8, u64)> {
    let msg = Msg::Value { tag, value };
    if !proxy.may_accept(&msg) {
        return None;
    }
    match proxy.accept(&msg)? {
        Landed::Hart(hart, value) => Some((hart.get(), value)),
        Landed::Line(..) => None,
    }
}

/// The line that a verdict reached, with its tag and its status.
fn decided(proxy: &mut Proxy, verdict: &Verdict) -> Option<(u8, u32, u8)> {
    let msg = verdict_message(verdict);
    if !proxy.may_accept(&msg) {
        return None;
    }
    match proxy.accept(&msg)? {
        Landed::Line(line, verdict) => Some((line.get(), verdict.tag, verdict.status)),
        Landed::Hart(..) => None,
    }
}

#[test]
fn an_answer_reaches_the_one_that_waits_for_its_tag_and_once(rt: HostRuntime) -> Result<(), Fail> {
    let mut proxy = Proxy::new();
    assert!(rt; issued(&mut proxy, hart(&rt, 0), &LOAD).is_some());
    assert!(rt; issued(&mut proxy, hart(&rt, 1), &LOAD).is_some());
    assert!(rt; commanded(&mut proxy, line(&rt, 1), 5).is_some());
    assert!(rt; commanded(&mut proxy, line(&rt, 0), 6).is_some());
    assert!(rt; commanded(&mut proxy, line(&rt, 0), 7).is_none());
    let verdict = |tag| Verdict {
        tag,
        status: 6,
        other: 2,
        stats: Stats::new(),
    };
    assert_eq!(rt; reached(&mut proxy, 4, 1), None);
    assert_eq!(rt; reached(&mut proxy, 1, 0x33), Some((1, 0x33)));
    assert_eq!(rt; reached(&mut proxy, 1, 0x34), None);
    assert_eq!(rt; decided(&mut proxy, &verdict(3)), Some((0, 3, 6)));
    assert_eq!(rt; decided(&mut proxy, &verdict(4)), None);
    assert_eq!(rt; reached(&mut proxy, 0, 1), Some((0, 1)));
    assert_eq!(rt; decided(&mut proxy, &verdict(2)), Some((1, 2, 6)));
    assert_eq!(rt; decided(&mut proxy, &verdict(2)), None);
    // a hart asks again, and gets the answer to that
    assert!(rt; issued(&mut proxy, hart(&rt, 1), &LOAD).is_some());
    assert_eq!(rt; reached(&mut proxy, 1, 0), None);
    assert_eq!(rt; reached(&mut proxy, 4, 7), Some((1, 7)));
    Ok(())
}

#[test]
fn what_a_line_gets_is_the_whole_verdict(rt: HostRuntime) -> Result<(), Fail> {
    let mut proxy = Proxy::new();
    assert!(rt; commanded(&mut proxy, line(&rt, 2), 5).is_some());
    let mut stats = Stats::new();
    assert!(rt; stats.push(4, 1000) && stats.push(0, 3));
    let msg = verdict_message(&Verdict {
        tag: 0,
        status: 0,
        other: 0,
        stats,
    });
    assert!(rt; proxy.may_accept(&msg));
    let Some(landed) = proxy.accept(&msg) else {
        return Err(Fail::from("nobody waits"));
    };
    match landed {
        Landed::Line(line, verdict) => {
            assert_eq!(rt; (line.get(), verdict.status, verdict.other), (2, 0, 0));
            assert_eq!(rt; verdict.stats.as_slice().len(), 2);
            assert_eq!(rt; verdict.stats.as_slice()[1], (0, 3));
        }
        Landed::Hart(..) => return Err(Fail::from("a hart")),
    }
    Ok(())
}

#[test]
fn a_store_keeps_the_bytes_of_its_width(rt: HostRuntime) -> Result<(), Fail> {
    for (width, kept) in [
        (Width::B1, 0xef),
        (Width::B2, 0xcdef),
        (Width::B4, 0x89ab_cdef),
        (Width::B8, 0x0123_4567_89ab_cdef),
    ] {
        let access = Access::Store {
            width,
            off: 0xff8,
            value: 0x0123_4567_89ab_cdef,
        };
        let msg = issued(&mut Proxy::new(), HartNo::FIRST, &access);
        assert!(rt;
            matches!(msg, Some(Msg::Store { tag: 0, width: found, off: 0xff8, value }) if found == width && value == kept)
        );
    }
    Ok(())
}

#[test]
fn items_come_back_from_their_messages(rt: HostRuntime) -> Result<(), Fail> {
    for (tag, item) in [
        (
            0,
            Item::Load {
                width: Width::B2,
                off: 6,
            },
        ),
        (
            1,
            Item::Store {
                width: Width::B4,
                off: 8,
                value: 9,
            },
        ),
        (2, Item::Target { pages: 7 }),
        (3, Item::Stats),
        (u32::MAX, Item::Resize { sectors: 1 }),
    ] {
        assert_eq!(rt; item_in(&item_message(tag, &item)), Some((tag, item)));
    }
    for msg in [Msg::Value { tag: 1, value: 2 }, Msg::Raise { tag: 3 }] {
        assert!(rt; item_in(&msg).is_none());
        assert!(rt; heard_in(msg).is_none());
    }
    Ok(())
}

#[test]
fn replies_say_what_is_heard(rt: HostRuntime) -> Result<(), Fail> {
    let tag = 5;
    for msg in [Msg::MemDone { tag }, Msg::IrqDone { tag }] {
        assert!(rt; matches!(heard_in(msg), Some(Heard::Done)));
    }
    for msg in [Msg::MemRefused { tag }, Msg::IrqRefused { tag }] {
        assert!(rt; matches!(heard_in(msg), Some(Heard::Refused)));
    }
    let read = Msg::Bytes {
        tag,
        bytes: Bytes::of(&[1, 2, 3]),
    };
    match heard_in(read) {
        Some(Heard::Bytes(bytes)) => assert_eq!(rt; bytes.as_slice(), [1, 2, 3].as_slice()),
        _ => return Err(Fail::from("no bytes")),
    }
    Ok(())
}
