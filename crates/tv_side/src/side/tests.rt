//! One device, from the item to the answer.

use super::Side;
use std::alloc::Global;
use std::process::Abort;
use std::test::Fail;
use tv_base::{Access, HartNo, LineNo, Memory, Width};
use tv_items::{Action, Bytes, Heard, Item, Stats, Verdict, Way};
use tv_proxy::Landed;
use tv_wire::Msg;

fn hart(rt: &impl Abort, number: u8) -> HartNo {
    HartNo::new(number).expect(rt, "a hart")
}

/// Four places for harts.
fn small(alloc: Global) -> Result<Side, Memory> {
    Side::new(alloc, 4)
}

/// Whether a hart's access of 8 bytes at an offset below 256 was made.
fn stored(side: &mut Side, hart: HartNo, off: u8, value: u64) -> bool {
    let access = Access::Store {
        width: Width::B8,
        off: u16::from(off) * 8,
        value,
    };
    if side.is_full() || side.proxy.made() == u32::MAX || side.proxy.hart_waits(hart).is_some() {
        return false;
    }
    side.issue(hart, &access);
    true
}

fn loaded(side: &mut Side, hart: HartNo, off: u8) -> bool {
    let access = Access::Load {
        width: Width::B8,
        off: u16::from(off) * 8,
    };
    if side.is_full() || side.proxy.made() == u32::MAX || side.proxy.hart_waits(hart).is_some() {
        return false;
    }
    side.issue(hart, &access);
    true
}

fn resized(side: &mut Side, line: LineNo, sectors: u32) -> bool {
    if sectors == 0
        || sectors > 0x8000_0000
        || u32::from(side.items()) >= u32::from(side.tube) + 4
        || side.proxy.made() == u32::MAX
        || side.proxy.line_waits(line).is_some()
    {
        return false;
    }
    side.command(line, &Item::Resize { sectors });
    true
}

/// Whether a store at the offset 0x10 is the first item, and lay there as its bytes.
fn took_store(side: &mut Side, tag: u8, value: u8) -> bool {
    let store = Item::Store {
        width: Width::B8,
        off: 0x10,
        value: u64::from(value),
    };
    side.take() == Some((u32::from(tag), store))
        && side.buffer[..18]
            == [
                0x10, 0, 2, tag, 0, 0, 0, 8, 0x10, 0, value, 0, 0, 0, 0, 0, 0, 0,
            ]
}

/// Whether a load at the offset 0x10 is the first item, and lay there as its bytes.
fn took_load(side: &mut Side, tag: u8) -> bool {
    let load = Item::Load {
        width: Width::B8,
        off: 0x10,
    };
    side.take() == Some((u32::from(tag), load))
        && side.buffer[..10] == [8, 0, 1, tag, 0, 0, 0, 8, 0x10, 0]
}

#[test]
fn items_lie_in_the_command_tube_as_their_bytes(rt: HostRuntime) -> Result<(), Fail> {
    let mut side = small(rt.alloc())?;
    let zero = hart(&rt, 0);
    assert!(rt; stored(&mut side, zero, 2, 0x11));
    assert!(rt; stored(&mut side, zero, 2, 0x22));
    assert!(rt; loaded(&mut side, zero, 2));
    assert!(rt; !loaded(&mut side, zero, 2));
    assert_eq!(rt; side.items(), 3);
    assert!(rt; took_store(&mut side, 0, 0x11));
    assert!(rt; took_store(&mut side, 1, 0x22));
    assert!(rt; took_load(&mut side, 2));
    assert!(rt; side.take().is_none());
    assert_eq!(rt; side.items(), 0);
    Ok(())
}

#[test]
fn a_tube_that_is_full_for_harts_has_room_for_a_command_of_each_line(
    rt: HostRuntime,
) -> Result<(), Fail> {
    for tube in [1, 2, 256] {
        let mut side = Side::new(rt.alloc(), tube)?;
        for n in 0..tube {
            assert!(rt; !side.is_full());
            assert!(rt; stored(&mut side, hart(&rt, 7), 0, u64::from(n)));
        }
        assert!(rt; side.is_full());
        assert!(rt; !stored(&mut side, hart(&rt, 6), 0, 0));
        for number in 0..4u8 {
            let line = LineNo::new(number).expect(&rt, "a line");
            assert!(rt; resized(&mut side, line, 7));
            assert!(rt; !resized(&mut side, line, 7));
        }
        assert_eq!(rt; side.items(), tube + 4);
        assert_eq!(rt; side.proxy.made(), u32::from(tube) + 4);
    }
    Ok(())
}

/// The hart that a value reached, with the value; `None` where the hart does not wait for it.
fn reached(side: &mut Side, hart: HartNo, tag: u32, value: u64) -> Option<(u8, u64)> {
    if side.replies() != 0 || side.proxy.hart_waits(hart) != Some(tag) {
        return None;
    }
    side.put_value(tag, value);
    match side.land()? {
        Landed::Hart(hart, value) => Some((hart.get(), value)),
        Landed::Line(..) => None,
    }
}

#[test]
fn each_value_reaches_its_hart_in_either_order(rt: HostRuntime) -> Result<(), Fail> {
    let (zero, one) = (hart(&rt, 0), hart(&rt, 1));
    for turn in 0..2u8 {
        let mut side = small(rt.alloc())?;
        assert!(rt; loaded(&mut side, zero, 4) && loaded(&mut side, one, 2));
        if turn == 0 {
            assert_eq!(rt; reached(&mut side, zero, 0, 1), Some((0, 1)));
        }
        assert_eq!(rt; reached(&mut side, one, 1, 0x33), Some((1, 0x33)));
        assert!(rt; side.buffer[..15] == [13, 0, 3, 1, 0, 0, 0, 0x33, 0, 0, 0, 0, 0, 0, 0]);
        assert_eq!(rt; reached(&mut side, one, 1, 0x33), None);
        if turn == 1 {
            assert_eq!(rt; reached(&mut side, zero, 0, 1), Some((0, 1)));
        }
        assert_eq!(rt; side.replies(), 0);
    }
    Ok(())
}

#[test]
fn a_request_goes_to_its_service_and_the_reply_comes_back(rt: HostRuntime) -> Result<(), Fail> {
    let mut side = small(rt.alloc())?;
    assert!(rt; side.is_idle(Way::Memory) && side.is_idle(Way::Interrupt));
    side.request(&Action::Raise);
    assert!(rt; side.is_idle(Way::Memory) && !side.is_idle(Way::Interrupt));
    assert!(rt; !side.has_request(Way::Memory) && side.has_request(Way::Interrupt));
    assert!(rt; side.take_request(Way::Memory).is_none());
    assert!(rt;
        matches!(
            side.take_request(Way::Interrupt),
            Some(Msg::Raise { tag: 0 })
        )
    );
    assert!(rt; !side.has_request(Way::Interrupt));
    assert!(rt; side.take_request(Way::Interrupt).is_none());
    side.put_answer(Way::Interrupt, &Msg::IrqDone { tag: 0 });
    assert!(rt; side.hear(Way::Memory).is_none());
    assert!(rt; matches!(side.hear(Way::Interrupt), Some(Heard::Done)));
    assert!(rt; side.hear(Way::Interrupt).is_none());
    Ok(())
}

/// Whether a request to write 4,096 bytes comes out of its lane as it went in.
fn wrote(side: &mut Side) -> bool {
    if !side.is_idle(Way::Memory) {
        return false;
    }
    side.request(&Action::Write {
        addr: 0x8000_0000,
        bytes: Bytes::of(&[7; 4096]),
    });
    match side.take_request(Way::Memory) {
        Some(Msg::Write { tag, addr, bytes }) => {
            tag == 0 && addr == 0x8000_0000 && bytes.as_slice() == [7; 4096].as_slice()
        }
        _ => false,
    }
}

/// Whether 4,096 bytes come out of the lane as they went in.
fn read(side: &mut Side) -> bool {
    if !side.is_idle(Way::Memory) {
        return false;
    }
    side.put_answer(
        Way::Memory,
        &Msg::Bytes {
            tag: 0,
            bytes: Bytes::of(&[9; 4096]),
        },
    );
    match side.hear(Way::Memory) {
        Some(Heard::Bytes(bytes)) => bytes.as_slice() == [9; 4096].as_slice(),
        _ => false,
    }
}

/// Whether a refusal comes out of the lane, which is empty then.
fn refused(side: &mut Side) -> bool {
    if !side.is_idle(Way::Memory) {
        return false;
    }
    side.put_answer(Way::Memory, &Msg::MemRefused { tag: 1 });
    matches!(side.hear(Way::Memory), Some(Heard::Refused)) && side.is_idle(Way::Memory)
}

#[test]
fn four_thousand_bytes_go_and_come(rt: HostRuntime) -> Result<(), Fail> {
    let mut side = small(rt.alloc())?;
    assert!(rt; wrote(&mut side));
    assert!(rt; read(&mut side));
    assert!(rt; refused(&mut side));
    Ok(())
}

#[test]
fn a_verdict_reaches_its_line(rt: HostRuntime) -> Result<(), Fail> {
    let mut side = small(rt.alloc())?;
    let line = LineNo::new(2).expect(&rt, "a line");
    assert!(rt; resized(&mut side, line, 0x8000_0000));
    assert!(rt; !resized(&mut side, line, 1));
    assert_eq!(rt;
        side.take(),
        Some((
            0,
            Item::Resize {
                sectors: 0x8000_0000
            }
        ))
    );
    assert_eq!(rt; decided(&mut side, line), Some((2, 0, 7)));
    assert!(rt; resized(&mut side, line, 1));
    Ok(())
}

/// The line that a verdict reached, with its tag and its status; `None` where the line does not wait for the tag 0.
fn decided(side: &mut Side, line: LineNo) -> Option<(u8, u32, u8)> {
    if side.replies() != 0 || side.proxy.line_waits(line) != Some(0) {
        return None;
    }
    side.put_verdict(&Verdict {
        tag: 0,
        status: 7,
        other: 0,
        stats: Stats::new(),
    });
    match side.land()? {
        Landed::Line(line, verdict) => Some((line.get(), verdict.tag, verdict.status)),
        Landed::Hart(..) => None,
    }
}

/// Whether nothing lands where no value and no answer lies in the tube.
fn lands_nothing(side: &mut Side) -> bool {
    side.replies() == 0 && side.land().is_none()
}

#[test]
fn what_a_worker_intends_and_was_told_is_kept(rt: HostRuntime) -> Result<(), Fail> {
    let mut side = small(rt.alloc())?;
    assert!(rt; !side.is_intended() && !side.was_told());
    side.intend();
    assert!(rt; side.is_intended() && !side.was_told());
    side.tell();
    side.settle();
    assert!(rt; !side.is_intended() && side.was_told());
    assert!(rt; lands_nothing(&mut side));
    Ok(())
}
