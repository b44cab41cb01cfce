//! Requests and replies.

ghost use Rattle.std.specs.Prelude.{◌≡◌, IfOk, IsSome, IsTrue, length};
ghost use Rattle.tv_grants.specs.Grants.{no_grants, ram_bytes};
ghost use Rattle.tv_services.specs.Served.{memory_action};
ghost use Rattle.tv_wire.specs.Spelling.{IsMessage, is_piece};

use super::{serve_irq, serve_mem};
use std::alloc::Global;
use std::test::Fail;
use tv_base::{DevNo, Memory, Rights, Width};
use tv_grants::Grants;
use tv_intc::Intc;
use tv_items::Bytes;
use tv_ram::Ram;
use tv_wire::Msg;

/// Guest memory of 64 KiB, and what devices are granted of it.
#[derive(Drop)]
struct Guest {
    ram: Ram,
    grants: Grants,
}

impl Guest {
    /// The device in slot 0 may read and write the pages 0x8_0000 to 0x8_0006. That in slot 7 may read page 0x8_0000.
    fn new(alloc: Global) -> Result<Guest, Fail>
        ensures { IfOk result (λ guest. ram_bytes guest.grants ≡ length guest.ram) }
    {
        let [first, last] = slots()?;
        let ram = memory(alloc)?;
        let mut grants = no_grants(alloc)?;
        grants.add(first, 0x8000_0000, 0x7000, Rights::READ | Rights::WRITE)?;
        grants.add(last, 0x8000_0000, 0x1000, Rights::READ)?;
        Ok(Guest { ram, grants })
    }

    fn serve(&mut self, dev: DevNo, msg: Msg) -> Msg
        requires memory { ram_bytes self.old.grants ≡ length self.old.ram }
        requires message { IsMessage msg }
        requires request { IsSome (memory_action msg) }
        ensures { ram_bytes self.new.grants ≡ length self.new.ram }
    {
        serve_mem(&mut self.ram, &mut self.grants, dev, &msg)
    }

    fn write(&mut self, dev: DevNo, tag: u32, addr: u64, bytes: &[u8]) -> Msg
        requires memory { ram_bytes self.old.grants ≡ length self.old.ram }
        requires piece { IsTrue (is_piece (length bytes.now)) }
        ensures { ram_bytes self.new.grants ≡ length self.new.ram }
    {
        let bytes = Bytes::of(bytes);
        self.serve(dev, Msg::Write { tag, addr, bytes })
    }

    /// Whether a request for as many bytes is answered with these, under its tag.
    fn reads(&mut self, dev: DevNo, addr: u64, want: &[u8]) -> bool
        requires memory { ram_bytes self.old.grants ≡ length self.old.ram }
        requires piece { IsTrue (is_piece (length want.now)) }
        ensures { ram_bytes self.new.grants ≡ length self.new.ram }
    {
        let len = want.len() as u16;
        match self.serve(dev, Msg::Read { tag: 9, addr, len }) {
            Msg::Bytes { tag, bytes } => tag == 9 && bytes.as_slice() == want,
            _ => false,
        }
    }
}

/// Memory of 64 KiB, of zeros.
#[tactic(auto, using(tv_ram::proofs::Inside::length_zeros))]
fn memory(alloc: Global) -> Result<Ram, Fail>
    ensures { IfOk result (λ ram. length ram ≡ 65536) }
{
    Ram::new(alloc, 0x1_0000).map_err(|_| Fail::from("memory"))
}

/// No grant over this memory.
fn no_grants(alloc: Global) -> Result<Grants, Memory>
    ensures { IfOk result (λ grants. grants ≡ no_grants 65536) }
{
    Grants::new(alloc, 0x1_0000)
}

/// The slots 0 and 7.
fn slots() -> Result<[DevNo; 2], Fail> {
    match (DevNo::new(0), DevNo::new(7)) {
        (Some(first), Some(last)) => Ok([first, last]),
        _ => Err(Fail::from("slots")),
    }
}

/// Whether a reply says, under this tag, that what was asked of memory is done.
fn is_done(reply: &Msg, want: u32) -> bool {
    match reply {
        Msg::MemDone { tag } => *tag == want,
        _ => false,
    }
}

/// Whether a reply says, under this tag, that it is not allowed.
fn is_refused(reply: &Msg, want: u32) -> bool {
    match reply {
        Msg::MemRefused { tag } => *tag == want,
        _ => false,
    }
}

#[test]
fn a_write_is_done_whole_or_not_at_all(rt: HostRuntime) -> Result<(), Fail> {
    let mut guest = Guest::new(rt.alloc())?;
    let [first, last] = slots()?;
    // two bytes of four may be written, and none is
    assert!(rt; is_refused(&guest.write(first, 1, 0x8000_6ffe, &[1, 2, 3, 4]), 1));
    assert!(rt; is_refused(&guest.write(last, u32::MAX, 0x8000_0000, &[1]), u32::MAX));
    assert!(rt; is_refused(&guest.write(first, 3, u64::MAX, &[1, 2]), 3));
    assert_eq!(rt; guest.ram.load(0x8000_6ff8, Width::B8), Some(0));
    assert_eq!(rt; guest.ram.load(0x8000_0000, Width::B8), Some(0));
    assert!(rt; is_done(&guest.write(first, 4, 0x8000_6ffe, &[1, 2]), 4));
    assert_eq!(rt;
        guest.ram.load(0x8000_6ff8, Width::B8),
        Some(0x0201_0000_0000_0000)
    );
    Ok(())
}

#[test]
fn reads_give_bytes_of_granted_memory(rt: HostRuntime) -> Result<(), Fail> {
    let mut guest = Guest::new(rt.alloc())?;
    let [first, last] = slots()?;
    let long = [7; 4096];
    assert!(rt; is_done(&guest.write(first, 0, 0x8000_0800, &long), 0));
    assert!(rt; guest.reads(first, 0x8000_0800, &long));
    assert!(rt; guest.reads(last, 0x8000_07ff, &[0, 7, 7]));
    assert!(rt; guest.reads(last, 0x8000_0fff, &[7]));
    // the second byte lies behind what the device may read
    let two = Msg::Read {
        tag: 5,
        addr: 0x8000_0fff,
        len: 2,
    };
    assert!(rt; is_refused(&guest.serve(last, two), 5));
    Ok(())
}

#[test]
fn a_released_page_is_zeros_and_out_of_reach_until_it_is_regained(
    rt: HostRuntime,
) -> Result<(), Fail> {
    let mut guest = Guest::new(rt.alloc())?;
    let [first, last] = slots()?;
    let page = 0x8_0000;
    assert!(rt; is_done(&guest.write(first, 0, 0x8000_0ffe, &[1, 2, 3, 4]), 0));
    assert!(rt;
        is_refused(
            &guest.serve(
                last,
                Msg::Release {
                    tag: 1,
                    page,
                    hold: true
                }
            ),
            1
        )
    );
    assert!(rt; guest.reads(first, 0x8000_0ffe, &[1, 2, 3, 4]));
    // a page that is not held stays within reach
    assert!(rt;
        is_done(
            &guest.serve(
                first,
                Msg::Release {
                    tag: 2,
                    page,
                    hold: false
                }
            ),
            2
        )
    );
    assert!(rt; guest.reads(first, 0x8000_0ffe, &[0, 0, 3, 4]));
    assert!(rt;
        is_done(
            &guest.serve(
                first,
                Msg::Release {
                    tag: 3,
                    page,
                    hold: true
                }
            ),
            3
        )
    );
    assert!(rt; !guest.reads(first, 0x8000_0fff, &[0]));
    assert!(rt; !guest.reads(last, 0x8000_0fff, &[0]));
    assert!(rt; is_refused(&guest.write(first, 4, 0x8000_0fff, &[5, 6]), 4));
    assert!(rt; is_refused(&guest.serve(last, Msg::Regain { tag: 5, page }), 5));
    assert!(rt;
        is_refused(
            &guest.serve(
                first,
                Msg::Regain {
                    tag: 6,
                    page: 0x8_0010
                }
            ),
            6
        )
    );
    assert!(rt; is_done(&guest.serve(first, Msg::Regain { tag: 7, page }), 7));
    assert!(rt; guest.reads(first, 0x8000_0ffe, &[0, 0, 3, 4]));
    assert!(rt; guest.reads(last, 0x8000_0fff, &[0]));
    Ok(())
}

#[test]
fn an_interrupt_is_of_the_source_after_the_slot(rt: HostRuntime) -> Result<(), Fail> {
    let [first, last] = slots()?;
    let mut lower = no_grants(rt.alloc())?;
    let _source = lower.add_irq(first);
    let mut upper = no_grants(rt.alloc())?;
    let _source = upper.add_irq(last);
    let mut intc = Intc::new(1);
    // the pending register has a bit for each source
    let pending = 0x1000;
    let refused = serve_irq(&mut intc, &lower, last, &Msg::Raise { tag: 4 });
    assert!(rt; matches!(refused, Msg::IrqRefused { tag: 4 }));
    let refused = serve_irq(&mut intc, &upper, first, &Msg::Raise { tag: 5 });
    assert!(rt; matches!(refused, Msg::IrqRefused { tag: 5 }));
    assert_eq!(rt; intc.read(pending, Width::B4), 0);
    let done = serve_irq(&mut intc, &lower, first, &Msg::Raise { tag: 6 });
    assert!(rt; matches!(done, Msg::IrqDone { tag: 6 }));
    assert_eq!(rt; intc.read(pending, Width::B4), 1 << 1);
    let done = serve_irq(&mut intc, &upper, last, &Msg::Raise { tag: 7 });
    assert!(rt; matches!(done, Msg::IrqDone { tag: 7 }));
    assert_eq!(rt; intc.read(pending, Width::B4), 1 << 1 | 1 << 8);
    Ok(())
}
