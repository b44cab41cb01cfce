//! Events that stay in memory, and many that are counted at once.

use super::{NUMBER, PC, VALUE, WORD, counts, hart};
use crate::{Loaded, Place, Stored};
use std::test::Fail;
use tv_base::{HartNo, Width};
use tv_isa::AmoOp;

/// A place with one word and one number, which lies in memory at `DATA`.
#[derive(Drop)]
struct Pocket {
    word: Option<u32>,
    number: u64,
}

impl Place for Pocket {
    ghost use Rattle.std.specs.Prelude.{None};
    ghost use Rattle.tv_hart.specs.declared.place.Loaded.TheVariants as loaded;
    ghost use Rattle.tv_hart.specs.declared.place.Stored.TheVariants as stored;

    ghost meaning = { record {
      fetch = λ p addr. p.word;
      load = λ p hart width addr. (loaded.Value p.number, p);
      store = λ p hart width addr value. (stored.Done, record p { number = value });
      amo = λ p hart width addr op value. (None, p);
      reserve = λ p hart width addr. (None, p);
      conditional = λ p hart width addr value. (None, p);
    } };

    ghost calm = { λ p q. Unit {0} };

    fn fetch(&mut self, _addr: u64) -> Option<u32> {
        self.word
    }

    fn load(&mut self, _hart: HartNo, _width: Width, _addr: u64) -> Loaded {
        Loaded::Value(self.number)
    }

    fn store(&mut self, _hart: HartNo, _width: Width, _addr: u64, value: u64) -> Stored {
        self.number = value;
        Stored::Done
    }

    fn number(&self, _width: Width, addr: u64) -> Option<u64> {
        (addr == DATA).then_some(self.number)
    }

    fn put_number(&mut self, _hart: HartNo, _width: Width, addr: u64, value: u64) -> bool {
        if addr != DATA {
            return false;
        }
        self.number = value;
        true
    }

    fn amo(
        &mut self,
        _hart: HartNo,
        _width: Width,
        _addr: u64,
        _op: AmoOp,
        _value: u64,
    ) -> Option<u64> {
        None
    }

    fn reserve(&mut self, _hart: HartNo, _width: Width, _addr: u64) -> Option<u64> {
        None
    }

    fn conditional(
        &mut self,
        _hart: HartNo,
        _width: Width,
        _addr: u64,
        _value: u64,
    ) -> Option<bool> {
        None
    }

    ghost stays = { λ p. tt };
}

/// The address of a number in memory.
const DATA: u64 = 0x8000_0000;

#[test]
fn plain_events_stay_in_memory(rt: HostRuntime) -> Result<(), Fail> {
    for (word, x5, plain, x7, pc, number) in [
        // add, auipc, jal -8, beq +16 that is taken, bne +16 that isn't, fence
        (0x006283b3, 2, true, VALUE + 2, PC + 4, NUMBER),
        (0xfffff397, 0, true, 0x8000_0000, PC + 4, NUMBER),
        (0xff9ff3ef, 0, true, PC + 4, PC - 8, NUMBER),
        (0x00628863, VALUE, true, 7, PC + 16, NUMBER),
        (0x00629863, VALUE, true, 7, PC + 4, NUMBER),
        (0x0ff0000f, 0, true, 7, PC + 4, NUMBER),
        // lw and sd in memory
        (0x0002a383, DATA, true, WORD, PC + 4, NUMBER),
        (0x0062b023, DATA, true, 7, PC + 4, VALUE),
        // lw and sd where no memory is, ld and sd that aren't aligned, jalr 1(x5) to such a target
        (0x0002a383, 0, false, 7, PC, NUMBER),
        (0x0062b023, 0, false, 7, PC, NUMBER),
        (0x0002b383, DATA + 4, false, 7, PC, NUMBER),
        (0x0062b023, DATA + 4, false, 7, PC, NUMBER),
        (0x001283e7, 0x8000_2001, false, 7, PC, NUMBER),
        // lr.w, sc.w, amoadd.w, csrrw mscratch, ecall, mret, and a word that is no instruction
        (0x1002a3af, DATA, false, 7, PC, NUMBER),
        (0x1862a3af, DATA, false, 7, PC, NUMBER),
        (0x0062a3af, DATA, false, 7, PC, NUMBER),
        (0x340293f3, 1, false, 7, PC, NUMBER),
        (0x00000073, 0, false, 7, PC, NUMBER),
        (0x30200073, 0, false, 7, PC, NUMBER),
        (0x00000000, 0, false, 7, PC, NUMBER),
    ] {
        let mut hart = hart(x5, VALUE);
        let mut place = Pocket {
            word: Some(word),
            number: NUMBER,
        };
        assert_eq!(rt; hart.plain(&mut place), plain, "{word}");
        assert_eq!(rt; (hart.registers[7], hart.pc), (x7, pc), "{word}");
        assert_eq!(rt; (place.number, counts(&hart)), (number, [0, 0]), "{word}");
    }
    Ok(())
}

#[test]
fn retired_events_are_counted_at_once(rt: HostRuntime) -> Result<(), Fail> {
    let mut hart = hart(0, 0);
    hart.csrs.write(0xb00, u64::MAX);
    hart.count(3);
    assert_eq!(rt; counts(&hart), [2, 3]);
    // the timer's interrupt, before and after it is let through
    assert!(rt; !hart.is_interrupted(0x80));
    hart.csrs.write(0x304, 0x80);
    hart.csrs.write(0x300, 8);
    assert!(rt; hart.is_interrupted(0x80));
    assert!(rt; !hart.is_interrupted(0));
    Ok(())
}
