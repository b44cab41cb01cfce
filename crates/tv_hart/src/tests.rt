ghost use Rattle.std.specs.Prelude.{◌≡◌};

mod listing;
mod plain;

use super::{Did, Hart, Loaded, Place, Stored};
use std::test::Fail;
use tv_base::{HartNo, Width};
use tv_isa::AmoOp;
use tv_trap::Csrs;

/// A place that gives one word at each address, and answers all accesses of a kind alike.
#[derive(Drop)]
struct Alike {
    word: Option<u32>,
    loaded: Loaded,
    stored: Stored,
}

impl Place for Alike {
    ghost use Rattle.std.specs.Prelude.{None};

    ghost meaning = { record {
      fetch = λ p addr. p.word;
      load = λ p hart width addr. (p.loaded, p);
      store = λ p hart width addr value. (p.stored, p);
      amo = λ p hart width addr op value. (None, p);
      reserve = λ p hart width addr. (None, p);
      conditional = λ p hart width addr value. (None, p);
    } };

    ghost calm = { λ p q. Unit {0} };

    fn fetch(&mut self, _addr: u64) -> Option<u32> {
        self.word
    }

    fn load(&mut self, _hart: HartNo, _width: Width, _addr: u64) -> Loaded {
        self.loaded
    }

    fn store(&mut self, _hart: HartNo, _width: Width, _addr: u64, _value: u64) -> Stored {
        self.stored
    }

    fn number(&self, _width: Width, _addr: u64) -> Option<u64> {
        None
    }

    fn put_number(&mut self, _hart: HartNo, _width: Width, _addr: u64, _value: u64) -> bool {
        false
    }

    fn amo(
        &mut self,
        _hart: HartNo,
        _width: Width,
        _addr: u64,
        _op: AmoOp,
        _value: u64,
    ) -> Option<u64> {
        None
    }

    fn reserve(&mut self, _hart: HartNo, _width: Width, _addr: u64) -> Option<u64> {
        None
    }

    fn conditional(
        &mut self,
        _hart: HartNo,
        _width: Width,
        _addr: u64,
        _value: u64,
    ) -> Option<bool> {
        None
    }

    ghost stays = { λ p. tt };
}

/// What a place was asked for.
#[derive(Clone, Copy)]
enum Asked {
    Nothing,
    Load,
    Store,
    Amo(AmoOp),
    Reserve,
    Conditional,
}

/// Its name.
fn name_of(asked: Asked) -> &'static str {
    match asked {
        Asked::Nothing => "nothing",
        Asked::Load => "load",
        Asked::Store => "store",
        Asked::Amo(AmoOp::Swap) => "swap",
        Asked::Amo(AmoOp::Add) => "add",
        Asked::Amo(AmoOp::Xor) => "xor",
        Asked::Amo(AmoOp::And) => "and",
        Asked::Amo(AmoOp::Or) => "or",
        Asked::Amo(AmoOp::Min) => "min",
        Asked::Amo(AmoOp::Max) => "max",
        Asked::Amo(AmoOp::Minu) => "minu",
        Asked::Amo(AmoOp::Maxu) => "maxu",
        Asked::Reserve => "reserve",
        Asked::Conditional => "conditional",
    }
}

/// A place that gives one word and one number at each address, makes each access, and keeps what it was asked for last.
#[derive(Drop)]
struct Recorder {
    word: u32,
    number: u64,
    reserved: bool,
    asked: Asked,
    hart: u8,
    width: Width,
    addr: u64,
    value: u64,
}

impl Place for Recorder {
    ghost use Rattle.std.specs.Prelude.{Some};
    ghost use Rattle.tv_hart.specs.declared.place.Loaded.TheVariants as loaded;
    ghost use Rattle.tv_hart.specs.declared.place.Stored.TheVariants as stored;
    ghost use Rattle.tv_hart.specs.declared.tests.Asked.TheVariants as asked;

    ghost meaning = { record {
      fetch = λ p addr. Some p.word;
      load = λ p hart width addr. (
        loaded.Value p.number,
        record p { asked = asked.Load; hart = hart; width = width; addr = addr },
      );
      store = λ p hart width addr value. (
        stored.Done,
        record p { asked = asked.Store; hart = hart; width = width; addr = addr; value = value },
      );
      amo = λ p hart width addr op value. (
        Some p.number,
        record p { asked = asked.Amo op; hart = hart; width = width; addr = addr; value = value },
      );
      reserve = λ p hart width addr. (
        Some p.number,
        record p { asked = asked.Reserve; hart = hart; width = width; addr = addr },
      );
      conditional = λ p hart width addr value. (
        Some p.reserved,
        record p { asked = asked.Conditional; hart = hart; width = width; addr = addr; value = value },
      );
    } };

    ghost calm = { λ p q. Unit {0} };

    fn fetch(&mut self, _addr: u64) -> Option<u32> {
        Some(self.word)
    }

    fn load(&mut self, hart: HartNo, width: Width, addr: u64) -> Loaded {
        self.asked = Asked::Load;
        self.hart = hart.get();
        self.width = width;
        self.addr = addr;
        Loaded::Value(self.number)
    }

    fn store(&mut self, hart: HartNo, width: Width, addr: u64, value: u64) -> Stored {
        self.asked = Asked::Store;
        self.hart = hart.get();
        self.width = width;
        self.addr = addr;
        self.value = value;
        Stored::Done
    }

    fn number(&self, _width: Width, _addr: u64) -> Option<u64> {
        None
    }

    fn put_number(&mut self, hart: HartNo, width: Width, addr: u64, value: u64) -> bool {
        let _stored = self.store(hart, width, addr, value);
        true
    }

    fn amo(&mut self, hart: HartNo, width: Width, addr: u64, op: AmoOp, value: u64) -> Option<u64> {
        self.asked = Asked::Amo(op);
        self.hart = hart.get();
        self.width = width;
        self.addr = addr;
        self.value = value;
        Some(self.number)
    }

    fn reserve(&mut self, hart: HartNo, width: Width, addr: u64) -> Option<u64> {
        self.asked = Asked::Reserve;
        self.hart = hart.get();
        self.width = width;
        self.addr = addr;
        Some(self.number)
    }

    fn conditional(&mut self, hart: HartNo, width: Width, addr: u64, value: u64) -> Option<bool> {
        self.asked = Asked::Conditional;
        self.hart = hart.get();
        self.width = width;
        self.addr = addr;
        self.value = value;
        Some(self.reserved)
    }

    ghost stays = { λ p. tt };
}

/// The pc of each hart here.
const PC: u64 = 0x8000_1000;

/// The address of each hart's trap handler.
const HANDLER: u64 = 0x8000_0400;

/// A number whose low word is negative, in each place that keeps what it was asked for, and the same as LW gives it.
const NUMBER: u64 = 0x11_8765_4321;

const WORD: u64 = 0xffff_ffff_8765_4321;

/// The value of x6 where a place keeps it.
const VALUE: u64 = 0x1122_3344_5566_7788;

/// Hart 3 with these values in x5 and x6, and 7 in x7.
fn hart(x5: u64, x6: u64) -> Hart
    ensures { result.waits ≡ None }
{
    let mut registers = [0; 32];
    registers[5] = x5;
    registers[6] = x6;
    registers[7] = 7;
    let mut csrs = Csrs::new(HartNo::new(3).unwrap_or(HartNo::FIRST));
    csrs.write(0x305, HANDLER);
    Hart {
        registers,
        pc: PC,
        csrs,
        waiting: None,
    }
}

/// A place with a word where no data lie.
fn nowhere(word: Option<u32>) -> Alike {
    Alike {
        word,
        loaded: Loaded::Nothing,
        stored: Stored::Nothing,
    }
}

/// A place that keeps what it is asked for, with a word.
fn recording(word: u32) -> Recorder {
    Recorder {
        word,
        number: NUMBER,
        reserved: true,
        asked: Asked::Nothing,
        hart: 0,
        width: Width::B1,
        addr: 0,
        value: 0,
    }
}

/// The value of a control and status register while the timer's line is up.
fn csr(hart: &Hart, number: u16) -> u64 {
    hart.csrs.read(number, 0x80).unwrap_or(u64::MAX)
}

/// What the last trap left: mepc, mcause and mtval.
fn told(hart: &Hart) -> [u64; 3] {
    [csr(hart, 0x341), csr(hart, 0x342), csr(hart, 0x343)]
}

/// The counts of events and of retired instructions.
fn counts(hart: &Hart) -> [u64; 2] {
    [csr(hart, 0xb00), csr(hart, 0xb02)]
}

#[test]
fn instructions_have_their_effects(rt: HostRuntime) -> Result<(), Fail> {
    for (word, x5, x6, x7, pc) in [
        // add, sub, slt, sltu, sll, sra, addw, sraw
        (0x006283b3, u64::MAX, 3, 2, PC + 4),
        (0x406283b3, 3, 5, u64::MAX - 1, PC + 4),
        (0x0062a3b3, u64::MAX, 0, 1, PC + 4),
        (0x0062b3b3, u64::MAX, 0, 0, PC + 4),
        (0x006293b3, 1, 65, 2, PC + 4),
        (0x4062d3b3, 1 << 63, 4, 0xf800_0000_0000_0000, PC + 4),
        (0x006283bb, 0x7fff_ffff, 1, 0xffff_ffff_8000_0000, PC + 4),
        (0x4062d3bb, 0x8000_0000, 4, 0xffff_ffff_f800_0000, PC + 4),
        // addi -1, sltiu -1, andi -16, slli 63, srai 1, addiw 1
        (0xfff28393, 0, 0, u64::MAX, PC + 4),
        (0xfff2b393, 5, 0, 1, PC + 4),
        (0xff02f393, 0xff, 0, 0xf0, PC + 4),
        (0x03f29393, 3, 0, 1 << 63, PC + 4),
        (0x4012d393, 1 << 63, 0, 0xc000_0000_0000_0000, PC + 4),
        (0x0012839b, 0xffff_ffff, 0, 0, PC + 4),
        // lui and auipc
        (0x800003b7, 0, 0, 0xffff_ffff_8000_0000, PC + 4),
        (0xfffff397, 0, 0, 0x8000_0000, PC + 4),
        // jal -8, jalr 1(x5)
        (0xff9ff3ef, 0, 0, PC + 4, PC - 8),
        (0x001283e7, 0x8000_2004, 0, PC + 4, 0x8000_2004),
        // beq +16, bne -4096, blt +8, and bgeu +6 that isn't taken
        (0x00628863, 1, 1, 7, PC + 16),
        (0x00628863, 1, 2, 7, PC + 4),
        (0x80629063, 1, 2, 7, PC - 4096),
        (0x0062c463, u64::MAX, 0, 7, PC + 8),
        (0x0062f363, 0, 1, 7, PC + 4),
        // mul, mulh, mulhsu, mulhu, mulw
        (0x026283b3, 3, u64::MAX, u64::MAX - 2, PC + 4),
        (0x026293b3, 3, u64::MAX, u64::MAX, PC + 4),
        (0x0262a3b3, u64::MAX, u64::MAX, u64::MAX, PC + 4),
        (0x0262b3b3, u64::MAX, u64::MAX, u64::MAX - 1, PC + 4),
        (
            0x026283bb,
            0x1_8000,
            0x1_0000,
            0xffff_ffff_8000_0000,
            PC + 4,
        ),
        // div, divu, rem and remu by 0, then div and rem of the least number by -1
        (0x0262c3b3, 5, 0, u64::MAX, PC + 4),
        (0x0262d3b3, 5, 0, u64::MAX, PC + 4),
        (0x0262e3b3, u64::MAX - 4, 0, u64::MAX - 4, PC + 4),
        (0x0262f3b3, 5, 0, 5, PC + 4),
        (0x0262c3b3, 1 << 63, u64::MAX, 1 << 63, PC + 4),
        (0x0262e3b3, 1 << 63, u64::MAX, 0, PC + 4),
        // div and rem go to 0, and rem has the dividend's sign
        (0x0262c3b3, u64::MAX - 6, 2, u64::MAX - 2, PC + 4),
        (0x0262e3b3, u64::MAX - 6, 2, u64::MAX, PC + 4),
        // divw, divuw, remw and remuw by a 0 in the low word, then divw and remw of the least word by -1
        (0x0262c3bb, 5, 1 << 32, u64::MAX, PC + 4),
        (0x0262d3bb, 5, 1 << 32, u64::MAX, PC + 4),
        (0x0262e3bb, 0x1_8000_0001, 0, 0xffff_ffff_8000_0001, PC + 4),
        (0x0262f3bb, 0x1_8000_0001, 0, 0xffff_ffff_8000_0001, PC + 4),
        (
            0x0262c3bb,
            0x8000_0000,
            0xffff_ffff,
            0xffff_ffff_8000_0000,
            PC + 4,
        ),
        (0x0262e3bb, 0x8000_0000, 0xffff_ffff, 0, PC + 4),
        // fence, fence.i, wfi, and add and div to x0
        (0x0ff0000f, 0, 0, 7, PC + 4),
        (0x0000100f, 0, 0, 7, PC + 4),
        (0x10500073, 0, 0, 7, PC + 4),
        (0x00628033, 1, 1, 7, PC + 4),
        (0x0262c033, 1, 1, 7, PC + 4),
    ] {
        let mut hart = hart(x5, x6);
        assert_eq!(rt;
            hart.step(&mut nowhere(Some(word)), 0),
            Did::Retired,
            "{word}"
        );
        assert_eq!(rt;
            (hart.registers[0], hart.registers[7], hart.pc),
            (0, x7, pc),
            "{word}"
        );
        assert_eq!(rt; counts(&hart), [1, 1], "{word}");
    }
    Ok(())
}

#[test]
fn traps_tell_what_happened(rt: HostRuntime) -> Result<(), Fail> {
    for (word, x5, cause, mtval) in [
        // jal +2, jalr 3(x5), and bgeu +6, which is taken
        (Some(0x002003ef), 0, 0, PC + 2),
        (Some(0x003283e7), 0x8000_2000, 0, 0x8000_2002),
        (Some(0x0062f363), 1, 0, PC + 6),
        // no word to fetch
        (None, 0, 1, PC),
        // words without a row, sret among them
        (Some(0x00000000), 0, 2, 0),
        (Some(0xffffffff), 0, 2, 0xffff_ffff),
        (Some(0x10200073), 0, 2, 0x10200073),
        // csrr of cycle and sstatus, and csrrw of 0x7c0: there are none
        (Some(0xc00023f3), 0, 2, 0xc00023f3),
        (Some(0x100023f3), 0, 2, 0x100023f3),
        (Some(0x7c0293f3), 0, 2, 0x7c0293f3),
        // csrw and csrrs of mhartid by x5, csrrwi of mhartid by 0 and csrrsi of mvendorid by 1: they are read-only
        (Some(0xf1429073), 3, 2, 0xf1429073),
        (Some(0xf142a3f3), 0, 2, 0xf142a3f3),
        (Some(0xf14053f3), 0, 2, 0xf14053f3),
        (Some(0xf110e3f3), 0, 2, 0xf110e3f3),
        // ebreak, ecall
        (Some(0x00100073), 0, 3, 0),
        (Some(0x00000073), 0, 11, 0),
        // lh at 1(x5), lw at 258, ld at 4, lr.w and lr.d
        (Some(0x00129383), 0x8000_0000, 4, 0x8000_0001),
        (Some(0x1022a383), 0x8000_0000, 4, 0x8000_0102),
        (Some(0x0042b383), 0x8000_0000, 4, 0x8000_0004),
        (Some(0x1002a3af), 0x8000_0002, 4, 0x8000_0002),
        (Some(0x1002b3af), 0x8000_0004, 4, 0x8000_0004),
        // lb at -1(x5), ld, lr.w and lr.d
        (Some(0xfff28383), 0, 5, u64::MAX),
        (Some(0x0002b383), 0x9000_0000, 5, 0x9000_0000),
        (Some(0x1002a3af), 0x9000_0004, 5, 0x9000_0004),
        (Some(0x1002b3af), 0x9000_0000, 5, 0x9000_0000),
        // sh at 1(x5), sd at 260, sc.w, sc.d, amoadd.w and amoswap.d
        (Some(0x006290a3), 0x8000_0000, 6, 0x8000_0001),
        (Some(0x1062b223), 0x8000_0000, 6, 0x8000_0104),
        (Some(0x1862a3af), 0x8000_0002, 6, 0x8000_0002),
        (Some(0x1862b3af), 0x8000_0004, 6, 0x8000_0004),
        (Some(0x0062a3af), 0x8000_0001, 6, 0x8000_0001),
        (Some(0x0862b3af), 0x8000_0004, 6, 0x8000_0004),
        // sb at 1(x5), sd, sc.w, sc.d, amoadd.w and amoswap.d
        (Some(0x006280a3), 0x9000_0000, 7, 0x9000_0001),
        (Some(0x0062b023), 0x9000_0000, 7, 0x9000_0000),
        (Some(0x1862a3af), 0x9000_0004, 7, 0x9000_0004),
        (Some(0x1862b3af), 0x9000_0000, 7, 0x9000_0000),
        (Some(0x0062a3af), 0x9000_0004, 7, 0x9000_0004),
        (Some(0x0862b3af), 0x9000_0000, 7, 0x9000_0000),
    ] {
        let mut hart = hart(x5, 0);
        hart.csrs.write(0x300, 0x8);
        let did = hart.step(&mut nowhere(word), 0);
        assert_eq!(rt; did, Did::Trapped(cause), "{mtval}");
        assert_eq!(rt; (hart.pc, hart.registers[7]), (HANDLER, 7), "{mtval}");
        assert_eq!(rt; told(&hart), [PC, cause, mtval], "{mtval}");
        assert_eq!(rt; csr(&hart, 0x300), 0x1880, "{mtval}");
        assert_eq!(rt; counts(&hart), [1, 0], "{mtval}");
    }
    Ok(())
}

#[test]
fn a_hart_without_a_handler_traps_at_0(rt: HostRuntime) -> Result<(), Fail> {
    let mut hart = Hart::new(HartNo::new(3).unwrap_or(HartNo::FIRST));
    assert_eq!(rt; (hart.registers[10], hart.registers[5]), (3, 0));
    let mut place = nowhere(Some(0));
    assert_eq!(rt; hart.step(&mut place, 0), Did::Trapped(2));
    assert_eq!(rt; (hart.pc, told(&hart)), (0, [0x8000_0000, 2, 0]));
    place.word = None;
    assert!(rt; !hart.waits());
    assert_eq!(rt; hart.step(&mut place, 0), Did::Trapped(1));
    assert_eq!(rt;
        (hart.pc, told(&hart), counts(&hart)),
        (0, [0, 1, 0], [2, 0])
    );
    Ok(())
}

#[test]
fn csr_instructions_read_before_they_write(rt: HostRuntime) -> Result<(), Fail> {
    for (word, number, before, x5, x7, after) in [
        // csrrw, csrrs and csrrc of mscratch by x5; csrrwi, csrrsi and csrrci by 5
        (0x340293f3, 0x340, 0x11, 0x22, 0x11, 0x22),
        (0x3402a3f3, 0x340, 0x11, 0x22, 0x11, 0x33),
        (0x3402b3f3, 0x340, 0x33, 0x11, 0x33, 0x22),
        (0x3402d3f3, 0x340, 0x11, 0, 0x11, 0x5),
        (0x3402e3f3, 0x340, 0x12, 0, 0x12, 0x17),
        (0x3402f3f3, 0x340, 0x17, 0, 0x17, 0x12),
        // csrrw by x7 itself, csrw, csrr
        (0x340393f3, 0x340, 0x11, 0, 0x11, 7),
        (0x34029073, 0x340, 0x11, 0x22, 7, 0x22),
        (0x340023f3, 0x340, 0x11, 0, 0x11, 0x11),
        // csrrw of mstatus, mepc, misa and mip
        (0x300293f3, 0x300, 0, u64::MAX, 0x1800, 0x1888),
        (0x341293f3, 0x341, 0x11, 0x8000_0003, 0x10, 0x8000_0000),
        (
            0x301293f3,
            0x301,
            0,
            0,
            0x8000_0000_0000_1101,
            0x8000_0000_0000_1101,
        ),
        (0x344293f3, 0x344, 0, 0, 0x80, 0x80),
        // csrr of mhartid
        (0xf14023f3, 0xf14, 0, 0, 3, 3),
        // of mcycle: csrr, csrrsi and csrrci by 0 don't write; csrrs by an x5 of 0, csrrw by x0 and csrwi by 5 do
        (0xb00023f3, 0xb00, 5, 0, 5, 6),
        (0xb00063f3, 0xb00, 5, 0, 5, 6),
        (0xb00073f3, 0xb00, 5, 0, 5, 6),
        (0xb002a3f3, 0xb00, 5, 0, 5, 5),
        (0xb00013f3, 0xb00, 5, 0, 5, 0),
        (0xb002d073, 0xb00, 1, 0, 7, 5),
        // of minstret: csrrc by x0 doesn't write; csrrc by an x5 of 0 and csrrw do
        (0xb02033f3, 0xb02, 5, 0, 5, 6),
        (0xb022b3f3, 0xb02, 5, 0, 5, 5),
        (0xb02293f3, 0xb02, u64::MAX, 9, u64::MAX, 9),
        // csrr of a counter at its end
        (0xb00023f3, 0xb00, u64::MAX, 0, u64::MAX, 0),
    ] {
        let mut hart = hart(x5, 0);
        hart.csrs.write(number, before);
        let did = hart.step(&mut nowhere(Some(word)), 0x80);
        assert_eq!(rt; did, Did::Retired, "{word}");
        assert_eq!(rt;
            (hart.registers[0], hart.registers[7], hart.pc),
            (0, x7, PC + 4),
            "{word}"
        );
        assert_eq!(rt; csr(&hart, number), after, "{word}");
        let other = if number == 0xb00 { 0xb02 } else { 0xb00 };
        assert_eq!(rt; csr(&hart, other), 1, "{word}");
    }
    Ok(())
}

#[test]
fn interrupts_come_before_the_fetch(rt: HostRuntime) -> Result<(), Fail> {
    for (mstatus, mie, lines, cause, mtval) in [
        // the external line, the software line, the timer's
        (0x8, 0x888, 0x888, 0x8000_0000_0000_000b, 0),
        (0x8, 0x888, 0x088, 0x8000_0000_0000_0003, 0),
        (0x8, 0x888, 0x080, 0x8000_0000_0000_0007, 0),
        // other lines than the enabled one, and none while MIE is 0: the fetch fails
        (0x8, 0x080, 0x808, 1, PC),
        (0x80, 0x888, 0x888, 1, PC),
    ] {
        let mut hart = hart(0, 0);
        hart.csrs.write(0x300, mstatus);
        hart.csrs.write(0x304, mie);
        let did = hart.step(&mut nowhere(None), lines);
        assert_eq!(rt; did, Did::Trapped(cause));
        assert_eq!(rt;
            (hart.pc, told(&hart), counts(&hart)),
            (HANDLER, [PC, cause, mtval], [1, 0])
        );
    }
    Ok(())
}

#[test]
fn a_return_from_a_trap_lets_the_next_interrupt_in(rt: HostRuntime) -> Result<(), Fail> {
    let mut hart = hart(0, 0);
    hart.csrs.write(0x300, 0x80);
    hart.csrs.write(0x304, 0x80);
    hart.csrs.write(0x341, 0x8000_2000);
    // mret
    let mut place = nowhere(Some(0x30200073));
    assert_eq!(rt; hart.step(&mut place, 0x80), Did::Retired);
    assert_eq!(rt;
        (hart.pc, csr(&hart, 0x300), counts(&hart)),
        (0x8000_2000, 0x1888, [1, 1])
    );
    assert!(rt; !hart.waits());
    assert_eq!(rt;
        hart.step(&mut place, 0x80),
        Did::Trapped(0x8000_0000_0000_0007)
    );
    assert_eq!(rt;
        (hart.pc, told(&hart)),
        (HANDLER, [0x8000_2000, 0x8000_0000_0000_0007, 0])
    );
    assert_eq!(rt; (csr(&hart, 0x300), counts(&hart)), (0x1880, [2, 1]));
    Ok(())
}

#[test]
fn loads_are_extended_at_once_or_later(rt: HostRuntime) -> Result<(), Fail> {
    for (word, value, x7) in [
        // lb, lh, lw, ld, lbu, lhu, lwu, and lb and ld to x0
        (0x00028383, 0x1180, 0xffff_ffff_ffff_ff80),
        (0x00029383, 0x11_8000, 0xffff_ffff_ffff_8000),
        (0x0002a383, 0x11_8000_0000, 0xffff_ffff_8000_0000),
        (0x0002b383, u64::MAX, u64::MAX),
        (0x0002c383, 0x1180, 0x80),
        (0x0002d383, 0x11_8000, 0x8000),
        (0x0002e383, 0x11_8000_0000, 0x8000_0000),
        (0x00028003, 0x80, 7),
        (0x0002b003, u64::MAX, 7),
    ] {
        let mut place = nowhere(Some(word));
        place.loaded = Loaded::Value(value);
        let mut now = hart(0x8000_0000, 0);
        assert_eq!(rt; now.step(&mut place, 0), Did::Retired, "{word}");
        assert_eq!(rt;
            (now.registers[0], now.registers[7], now.pc),
            (0, x7, PC + 4),
            "{word}"
        );
        assert_eq!(rt; (now.waits(), counts(&now)), (false, [1, 1]), "{word}");

        place.loaded = Loaded::Held;
        let mut later = hart(0x8000_0000, 0);
        assert_eq!(rt; later.step(&mut place, 0), Did::Held, "{word}");
        assert_eq!(rt;
            (later.registers[7], later.pc, counts(&later)),
            (7, PC + 4, [1, 1]),
            "{word}"
        );
        assert!(rt; later.waits(), "{word}");
        later.finish_load(value);
        assert_eq!(rt; (later.registers[0], later.registers[7]), (0, x7), "{word}");
        assert_eq!(rt;
            (later.waits(), later.pc, counts(&later)),
            (false, PC + 4, [1, 1]),
            "{word}"
        );
    }
    Ok(())
}

#[test]
fn an_access_without_room_changes_nothing(rt: HostRuntime) -> Result<(), Fail> {
    // lw, sd
    for (word, loaded, stored) in [
        (0x0002a383, Loaded::Full, Stored::Nothing),
        (0x0062b023, Loaded::Nothing, Stored::Full),
    ] {
        let mut hart = hart(0x8000_0000, 1);
        let mut place = Alike {
            word: Some(word),
            loaded,
            stored,
        };
        assert_eq!(rt; hart.step(&mut place, 0), Did::Full);
        assert_eq!(rt;
            (hart.registers[7], hart.pc, counts(&hart)),
            (7, PC, [0, 0])
        );
        assert!(rt; !hart.waits());
    }
    Ok(())
}

#[test]
fn accesses_reach_the_place(rt: HostRuntime) -> Result<(), Fail> {
    for (word, name, width, addr, value, x7) in [
        // sb at -1(x5), sh at 2, sw at -4, sd at 2040, lw at 4
        (0xfe628fa3, "store", Width::B1, u64::MAX, VALUE, 7),
        (0x00629123, "store", Width::B2, 2, VALUE, 7),
        (0xfe62ae23, "store", Width::B4, u64::MAX - 3, VALUE, 7),
        (0x7e62bc23, "store", Width::B8, 2040, VALUE, 7),
        (0x0042a383, "load", Width::B4, 4, 0, WORD),
        // lr.w, lr.d, and lr.w to x0
        (0x1002a3af, "reserve", Width::B4, 0, 0, WORD),
        (0x1602b3af, "reserve", Width::B8, 0, 0, NUMBER),
        (0x1002a02f, "reserve", Width::B4, 0, 0, 7),
        // sc.w, sc.d, and sc.w to x0
        (0x1862a3af, "conditional", Width::B4, 0, VALUE, 0),
        (0x1862b3af, "conditional", Width::B8, 0, VALUE, 0),
        (0x1862a02f, "conditional", Width::B4, 0, VALUE, 7),
        // the operations on words, amoadd.w to x0, and the operations on double words
        (0x0862a3af, "swap", Width::B4, 0, VALUE, WORD),
        (0x0062a3af, "add", Width::B4, 0, VALUE, WORD),
        (0x2062a3af, "xor", Width::B4, 0, VALUE, WORD),
        (0x6062a3af, "and", Width::B4, 0, VALUE, WORD),
        (0x4062a3af, "or", Width::B4, 0, VALUE, WORD),
        (0x8062a3af, "min", Width::B4, 0, VALUE, WORD),
        (0xa062a3af, "max", Width::B4, 0, VALUE, WORD),
        (0xc062a3af, "minu", Width::B4, 0, VALUE, WORD),
        (0xe062a3af, "maxu", Width::B4, 0, VALUE, WORD),
        (0x0062a02f, "add", Width::B4, 0, VALUE, 7),
        (0x0e62b3af, "swap", Width::B8, 0, VALUE, NUMBER),
        (0x0062b3af, "add", Width::B8, 0, VALUE, NUMBER),
        (0x2062b3af, "xor", Width::B8, 0, VALUE, NUMBER),
        (0x6062b3af, "and", Width::B8, 0, VALUE, NUMBER),
        (0x4062b3af, "or", Width::B8, 0, VALUE, NUMBER),
        (0x8062b3af, "min", Width::B8, 0, VALUE, NUMBER),
        (0xa062b3af, "max", Width::B8, 0, VALUE, NUMBER),
        (0xc062b3af, "minu", Width::B8, 0, VALUE, NUMBER),
        (0xe062b3af, "maxu", Width::B8, 0, VALUE, NUMBER),
    ] {
        let mut hart = hart(0, VALUE);
        let mut place = recording(word);
        assert_eq!(rt; hart.step(&mut place, 0), Did::Retired, "{word}");
        assert_eq!(rt; name_of(place.asked), name, "{word}");
        assert_eq!(rt; (place.hart, place.width), (3, width), "{word}");
        assert_eq!(rt; (place.addr, place.value), (addr, value), "{word}");
        assert_eq!(rt;
            (hart.registers[0], hart.registers[7], hart.pc),
            (0, x7, PC + 4),
            "{word}"
        );
    }
    Ok(())
}

#[test]
fn a_store_without_a_reservation_gives_1(rt: HostRuntime) -> Result<(), Fail> {
    // sc.w, sc.d, and sc.w to x0
    for (word, x7) in [(0x1862a3af, 1), (0x1862b3af, 1), (0x1862a02f, 7)] {
        let mut hart = hart(0x8000_0000, VALUE);
        let mut place = recording(word);
        place.reserved = false;
        assert_eq!(rt; hart.step(&mut place, 0), Did::Retired, "{word}");
        assert_eq!(rt;
            (hart.registers[0], hart.registers[7], hart.pc),
            (0, x7, PC + 4),
            "{word}"
        );
        assert_eq!(rt; counts(&hart), [1, 1], "{word}");
    }
    Ok(())
}

#[test]
fn the_alignment_comes_before_the_place(rt: HostRuntime) -> Result<(), Fail> {
    // ld, lr.d, sd, sc.d, amoadd.d
    for (word, cause) in [
        (0x0002b383, 4),
        (0x1002b3af, 4),
        (0x0062b023, 6),
        (0x1862b3af, 6),
        (0x0062b3af, 6),
    ] {
        let mut hart = hart(0x8000_0004, 0);
        let mut place = recording(word);
        assert_eq!(rt; hart.step(&mut place, 0), Did::Trapped(cause), "{word}");
        assert_eq!(rt; name_of(place.asked), "nothing", "{word}");
    }
    Ok(())
}
