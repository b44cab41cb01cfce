// Values at the edges, from the manual's rules and worked out by hand.
use super::*;
use tv_base::Width;

const LEAST: u64 = 0x8000_0000_0000_0000;

const LEAST_WORD: u64 = 0x8000_0000;

const LEAST_WORD_EXTENDED: u64 = 0xffff_ffff_8000_0000;

const ONES: u64 = u64::MAX;

#[test]
fn values_of_registers(rt: HostRuntime) {
    let rows = [
        (Alu::Add, ONES, 1, 0),
        (Alu::Sub, 0, 1, ONES),
        (Alu::Sll, 1, 127, LEAST),
        (Alu::Slt, ONES, 0, 1),
        (Alu::Sltu, ONES, 0, 0),
        (Alu::Xor, 0b1100, 0b1010, 0b0110),
        (Alu::Srl, LEAST, 63, 1),
        (Alu::Sra, LEAST, 63, ONES),
        (Alu::Or, 0b1100, 0b1010, 0b1110),
        (Alu::And, 0b1100, 0b1010, 0b1000),
    ];
    for (op, a, b, value) in rows {
        assert_eq!(rt; alu(op, a, b), value);
    }
}

#[test]
fn values_of_words(rt: HostRuntime) {
    let rows = [
        (Alu::Add, 0x7fff_ffff, 1, LEAST_WORD_EXTENDED),
        (Alu::Sub, 0x1_0000_0000, 1, ONES),
        (Alu::Sll, 1, 63, LEAST_WORD_EXTENDED),
        (Alu::Srl, 0xf_8000_0000, 31, 1),
        (Alu::Sra, LEAST_WORD, 31, ONES),
    ];
    for (op, a, b, value) in rows {
        assert_eq!(rt; alu_w(op, a, b), value);
    }
}

#[test]
fn conditions_of_branches(rt: HostRuntime) {
    let rows = [
        (Branch::Eq, 7, 7, true),
        (Branch::Ne, 7, 7, false),
        (Branch::Lt, ONES, 0, true),
        (Branch::Ge, LEAST, 0, false),
        (Branch::Ltu, ONES, 0, false),
        (Branch::Geu, LEAST, 0, true),
    ];
    for (op, a, b, taken) in rows {
        assert!(rt; branch(op, a, b) == taken);
    }
}

#[test]
fn products_and_quotients(rt: HostRuntime) {
    let rows = [
        (MulDiv::Mul, ONES, ONES, 1),
        (MulDiv::Mulh, ONES, ONES, 0),
        (MulDiv::Mulh, LEAST, LEAST, 0x4000_0000_0000_0000),
        (MulDiv::Mulhsu, ONES, ONES, ONES),
        (MulDiv::Mulhu, ONES, ONES, ONES - 1),
        (MulDiv::Div, ONES - 6, 2, ONES - 2),
        (MulDiv::Div, 7, 0, ONES),
        (MulDiv::Div, LEAST, ONES, LEAST),
        (MulDiv::Divu, ONES, 2, 0x7fff_ffff_ffff_ffff),
        (MulDiv::Divu, 7, 0, ONES),
        (MulDiv::Rem, ONES - 6, 2, ONES),
        (MulDiv::Rem, 7, 0, 7),
        (MulDiv::Rem, LEAST, ONES, 0),
        (MulDiv::Remu, ONES, 2, 1),
        (MulDiv::Remu, 7, 0, 7),
    ];
    for (op, a, b, value) in rows {
        assert_eq!(rt; mul_div(op, a, b), value);
    }
}

#[test]
fn products_and_quotients_of_words(rt: HostRuntime) {
    let rows = [
        (MulDiv::Mul, 0x1_0001_0000, 0x8000, LEAST_WORD_EXTENDED),
        (MulDiv::Div, LEAST_WORD, ONES, LEAST_WORD_EXTENDED),
        (MulDiv::Div, 7, 0x1_0000_0000, ONES),
        (MulDiv::Divu, 7, 0, ONES),
        (MulDiv::Divu, ONES, 1, ONES),
        (MulDiv::Rem, LEAST_WORD, ONES, 0),
        (MulDiv::Rem, 0xffff_fff9, 2, ONES),
        (MulDiv::Remu, LEAST_WORD, 0, LEAST_WORD_EXTENDED),
    ];
    for (op, a, b, value) in rows {
        assert_eq!(rt; mul_div_w(op, a, b), value);
    }
}

#[test]
fn values_of_atomic_operations(rt: HostRuntime) {
    // Of two operands each operation's value with 8 bytes, and with 4 bytes.
    let (old, b) = (0x7fff_ffff_ffff_fffc, LEAST + 0xa);
    let rows = [
        (AmoOp::Swap, b, 0xa),
        (AmoOp::Add, 6, 6),
        (AmoOp::Xor, 0xffff_ffff_ffff_fff6, 0xffff_ffff_ffff_fff6),
        (AmoOp::And, 8, 8),
        (AmoOp::Or, 0xffff_ffff_ffff_fffe, 0xffff_ffff_ffff_fffe),
        (AmoOp::Min, b, 0xffff_ffff_ffff_fffc),
        (AmoOp::Max, old, 0xa),
        (AmoOp::Minu, old, 0xa),
        (AmoOp::Maxu, b, 0xffff_ffff_ffff_fffc),
    ];
    for (op, double, word) in rows {
        assert_eq!(rt; amo(op, Width::B8, old, b), double);
        assert_eq!(rt; amo(op, Width::B4, old, b), word);
    }
}

#[test]
fn numbers_with_their_sign(rt: HostRuntime) {
    assert_eq!(rt; byte_extended(0x7f), 0x7f);
    assert_eq!(rt; byte_extended(0x80), 0xffff_ffff_ffff_ff80);
    assert_eq!(rt; half_word_extended(0x7fff), 0x7fff);
    assert_eq!(rt; half_word_extended(0x8000), 0xffff_ffff_ffff_8000);
    assert_eq!(rt; word_extended(0x7fff_ffff), 0x7fff_ffff);
    assert_eq!(rt; word_extended(0x8000_0000), 0xffff_ffff_8000_0000);
}
