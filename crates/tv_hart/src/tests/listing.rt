//! Words from outside as the hart reads them: each row of the instruction listing as LLVM's assembler writes it, and
//! words of small programs.

use std::process::Abort;
use tv_isa::{Instr, decode, encode};

/// Reads each word as an instruction of this name, and writes it again.
fn expect(rt: &impl Abort, rows: &[(u32, &'static str)]) {
    for &(word, name) in rows {
        match decode(word) {
            Some(instr) => {
                assert_eq!(rt; name_of(instr), name);
                assert_eq!(rt; encode(&instr), word);
            }
            None => assert!(rt; false, "at {word}"),
        }
    }
}

/// The name of a row.
fn name_of(instr: Instr) -> &'static str {
    match instr {
        Instr::Lui { .. } => "lui",
        Instr::Auipc { .. } => "auipc",
        Instr::Jal { .. } => "jal",
        Instr::Jalr { .. } => "jalr",
        Instr::Beq { .. } => "beq",
        Instr::Bne { .. } => "bne",
        Instr::Blt { .. } => "blt",
        Instr::Bge { .. } => "bge",
        Instr::Bltu { .. } => "bltu",
        Instr::Bgeu { .. } => "bgeu",
        Instr::Lb { .. } => "lb",
        Instr::Lh { .. } => "lh",
        Instr::Lw { .. } => "lw",
        Instr::Ld { .. } => "ld",
        Instr::Lbu { .. } => "lbu",
        Instr::Lhu { .. } => "lhu",
        Instr::Lwu { .. } => "lwu",
        Instr::Sb { .. } => "sb",
        Instr::Sh { .. } => "sh",
        Instr::Sw { .. } => "sw",
        Instr::Sd { .. } => "sd",
        Instr::Addi { .. } => "addi",
        Instr::Slti { .. } => "slti",
        Instr::Sltiu { .. } => "sltiu",
        Instr::Xori { .. } => "xori",
        Instr::Ori { .. } => "ori",
        Instr::Andi { .. } => "andi",
        Instr::Slli { .. } => "slli",
        Instr::Srli { .. } => "srli",
        Instr::Srai { .. } => "srai",
        Instr::Addiw { .. } => "addiw",
        Instr::Slliw { .. } => "slliw",
        Instr::Srliw { .. } => "srliw",
        Instr::Sraiw { .. } => "sraiw",
        Instr::Add { .. } => "add",
        Instr::Sub { .. } => "sub",
        Instr::Sll { .. } => "sll",
        Instr::Slt { .. } => "slt",
        Instr::Sltu { .. } => "sltu",
        Instr::Xor { .. } => "xor",
        Instr::Srl { .. } => "srl",
        Instr::Sra { .. } => "sra",
        Instr::Or { .. } => "or",
        Instr::And { .. } => "and",
        Instr::Addw { .. } => "addw",
        Instr::Subw { .. } => "subw",
        Instr::Sllw { .. } => "sllw",
        Instr::Srlw { .. } => "srlw",
        Instr::Sraw { .. } => "sraw",
        Instr::Fence { .. } => "fence",
        Instr::FenceI { .. } => "fence.i",
        Instr::Mul { .. } => "mul",
        Instr::Mulh { .. } => "mulh",
        Instr::Mulhsu { .. } => "mulhsu",
        Instr::Mulhu { .. } => "mulhu",
        Instr::Div { .. } => "div",
        Instr::Divu { .. } => "divu",
        Instr::Rem { .. } => "rem",
        Instr::Remu { .. } => "remu",
        Instr::Mulw { .. } => "mulw",
        Instr::Divw { .. } => "divw",
        Instr::Divuw { .. } => "divuw",
        Instr::Remw { .. } => "remw",
        Instr::Remuw { .. } => "remuw",
        Instr::LrW { .. } => "lr.w",
        Instr::LrD { .. } => "lr.d",
        Instr::ScW { .. } => "sc.w",
        Instr::ScD { .. } => "sc.d",
        Instr::AmoSwapW { .. } => "amoswap.w",
        Instr::AmoSwapD { .. } => "amoswap.d",
        Instr::AmoAddW { .. } => "amoadd.w",
        Instr::AmoAddD { .. } => "amoadd.d",
        Instr::AmoXorW { .. } => "amoxor.w",
        Instr::AmoXorD { .. } => "amoxor.d",
        Instr::AmoAndW { .. } => "amoand.w",
        Instr::AmoAndD { .. } => "amoand.d",
        Instr::AmoOrW { .. } => "amoor.w",
        Instr::AmoOrD { .. } => "amoor.d",
        Instr::AmoMinW { .. } => "amomin.w",
        Instr::AmoMinD { .. } => "amomin.d",
        Instr::AmoMaxW { .. } => "amomax.w",
        Instr::AmoMaxD { .. } => "amomax.d",
        Instr::AmoMinuW { .. } => "amominu.w",
        Instr::AmoMinuD { .. } => "amominu.d",
        Instr::AmoMaxuW { .. } => "amomaxu.w",
        Instr::AmoMaxuD { .. } => "amomaxu.d",
        Instr::Csrrw { .. } => "csrrw",
        Instr::Csrrs { .. } => "csrrs",
        Instr::Csrrc { .. } => "csrrc",
        Instr::Csrrwi { .. } => "csrrwi",
        Instr::Csrrsi { .. } => "csrrsi",
        Instr::Csrrci { .. } => "csrrci",
        Instr::Ecall => "ecall",
        Instr::Ebreak => "ebreak",
        Instr::Mret => "mret",
        Instr::Wfi => "wfi",
    }
}

/// The parts of the rows that stand for the formats, as numbers in the order of their fields; none of another row.
fn parts_of(instr: Instr) -> [u32; 4] {
    match instr {
        Instr::Auipc { rd, imm } => [u32::from(rd), imm, 0, 0],
        Instr::Jal { rd, offset } => [u32::from(rd), offset, 0, 0],
        Instr::Bne { rs1, rs2, offset } | Instr::Blt { rs1, rs2, offset } => {
            [u32::from(rs1), u32::from(rs2), offset, 0]
        }
        Instr::Lb { rd, rs1, imm } => [u32::from(rd), u32::from(rs1), imm, 0],
        Instr::Sd { rs1, rs2, imm } => [u32::from(rs1), u32::from(rs2), imm, 0],
        Instr::Srai { rd, rs1, shamt } | Instr::Sraiw { rd, rs1, shamt } => {
            [u32::from(rd), u32::from(rs1), u32::from(shamt), 0]
        }
        Instr::Mulhsu { rd, rs1, rs2 } => [u32::from(rd), u32::from(rs1), u32::from(rs2), 0],
        Instr::Fence { word } => [word, 0, 0, 0],
        Instr::LrD { rd, rs1, ordering } => {
            [u32::from(rd), u32::from(rs1), u32::from(ordering), 0]
        }
        Instr::AmoMaxuW {
            rd,
            rs1,
            rs2,
            ordering,
        } => [
            u32::from(rd),
            u32::from(rs1),
            u32::from(rs2),
            u32::from(ordering),
        ],
        Instr::Csrrw { rd, rs1, csr } => [u32::from(rd), u32::from(rs1), u32::from(csr), 0],
        Instr::Csrrwi { rd, uimm, csr } => [u32::from(rd), u32::from(uimm), u32::from(csr), 0],
        _ => [0; 4],
    }
}

#[test]
fn reads_the_parts_of_each_format(rt: HostRuntime) {
    let rows = [
        (0xffffff97, [31, 0xfffff, 0, 0]),
        (0x800002ef, [5, 0x100000, 0, 0]),
        (0x7fe29fe3, [5, 30, 0xffe, 0]),
        (0xffe2cce3, [5, 30, 0x1ff8, 0]),
        (0x800a8503, [10, 21, 0x800, 0]),
        (0xfe713023, [2, 7, 0xfe0, 0]),
        (0x43f25193, [3, 4, 63, 0]),
        (0x41f2519b, [3, 4, 31, 0]),
        (0x02e6a633, [12, 13, 14, 0]),
        (0x0310000f, [0x0310000f, 0, 0, 0]),
        (0x160432af, [5, 8, 3, 0]),
        (0xe5e422af, [5, 8, 30, 2]),
        (0x30529573, [10, 5, 0x305, 0]),
        (0xffffd573, [10, 31, 0xfff, 0]),
    ];
    for (word, parts) in rows {
        match decode(word) {
            Some(instr) => assert_eq!(rt; parts_of(instr), parts, "at {word}"),
            None => assert!(rt; false, "at {word}"),
        }
    }
}

#[test]
fn reads_upper_jumps_and_branches(rt: HostRuntime) {
    expect(
        &rt,
        &[
            (0x100002b7, "lui"),
            (0xffffff97, "auipc"),
            (0x800002ef, "jal"),
            (0x7ffff2ef, "jal"),
            (0xfffff0ef, "jal"),
            (0x001000ef, "jal"),
            (0x00008067, "jalr"),
            (0x81e28063, "beq"),
            (0x7fe29fe3, "bne"),
            (0xffe2cce3, "blt"),
            (0x01e2d0e3, "bge"),
            (0x81e2e163, "bltu"),
            (0x01e2ff63, "bgeu"),
        ],
    );
}

#[test]
fn reads_loads_and_stores(rt: HostRuntime) {
    expect(
        &rt,
        &[
            (0x800a8503, "lb"),
            (0x7ffa9503, "lh"),
            (0x000aa503, "lw"),
            (0xff8ab503, "ld"),
            (0x001ac503, "lbu"),
            (0xfffad503, "lhu"),
            (0x020ae503, "lwu"),
            (0x80710023, "sb"),
            (0x7e711fa3, "sh"),
            (0x00712fa3, "sw"),
            (0xfe713023, "sd"),
        ],
    );
}

#[test]
fn reads_immediates(rt: HostRuntime) {
    expect(
        &rt,
        &[
            (0x04148313, "addi"),
            (0xfff4a313, "slti"),
            (0x0014b313, "sltiu"),
            (0x8004c313, "xori"),
            (0x7ff4e313, "ori"),
            (0xffe4f313, "andi"),
            (0x02121193, "slli"),
            (0x02025193, "srli"),
            (0x43f25193, "srai"),
            (0xfff4041b, "addiw"),
            (0x0052119b, "slliw"),
            (0x0102519b, "srliw"),
            (0x41f2519b, "sraiw"),
        ],
    );
}

#[test]
fn reads_registers_and_fences(rt: HostRuntime) {
    expect(
        &rt,
        &[
            (0x00e68633, "add"),
            (0x40e68633, "sub"),
            (0x00e69633, "sll"),
            (0x00e6a633, "slt"),
            (0x00e6b633, "sltu"),
            (0x00e6c633, "xor"),
            (0x00e6d633, "srl"),
            (0x40e6d633, "sra"),
            (0x00e6e633, "or"),
            (0x00e6f633, "and"),
            (0x00e6863b, "addw"),
            (0x40e6863b, "subw"),
            (0x00e6963b, "sllw"),
            (0x00e6d63b, "srlw"),
            (0x40e6d63b, "sraw"),
            (0x0ff0000f, "fence"),
            (0x0310000f, "fence"),
            (0x0000100f, "fence.i"),
        ],
    );
}

#[test]
fn reads_products_and_quotients(rt: HostRuntime) {
    expect(
        &rt,
        &[
            (0x02e68633, "mul"),
            (0x02e69633, "mulh"),
            (0x02e6a633, "mulhsu"),
            (0x02e6b633, "mulhu"),
            (0x02e6c633, "div"),
            (0x02e6d633, "divu"),
            (0x02e6e633, "rem"),
            (0x02e6f633, "remu"),
            (0x02e6863b, "mulw"),
            (0x02e6c63b, "divw"),
            (0x02e6d63b, "divuw"),
            (0x02e6e63b, "remw"),
            (0x02e6f63b, "remuw"),
        ],
    );
}

#[test]
fn reads_atomics(rt: HostRuntime) {
    expect(
        &rt,
        &[
            (0x100422af, "lr.w"),
            (0x1be422af, "sc.w"),
            (0x0de422af, "amoswap.w"),
            (0x07e422af, "amoadd.w"),
            (0x21e422af, "amoxor.w"),
            (0x63e422af, "amoand.w"),
            (0x45e422af, "amoor.w"),
            (0x87e422af, "amomin.w"),
            (0xa1e422af, "amomax.w"),
            (0xc3e422af, "amominu.w"),
            (0xe5e422af, "amomaxu.w"),
            (0x160432af, "lr.d"),
            (0x19e432af, "sc.d"),
            (0x0be432af, "amoswap.d"),
            (0x05e432af, "amoadd.d"),
            (0x27e432af, "amoxor.d"),
            (0x61e432af, "amoand.d"),
            (0x43e432af, "amoor.d"),
            (0x85e432af, "amomin.d"),
            (0xa7e432af, "amomax.d"),
            (0xc1e432af, "amominu.d"),
            (0xe3e432af, "amomaxu.d"),
        ],
    );
}

#[test]
fn reads_system(rt: HostRuntime) {
    expect(
        &rt,
        &[
            (0x30529573, "csrrw"),
            (0xf1402573, "csrrs"),
            (0x300fb573, "csrrc"),
            (0xffffd573, "csrrwi"),
            (0x30046573, "csrrsi"),
            (0x0000f573, "csrrci"),
            (0x00000073, "ecall"),
            (0x00100073, "ebreak"),
            (0x30200073, "mret"),
            (0x10500073, "wfi"),
        ],
    );
}

#[test]
fn reads_words_of_programs(rt: HostRuntime) {
    expect(
        &rt,
        &[
            (0x04100313, "addi"),
            (0x00628023, "sb"),
            (0x001002b7, "lui"),
            (0x00005337, "lui"),
            (0x55530313, "addi"),
            (0x0062a023, "sw"),
            (0x0000006f, "jal"),
            (0x002000ef, "jal"),
            (0x00002283, "lw"),
        ],
    );
}

#[test]
fn refuses_other_words(rt: HostRuntime) {
    let words = [
        0x0000_0000,
        0xffff_ffff,
        0x0400_0033,
        0x0200_103b, // the W form that MULH doesn't have
        0x1010_202f, // LR.W with rs2
        0x1010_302f, // LR.D with rs2
        0x2800_202f, // no funct5
        0x0000_002f, // AMOADD of a byte
        0x0000_00f3, // ECALL with rd
        0x1020_0073, // SRET
        0x1200_0073, // SFENCE.VMA
        0x3000_4073,
        0x4402_5193, // SRAI with bit 26 set
        0x0402_1193, // SLLI with bit 26 set
        0x0202_119b, // SLLIW by 32
        0x0000_201b,
        0x0000_2063,
        0x0000_7003,
        0x0000_4023,
        0x0000_1067,
        0x4000_1033, // SLL with the funct7 of SUB
        0x0000_203b,
        0x0000_200f,
    ];
    for word in words {
        assert!(rt; decode(word).is_none(), "at {word}");
    }
}
