use super::Csrs;
use std::test::Fail;
use tv_base::HartNo;

/// Every register of hart 3: its number, the value at the start, which a write of 0 gives too, and the value after a
/// write of all ones, while all lines are up. A refused write leaves the value at the start.
const TABLE: [[u64; 3]; 15] = [
    [0x300, 0x1800, 0x1888],
    [0x301, 0x8000_0000_0000_1101, 0x8000_0000_0000_1101],
    [0x304, 0, 0x888],
    [0x305, 0, 0xffff_ffff_ffff_fffc],
    [0x340, 0, 0xffff_ffff_ffff_ffff],
    [0x341, 0, 0xffff_ffff_ffff_fffc],
    [0x342, 0, 0xffff_ffff_ffff_ffff],
    [0x343, 0, 0xffff_ffff_ffff_ffff],
    [0x344, 0x888, 0x888],
    [0xb00, 0, 0xffff_ffff_ffff_ffff],
    [0xb02, 0, 0xffff_ffff_ffff_ffff],
    [0xf11, 0, 0],
    [0xf12, 0, 0],
    [0xf13, 0, 0],
    [0xf14, 3, 3],
];

/// The value of a register while no line is up, and 1 where there is none.
fn value(csrs: &Csrs, csr: u16) -> u64 {
    csrs.read(csr, 0).unwrap_or(1)
}

#[test]
fn each_register_keeps_what_its_row_says(rt: HostRuntime) -> Result<(), Fail> {
    for [number, at_start, kept] in TABLE {
        let csr = (number & 0xffff) as u16;
        let mut csrs = Csrs::new(HartNo::new(3).unwrap_or(HartNo::FIRST));
        assert_eq!(rt; csrs.read(csr, u64::MAX), Some(at_start), "{csr}");
        assert_eq!(rt; csrs.write(csr, u64::MAX), number < 0xf11, "{csr}");
        assert_eq!(rt; csrs.read(csr, u64::MAX), Some(kept), "{csr}");
        assert_eq!(rt; csrs.write(csr, 0), number < 0xf11, "{csr}");
        assert_eq!(rt; csrs.read(csr, u64::MAX), Some(at_start), "{csr}");
    }
    Ok(())
}

#[test]
fn numbers_without_a_register_are_refused(rt: HostRuntime) -> Result<(), Fail> {
    // sstatus, medeleg, mstatush, mcountinhibit, cycle, mconfigptr and neighbours of the table's numbers
    for csr in [
        0x100, 0x302, 0x303, 0x306, 0x310, 0x320, 0xb01, 0xb03, 0xc00, 0xf10, 0xf15,
    ] {
        let mut csrs = Csrs::new(HartNo::FIRST);
        assert!(rt; csrs.read(csr, 0).is_none() && !csrs.write(csr, 1));
    }
    Ok(())
}

#[test]
fn a_trap_is_entered_and_left(rt: HostRuntime) -> Result<(), Fail> {
    // MPIE takes MIE, which becomes 0; then MIE takes MPIE, which becomes 1
    for [before, inside, after] in [[0x8, 0x1880, 0x1888], [0x80, 0x1800, 0x1880]] {
        let mut csrs = Csrs::new(HartNo::FIRST);
        csrs.write(0x300, before);
        csrs.write(0x305, 0x8000_0101);
        let handler = csrs.enter(2, 0x3333, 0x8000_0010);
        let told = [0x300, 0x341, 0x342, 0x343].map(|csr| value(&csrs, csr));
        let back = csrs.mret();
        assert_eq!(rt; told, [inside, 0x8000_0010, 2, 0x3333]);
        assert_eq!(rt;
            [handler, back, value(&csrs, 0x300)],
            [0x8000_0100, 0x8000_0010, after]
        );
    }
    Ok(())
}

#[test]
fn the_external_interrupt_comes_first_and_the_timer_last(rt: HostRuntime) -> Result<(), Fail> {
    for [mstatus, mie, lines, cause] in [
        [0, 0x888, 0x888, 0],
        [8, 0x888, 0x888, 0x8000_0000_0000_000b],
        [8, 0x888, 0x088, 0x8000_0000_0000_0003],
        [8, 0x888, 0x080, 0x8000_0000_0000_0007],
        [8, 0x888, 0x777, 0],
        [8, 0x080, 0x808, 0],
    ] {
        let mut csrs = Csrs::new(HartNo::FIRST);
        csrs.write(0x300, mstatus);
        csrs.write(0x304, mie);
        assert_eq!(rt; csrs.pending(lines).unwrap_or(0), cause);
    }
    Ok(())
}

#[test]
fn counters_rise_unless_they_were_written(rt: HostRuntime) -> Result<(), Fail> {
    let mut csrs = Csrs::new(HartNo::FIRST);
    csrs.count(true, None);
    csrs.count(false, None);
    let counts = [value(&csrs, 0xb00), value(&csrs, 0xb02)];
    csrs.write(0xb00, u64::MAX);
    csrs.count(true, Some(0xb00));
    let after_one = [value(&csrs, 0xb00), value(&csrs, 0xb02)];
    csrs.count(true, Some(0xb02));
    let after_both = [value(&csrs, 0xb00), value(&csrs, 0xb02)];
    assert_eq!(rt;
        [counts, after_one, after_both],
        [[2, 1], [u64::MAX, 2], [0, 2]]
    );
    Ok(())
}
