use super::*;
use bitflags::Flags;
use std::alloc::Global;
use std::test::Fail;
use tv_machine::{KeyText, MemRange};

/// The words of a fault and its key.
fn shown(fault: &FileFault) -> (&str, &str) {
    match fault {
        FileFault::NotToml => ("not toml", ""),
        FileFault::Unknown(key) => ("unknown", key.as_str()),
        FileFault::Missing(key) => ("missing", key.as_str()),
        FileFault::Kind(key) => ("kind", key.as_str()),
        FileFault::Range(key) => ("range", key.as_str()),
        FileFault::Twice(key) => ("twice", key.as_str()),
        FileFault::Overlap(key) => ("overlap", key.as_str()),
        FileFault::Memory => ("memory", ""),
    }
}

/// The machine file has this fault at this key.
fn is_told(alloc: Global, text: &str, rule: &str, key: &str) -> Result<(), Fail> {
    let Err(fault) = read(alloc, text.as_bytes()) else {
        return Err(Fail::from(text));
    };
    let (found_rule, found_key) = shown(&fault);
    if found_rule == rule && found_key == key {
        Ok(())
    } else {
        Err(Fail::from(text))
    }
}

#[test]
fn first_fault_is_told(rt: HostRuntime) -> Result<(), Fail> {
    let rows = [
        ("", "missing", "image"),
        ("image = 5", "kind", "image"),
        ("image = \"\"", "range", "image"),
        ("image = \"a\"\nram = 65537", "range", "ram"),
        ("image = \"a\"\nram = -4096", "range", "ram"),
        ("image = \"a\"\nram = 65536.0", "kind", "ram"),
        ("image = \"a\"\nvcpus = 1", "unknown", "vcpus"),
        ("ram = 1\nvcpus = 1\nb = 2", "unknown", "b"),
        ("image = \"a\"\nharts = 9", "range", "harts"),
        ("image = \"a\"\nharts = 0\nram = 1", "range", "ram"),
        ("image = \"a\"\nsteps = 100000001", "range", "steps"),
        (
            "image = \"a\"\njournal_entries = 0",
            "range",
            "journal_entries",
        ),
        (
            "image = \"a\"\njournal_bytes = 134217729",
            "range",
            "journal_bytes",
        ),
        ("image = \"a\"\ntube = 0", "range", "tube"),
        ("image = \"a\"\ncontrol = \"s\"", "kind", "control"),
        (
            "image = \"a\"\ncontrol = [\"a\", \"b\", \"c\", \"d\", 5]",
            "range",
            "control",
        ),
        ("image = \"a\"\ncontrol = [\"a\", 5]", "kind", "control.1"),
        (
            "image = \"a\"\ncontrol = [\"a\", \"b\", \"a\", \"\"]",
            "twice",
            "control.2",
        ),
        ("image = \"a\"\ncontrol = [\"\"]", "range", "control.0"),
        ("image = \"a\"\ndevice = 5", "kind", "device"),
        ("image = \"a\"\ndevice = [5]", "kind", "device.0"),
        (
            "image = \"a\"\ndevice = [5, 5, 5, 5, 5, 5, 5, 5, 5]",
            "range",
            "device",
        ),
        (
            "image = \"a\"\n[[device]]\nkind = \"gpu\"",
            "range",
            "device.0.kind",
        ),
        (
            "image = \"a\"\n[[device]]\nkind = \"block\"\noutput = 5",
            "range",
            "device.0.kind",
        ),
        (
            "image = \"a\"\n[[device]]\nkind = 5\nvendor = 1",
            "unknown",
            "device.0.vendor",
        ),
        (
            "image = \"a\"\n[[device]]\ndisk = 5",
            "missing",
            "device.0.kind",
        ),
        (
            "image = \"a\"\n[[device]]\nkind = true",
            "kind",
            "device.0.kind",
        ),
        ("image = ", "not toml", ""),
    ];
    for (text, rule, key) in rows {
        is_told(rt.alloc(), text, rule, key)?;
    }
    Ok(())
}

/// A machine file with two probes; more keys of the second one may follow.
const TWO_PROBES: &str =
    "image = \"a\"\nram = 65536\n[[device]]\nkind = \"probe\"\n[[device]]\nkind = \"probe\"\n";

#[test]
fn fault_of_a_device_is_told(rt: HostRuntime) -> Result<(), Fail> {
    let rows = [
        ("disk = \"d\"", "unknown", ".disk"),
        ("mem = 5", "kind", ".mem"),
        ("mem = [5]", "kind", ".mem.0"),
        ("mem = [5, 5, 5, 5, 5, 5, 5, 5, 5]", "range", ".mem"),
        ("mem = [{ len = 1 }]", "missing", ".mem.0.base"),
        ("mem = [{ base = 1.0, size = 1 }]", "unknown", ".mem.0.size"),
        ("mem = [{ base = 1.0, len = 1 }]", "kind", ".mem.0.base"),
        ("mem = [{ base = -1 }]", "missing", ".mem.0.len"),
        ("mem = [{ base = -1, len = 1 }]", "range", ".mem.0.len"),
        (
            "mem = [{ base = 0x80000000, len = 0 }]",
            "range",
            ".mem.0.len",
        ),
        (
            "mem = [{ base = 0x7fffffff, len = 1 }]",
            "range",
            ".mem.0.len",
        ),
        (
            "mem = [{ base = 0x8000ffff, len = 2 }]",
            "range",
            ".mem.0.len",
        ),
        (
            "mem = [{ base = 0x7fffffffffffffff, len = 0x7fffffffffffffff }]",
            "range",
            ".mem.0.len",
        ),
        (
            "mem = [{ base = 0x80000000, len = 1, rights = \"x\" }]",
            "range",
            ".mem.0.rights",
        ),
        (
            "mem = [{ base = 0x80000000, len = 1, rights = 3 }]",
            "kind",
            ".mem.0.rights",
        ),
        (
            "mem = [{ base = 0x80000100, len = 16 }, { base = 0x8000010f, len = 16, size = 1 }]",
            "overlap",
            ".mem.1",
        ),
        (
            "mem = [{ base = 0x80000100, len = 16 }, { base = 0x80000000, len = 257 }]",
            "overlap",
            ".mem.1",
        ),
        (
            "mem = [{ base = 0x80000100, len = 16 }, { base = 0x80000108, len = 0 }]",
            "range",
            ".mem.1.len",
        ),
        ("irq = 1", "kind", ".irq"),
        ("irq = 1\nmem = 5", "kind", ".mem"),
    ];
    for (text, rule, key) in rows {
        let Ok(file) = KeyText::joined(rt.alloc(), TWO_PROBES, text, "\n") else {
            return Err(Fail::from(text));
        };
        let Ok(path) = KeyText::joined(rt.alloc(), "device.1", key, "") else {
            return Err(Fail::from(text));
        };
        is_told(rt.alloc(), file.as_str(), rule, path.as_str())?;
    }
    Ok(())
}

#[test]
fn keys_are_read(rt: HostRuntime) -> Result<(), Fail> {
    let text = "image = \"a.bin\"\nharts = 2\nsteps = 100000000\njournal_entries = 8388608\n\
        control = [\"a.sock\", \"b.sock\"]\ndevice = []\n";
    let Ok(machine) = read(rt.alloc(), text.as_bytes()) else {
        return Err(Fail::from("refused"));
    };
    assert_eq!(rt; machine.image.as_str(), "a.bin");
    assert_eq!(rt; machine.ram, 0x100_0000);
    assert_eq!(rt; machine.harts, 2);
    assert_eq!(rt; machine.steps, 100_000_000);
    assert_eq!(rt; machine.journal_entries, 8_388_608);
    assert_eq!(rt; machine.journal_bytes, 67_108_864);
    assert_eq!(rt; machine.tube, 64);
    let lines = machine.control.as_slice();
    assert_eq!(rt; lines.len(), 2);
    assert_eq!(rt; lines[1].as_str(), "b.sock");
    assert!(rt; machine.device.as_slice().is_empty());
    assert!(rt; read(rt.alloc(), b"image = \"\xff\"").is_err());
    Ok(())
}

/// Whether the ranges are those of these bases, lengths and rights.
fn are_ranges(ranges: &[MemRange], rows: &[(u64, u32, u8)]) -> bool {
    if ranges.len() != rows.len() {
        return false;
    }
    for place in 0..rows.len() {
        let (base, len, rights) = rows[place];
        let range = &ranges[place];
        if range.base != base || range.len != len || range.rights.bits() != rights {
            return false;
        }
    }
    true
}

#[test]
fn devices_are_read(rt: HostRuntime) -> Result<(), Fail> {
    let text = "image = \"a\"\nram = 65536\n[[device]]\nkind = \"probe\"\n\
        [[device]]\nkind = \"probe\"\nmem = []\nirq = false\n\
        [[device]]\nkind = \"probe\"\nirq = true\nmem = [\n\
        { base = 0x80000100, len = 16, rights = \"w\" },\n\
        { base = 0x80000110, len = 0xfef0, rights = \"rw\" },\n\
        { base = 0x80000000, len = 256, rights = \"r\" }]\n";
    let Ok(machine) = read(rt.alloc(), text.as_bytes()) else {
        return Err(Fail::from("refused"));
    };
    let devices = machine.device.as_slice();
    assert_eq!(rt; devices.len(), 3);
    assert!(rt; are_ranges(devices[0].mem.as_slice(), &[(0x8000_0000, 65536, 3)]));
    assert!(rt; devices[0].irq && !devices[1].irq && devices[2].irq);
    assert!(rt; devices[1].mem.as_slice().is_empty());
    let rows = [
        (0x8000_0100, 16, 2),
        (0x8000_0110, 0xfef0, 3),
        (0x8000_0000, 256, 1),
    ];
    assert!(rt; are_ranges(devices[2].mem.as_slice(), &rows));
    Ok(())
}
