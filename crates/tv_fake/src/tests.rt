//! The objects at work, with values worked out by hand.

use super::*;
use std::test::Fail;
use tv_base::Failed;
use tv_out::{Disk, Entropy, LoadFault, Short, Sink, Source, Store, put_all};

/// A list of the system's allocator.
fn list<T: Copy>(rt: &impl AllocGlobal, items: &[T]) -> Result<Vec<T>, Fail> {
    Ok(Vec::from_slice(rt.alloc(), items)?)
}

#[test]
fn a_sink_takes_what_fits(rt: HostRuntime) -> Result<(), Fail> {
    let mut sink = MemorySink::new(rt.alloc(), 8, list(&rt, &[1])?)?;
    for (piece, answer) in [
        (b"hello", Ok(())),
        (b"never", Err(Short { taken: 0 })),
        (b"world", Err(Short { taken: 3 })),
        (b"again", Err(Short { taken: 0 })),
    ] {
        assert_eq!(rt; sink.put(piece), answer);
    }
    assert_eq!(rt; sink.as_slice(), b"hellowor".as_slice());
    assert_eq!(rt; sink.faults(), 3);
    Ok(())
}

/// How much of 5000 bytes goes out, of which the put with this number fails, and how many faults the sink counts then.
fn taken_of_5000(
    rt: &impl AllocGlobal,
    room: usize,
    failing: u64,
) -> Result<(Result<(), Failed>, usize, u64), Fail> {
    let mut sink = MemorySink::new(rt.alloc(), room, list(rt, &[failing])?)?;
    let answer = put_all(&mut sink, &[7; 5000]);
    Ok((answer, sink.as_slice().len(), sink.faults()))
}

#[test]
fn bytes_go_out_in_pieces_up_to_a_failure(rt: HostRuntime) -> Result<(), Fail> {
    for (room, failing, went) in [
        (5000, 2, (Ok(()), 5000, 0)),
        (5000, 1, (Err(Failed), 4096, 1)),
        (5000, 0, (Err(Failed), 0, 1)),
        (4999, 2, (Err(Failed), 4999, 1)),
        (4095, 2, (Err(Failed), 4095, 1)),
    ] {
        assert_eq!(rt; taken_of_5000(&rt, room, failing)?, went);
    }
    Ok(())
}

#[test]
fn a_source_gives_its_bytes_once(rt: HostRuntime) -> Result<(), Fail> {
    let mut source = MemorySource::new(list(&rt, b"abcde")?, list(&rt, &[1])?);
    let mut out = [0; 3];
    for (answer, bytes) in [
        (Ok(3), b"abc"),
        (Err(Failed), b"abc"),
        (Ok(2), b"dec"),
        (Ok(0), b"dec"),
    ] {
        assert_eq!(rt; source.take(&mut out), answer);
        assert_eq!(rt; out, *bytes);
    }
    assert_eq!(rt; source.faults(), 1);
    assert_eq!(rt; source.left().len(), 0);
    Ok(())
}

#[test]
fn random_bytes_end(rt: HostRuntime) -> Result<(), Fail> {
    let mut random = MemoryEntropy::new(list(&rt, &[1, 2, 3, 4])?, list(&rt, &[2])?);
    let mut out = [0; 3];
    assert_eq!(rt; random.fill(&mut out), Ok(()));
    assert_eq!(rt; out, [1, 2, 3]);
    assert_eq!(rt; random.fill(&mut out), Err(Failed));
    assert_eq!(rt; random.fill(&mut out[..1]), Err(Failed));
    assert_eq!(rt; random.fill(&mut out[..1]), Ok(()));
    assert_eq!(rt; out, [4, 2, 3]);
    assert_eq!(rt; random.faults(), 2);
    Ok(())
}

/// A sector of one byte again and again.
fn sector(byte: u8) -> [u8; 512] {
    [byte; 512]
}

/// The first byte of a sector, or none where the disk failed or lacks the sector.
fn first_byte(disk: &mut MemoryDisk, at: u32) -> Option<u8> {
    let mut out = sector(1);
    if at >= disk.sectors() || disk.read(at, &mut out).is_err() {
        return None;
    }
    Some(out[0])
}

/// Writes a sector of this byte; not done where the disk failed or lacks the sector.
fn is_written(disk: &mut MemoryDisk, at: u32, byte: u8) -> bool {
    at < disk.sectors() && disk.write(at, &sector(byte)).is_ok()
}

/// A disk of one sector of this byte, with room for two, of which the second call fails.
fn small_disk(rt: &impl AllocGlobal, byte: u8) -> Result<MemoryDisk, Fail> {
    Ok(MemoryDisk::new(rt.alloc(), &sector(byte), 2, list(rt, &[1])?)?)
}

#[test]
fn a_disk_changes_by_what_was_done(rt: HostRuntime) -> Result<(), Fail> {
    let mut disk = small_disk(&rt, 7)?;
    assert!(rt; is_written(&mut disk, 0, 8));
    assert!(rt; !is_written(&mut disk, 0, 9));
    assert_eq!(rt; first_byte(&mut disk, 0), Some(8));
    assert_eq!(rt; disk.set_len(3), Err(Failed));
    assert_eq!(rt; disk.set_len(2), Ok(()));
    assert_eq!(rt; first_byte(&mut disk, 1), Some(0));
    assert_eq!(rt; disk.flush(), Ok(()));
    assert_eq!(rt; disk.bytes().len(), 1024);
    assert_eq!(rt; disk.faults(), 2);
    Ok(())
}

/// A store with the names `a` and `b`, which has a file, a disk, a source and two sinks at `a`, and of which the first
/// call fails.
fn small_store(rt: &impl AllocGlobal) -> Result<MemoryStore, Fail> {
    let mut names = Vec::new(rt.alloc());
    names.push(String::from_str(rt.alloc(), "a")?)?;
    names.push(String::from_str(rt.alloc(), "b")?)?;
    let mut objects = Objects::new(rt.alloc());
    objects.files.push(at_a(rt, list(rt, b"file")?)?)?;
    objects.disks.push(at_a(rt, small_disk(rt, 7)?)?)?;
    let source = MemorySource::new(list(rt, b"in")?, Vec::new(rt.alloc()));
    objects.sources.push(at_a(rt, source)?)?;
    for room in [1, 2] {
        let sink = MemorySink::new(rt.alloc(), room, Vec::new(rt.alloc()))?;
        objects.sinks.push(at_a(rt, sink)?)?;
    }
    Ok(MemoryStore::new(rt.alloc(), names, objects, list(rt, &[0])?)?)
}

/// An object named `a`.
fn at_a<T: Drop>(rt: &impl AllocGlobal, object: T) -> Result<Named<T>, Fail> {
    Ok(Named::new(String::from_str(rt.alloc(), "a")?, object))
}

/// How many bytes a file has, of which there are to be at most `most`.
fn loaded(
    rt: &impl AllocGlobal,
    store: &mut MemoryStore,
    name: &str,
    most: usize,
) -> Result<usize, LoadFault> {
    match store.load(rt.alloc(), name, most) {
        Ok(bytes) => Ok(bytes.len()),
        Err(fault) => Err(fault),
    }
}

/// How much of three bytes goes to the next sink at `a`, if there is one.
fn taken_by_next(store: &mut MemoryStore) -> Option<u16> {
    let mut sink = store.create("a").ok()?;
    match sink.put(b"out") {
        Ok(()) => Some(3),
        Err(short) => Some(short.taken),
    }
}

#[test]
fn a_store_gives_its_objects_in_order(rt: HostRuntime) -> Result<(), Fail> {
    let mut store = small_store(&rt)?;
    for (name, most, answer) in [
        ("a", 4, Err(LoadFault::Failed)),
        ("a", 4, Ok(4)),
        ("a", 3, Err(LoadFault::TooLong)),
        ("b", 4, Err(LoadFault::Failed)),
        ("c", 4, Err(LoadFault::Failed)),
    ] {
        assert_eq!(rt; loaded(&rt, &mut store, name, most), answer, "{name}");
    }
    for taken in [Some(1), Some(2), None] {
        assert_eq!(rt; taken_by_next(&mut store), taken);
    }
    for (name, is_there) in [("b", false), ("a", true), ("a", false)] {
        assert_eq!(rt; store.open_disk(name, true).is_ok(), is_there);
        assert_eq!(rt; store.open_source(name).is_ok(), is_there);
    }
    for (name, faults) in [("a", 4), ("b", 3), ("d", 1)] {
        assert_eq!(rt; store.faults_at(name), faults, "{name}");
    }
    assert_eq!(rt; store.faults(), 8);
    Ok(())
}
