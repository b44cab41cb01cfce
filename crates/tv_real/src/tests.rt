//! The adapters over real files, in the system's folder for temporary ones.

use super::*;
use std::test::Fail;
use std::{env, fs, process};
use tv_out::{Disk, Entropy, LoadFault, Sink, Source, Store};

/// A path of this process's own for a temporary file.
fn path(rt: &HostRuntime, name: &str) -> Result<String, Fail> {
    let folder = env::temp_dir(rt)?;
    let id = process::id(rt.process());
    Ok(format!(in rt.alloc(); "{}/tv_real-{id}-{name}", folder.as_str())?)
}

/// How many bytes a file has, of which there are to be at most `most`.
fn loaded(
    rt: &HostRuntime,
    store: &mut FileStore<'_, HostRuntime>,
    name: &str,
    most: usize,
) -> Result<usize, LoadFault> {
    match store.load(rt.alloc(), name, most) {
        Ok(bytes) => Ok(bytes.len()),
        Err(fault) => Err(fault),
    }
}

/// Creates a file and puts bytes into it, if there are any.
fn is_put(store: &mut FileStore<'_, HostRuntime>, name: &str, bytes: &[u8]) -> bool {
    match store.create(name) {
        Ok(mut sink) => { bytes.is_empty() || (bytes.len() <= 4096 && sink.put(bytes).is_ok()) }
        Err(_) => false,
    }
}

/// How many bytes a source gives at once, at most 8, and how many after that; none where it failed.
fn taken(store: &mut FileStore<'_, HostRuntime>, name: &str) -> Option<(usize, usize)> {
    let mut source = store.open_source(name).ok()?;
    let first = source.take(&mut [0; 8]).ok()?;
    let second = source.take(&mut [0; 8]).ok()?;
    Some((first, second))
}

#[test]
fn files_are_created_loaded_and_taken(rt: HostRuntime) -> Result<(), Fail> {
    let name = path(&rt, "file")?;
    let mut store = FileStore::new(&rt);
    assert!(rt; is_put(&mut store, &name, b"hello"));
    assert_eq!(rt; loaded(&rt, &mut store, &name, 5), Ok(5));
    assert_eq!(rt; loaded(&rt, &mut store, &name, 4), Err(LoadFault::TooLong));
    assert_eq!(rt; taken(&mut store, &name), Some((5, 0)));
    assert!(rt; is_put(&mut store, &name, b""));
    assert_eq!(rt; loaded(&rt, &mut store, &name, 5), Ok(0));
    fs::remove_file(&rt, &name)?;
    assert_eq!(rt; loaded(&rt, &mut store, &name, 5), Err(LoadFault::Failed));
    for missing in [name.as_str(), "/"] {
        assert_eq!(rt; taken(&mut store, missing), None);
    }
    assert_eq!(rt; store.faults(), 3);
    Ok(())
}

/// The first and the last byte of a sector, or none where the disk failed or lacks the sector.
fn ends(disk: &mut impl Disk, at: u32) -> Option<(u8, u8)> {
    let mut out = [1; 512];
    if at >= disk.sectors() || disk.read(at, &mut out).is_err() {
        return None;
    }
    Some((out[0], out[511]))
}

/// Writes a sector of this byte; not done where the disk failed or lacks the sector.
fn is_written(disk: &mut impl Disk, at: u32, byte: u8) -> bool {
    at < disk.sectors() && disk.write(at, &[byte; 512]).is_ok()
}

/// Makes a disk one of three sectors, and writes the last; how many faults that made, or none where a call failed.
fn grown(store: &mut FileStore<'_, HostRuntime>, name: &str) -> Option<u64> {
    let mut disk = store.open_disk(name, false).ok()?;
    if disk.sectors() != 1 || disk.set_len(3).is_err() || !is_written(&mut disk, 2, 9) {
        return None;
    }
    disk.flush().ok()?;
    Some(disk.faults())
}

/// The first and the last bytes of three sectors, and how many faults a write of a disk that is opened for reading made.
fn looked_at(store: &mut FileStore<'_, HostRuntime>, name: &str) -> Option<([(u8, u8); 3], u64)> {
    let mut disk = store.open_disk(name, true).ok()?;
    let sectors = [
        ends(&mut disk, 0)?,
        ends(&mut disk, 1)?,
        ends(&mut disk, 2)?,
    ];
    if is_written(&mut disk, 0, 5) || ends(&mut disk, 3).is_some() {
        return None;
    }
    Some((sectors, disk.faults()))
}

#[test]
fn a_file_is_a_disk_of_whole_sectors(rt: HostRuntime) -> Result<(), Fail> {
    let name = path(&rt, "disk")?;
    // One sector of sevens, and a rest that is no sector.
    let bytes = vec![in rt.alloc(); 7; 1000]?;
    fs::write(&rt, &name, bytes.as_slice())?;
    let mut store = FileStore::new(&rt);
    assert_eq!(rt; grown(&mut store, &name), Some(0));
    assert_eq!(rt;
        looked_at(&mut store, &name),
        Some(([(7, 7), (0, 0), (9, 9)], 1))
    );
    fs::remove_file(&rt, &name)?;
    for missing in [name.as_str(), "/"] {
        assert!(rt; store.open_disk(missing, true).is_err());
    }
    assert_eq!(rt; store.faults(), 2);
    Ok(())
}

#[test]
fn random_bytes_come(rt: HostRuntime) -> Result<(), Fail> {
    let mut random = SystemEntropy::new(&rt);
    let mut out = [0; 32];
    assert_eq!(rt; random.fill(&mut out), Ok(()));
    assert!(rt; out.iter().any(|byte| *byte != 0));
    assert_eq!(rt; random.faults(), 0);
    Ok(())
}
