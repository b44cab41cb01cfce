//! Reads that go on after an interruption.

ghost use Rattle.std.specs.Prelude.{◌≤◌, IfOk, length};

use crate::RETRIES;
use std::io::{ErrorKind, Read};
use tv_base::Failed;

/// Reads once, and again after an interruption.
pub fn read_some<F: Read>(file: &mut F, out: &mut [u8]) -> Result<usize, Failed>
    ensures { IfOk result (λ count. count ≤ length out.old) }
{
    for _ in 0..RETRIES {
        match file.read(out) {
            Ok(count) => return Ok(count),
            Err(error) => {
                if error.kind() != ErrorKind::Interrupted {
                    return Err(Failed);
                }
            }
        }
    }
    Err(Failed)
}

/// Reads until the slice is full; a file that ends before has failed.
pub fn read_whole<F: Read>(file: &mut F, out: &mut [u8]) -> Result<(), Failed> {
    let mut filled = 0;
    for _ in 0..out.len() {
        if filled == out.len() {
            break;
        }
        let more = read_some(file, &mut out[filled..])?;
        if more == 0 {
            return Err(Failed);
        }
        filled += more;
    }
    Ok(())
}
