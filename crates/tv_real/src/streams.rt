//! The numbers of the standard streams.

use std::fs;
use std::rt::Files;

/// Three files that are held open. Those that were opened while a standard stream was closed have its number.
#[derive(Drop)]
pub struct Streams<F> {
    held: [Option<F>; 3],
}

/// Takes the numbers of those standard streams that are closed, so that no file which is opened later gets one of them and
/// with it what is put to that stream. A put to a stream that was closed fails all the same. Where the root folder can't be
/// opened, nothing is taken.
pub fn hold_streams<R: Files>(rt: &R) -> Streams<R::File> {
    // The root folder is there on any system; it is opened for reading, so nothing can be put to it.
    Streams {
        held: [
            fs::open(rt, "/").ok(),
            fs::open(rt, "/").ok(),
            fs::open(rt, "/").ok(),
        ],
    }
}
