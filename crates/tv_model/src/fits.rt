//! Which replies answer which action.

ghost use Rattle.std.specs.Prelude.{◌↔◌, IsTrue};
ghost use Rattle.tv_items.specs.Fits.{BytesOrFailed, BytesOrRefused, DoneOrFailed, DoneOrRefused, DoneOrTaken, FewOrFailed, FitsAction};

use tv_items::{Action, Heard};

/// Whether a reply answers an action.
pub fn fits(action: &Action, heard: &Heard) -> bool
    ensures { IsTrue result ↔ FitsAction action.now heard.now }
{
    match action {
        Action::Read { len, .. } => bytes_or_refused(usize::from(*len), heard),
        Action::Write { .. } | Action::Release { .. } | Action::Regain { .. } | Action::Raise => {
            done_or_refused(heard)
        }
        Action::DiskRead { .. } => bytes_or_failed(512, heard),
        Action::DiskWrite { .. } | Action::Flush | Action::SetLen { .. } => done_or_failed(heard),
        Action::Put { bytes } => done_or_taken(bytes.as_slice().len(), heard),
        Action::Input { most } => few_or_failed(usize::from(*most), heard),
        Action::Random { len } => bytes_or_failed(usize::from(*len), heard),
    }
}

/// Whether it is done or refused.
fn done_or_refused(heard: &Heard) -> bool
    ensures { IsTrue result ↔ DoneOrRefused heard.now }
{
    match heard {
        Heard::Done | Heard::Refused => true,
        Heard::Bytes(_) | Heard::Failed | Heard::Taken(_) => false,
    }
}

/// Whether it is done or failed.
fn done_or_failed(heard: &Heard) -> bool
    ensures { IsTrue result ↔ DoneOrFailed heard.now }
{
    match heard {
        Heard::Done | Heard::Failed => true,
        Heard::Bytes(_) | Heard::Refused | Heard::Taken(_) => false,
    }
}

/// Whether it has so many bytes, or is refused.
fn bytes_or_refused(len: usize, heard: &Heard) -> bool
    ensures { IsTrue result ↔ BytesOrRefused len heard.now }
{
    match heard {
        Heard::Bytes(bytes) => bytes.as_slice().len() == len,
        Heard::Refused => true,
        Heard::Done | Heard::Failed | Heard::Taken(_) => false,
    }
}

/// Whether it has so many bytes, or failed.
fn bytes_or_failed(len: usize, heard: &Heard) -> bool
    ensures { IsTrue result ↔ BytesOrFailed len heard.now }
{
    match heard {
        Heard::Bytes(bytes) => bytes.as_slice().len() == len,
        Heard::Failed => true,
        Heard::Done | Heard::Refused | Heard::Taken(_) => false,
    }
}

/// Whether it has at most so many bytes, or failed.
fn few_or_failed(most: usize, heard: &Heard) -> bool
    ensures { IsTrue result ↔ FewOrFailed most heard.now }
{
    match heard {
        Heard::Bytes(bytes) => bytes.as_slice().len() <= most,
        Heard::Failed => true,
        Heard::Done | Heard::Refused | Heard::Taken(_) => false,
    }
}

/// Whether it is done, or at most so many bytes were taken.
fn done_or_taken(len: usize, heard: &Heard) -> bool
    ensures { IsTrue result ↔ DoneOrTaken len heard.now }
{
    match heard {
        Heard::Done => true,
        Heard::Taken(count) => usize::from(*count) <= len,
        Heard::Bytes(_) | Heard::Refused | Heard::Failed => false,
    }
}
