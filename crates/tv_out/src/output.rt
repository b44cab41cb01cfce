//! Bytes of any number put to a sink, in pieces.

ghost use Rattle.std.specs.Prelude.{◌≡◌, ◌<◌, ◌≤◌, OnOk, OnErr, length};
ghost use Rattle.std.specs.Result.{is_err};
ghost use Rattle.tv_out.specs.Faults.{Rose, HasCause};
ghost use Rattle.tv_out.specs.Told.{appended, IsAllOut, IsCut, IsSteady};

use crate::Sink;
use tv_base::{Failed, PIECE_BYTES};

/// Puts bytes in pieces of up to 4096. Where there is no byte, nothing is put.
///
/// # Errors
/// `Failed` where the sink failed. A front of the bytes went out then, and no piece was put twice.
pub fn put_all<K: Sink>(sink: &mut K, bytes: &[u8]) -> Result<(), Failed>
    ensures all { OnOk result ((K.told sink.new).bytes ≡ appended (K.told sink.old).bytes bytes.now) }
    ensures steady { OnOk result (IsSteady (K.told sink.old) (K.told sink.new)) }
    ensures failed { OnErr result (Rose (K.told sink.old).faults (K.told sink.new).faults) }
    ensures cut { OnErr result (IsCut bytes.now (K.told sink.old).bytes (K.told sink.new).bytes) }
    ensures later { (K.told sink.old).faults ≤ (K.told sink.new).faults }
{
    let mut rest = bytes;
    while !rest.is_empty() {
        let (piece, later) = rest.split_at(rest.len().min(PIECE_BYTES));
        put_piece(sink, piece)?;
        rest = later;
    }
    Ok(())
}

/// Puts one piece.
#[tactic(auto, using(crate::proofs::Pieces::steady_put, crate::proofs::Pieces::cut_put))]
fn put_piece<K: Sink>(sink: &mut K, piece: &[u8]) -> Result<(), Failed>
    requires not_empty { 0 < length piece.now }
    requires fits { length piece.now ≤ 4096 }
    ensures all { OnOk result (IsAllOut piece.now (K.told sink.old) (K.told sink.new)) }
    ensures cut { OnErr result (IsCut piece.now (K.told sink.old).bytes (K.told sink.new).bytes) }
    ensures cause { HasCause (K.told sink.old).faults (K.told sink.new).faults (is_err result) }
{
    match sink.put(piece) {
        Ok(()) => Ok(()),
        Err(_) => Err(Failed),
    }
}
