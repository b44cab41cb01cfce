//! Laws of the bytes of frames.

ghost use Rattle.std.specs.Prelude.{◌≡◌, ◌<◌, ◌++◌, ℕ, List, IsTrue, length};
ghost use Rattle.tv_ctl_wire.specs.Frames.{SpellsRequest, SpellsReply, is_known};
ghost use Rattle.tv_ctl_wire.specs.Reading.{reading, requests, replies};
ghost use Rattle.tv_ctl_wire.specs.declared.Cut.TheVariants as cut;
ghost use Rattle.tv_request.specs.declared.Request.{Request};
ghost use Rattle.tv_request.specs.declared.ReplyFrame.{ReplyFrame};

/// A request of an operation that has a meaning has one spelling.
pub fn one_spelling_of_a_request()
    ensures { (first second : List ℕ) (r : Request) → IsTrue (is_known r.op) → SpellsRequest first r → SpellsRequest second r → first ≡ second }
{}

/// A reply has one spelling.
pub fn one_spelling_of_a_reply()
    ensures { (first second : List ℕ) (r : ReplyFrame) → SpellsReply first r → SpellsReply second r → first ≡ second }
{}

/// Bytes spell one request at most.
pub fn one_request()
    ensures { (bytes : List ℕ) (r s : Request) → SpellsRequest bytes r → SpellsRequest bytes s → r ≡ s }
{}

/// Bytes spell one reply at most.
pub fn one_reply()
    ensures { (bytes : List ℕ) (r s : ReplyFrame) → SpellsReply bytes r → SpellsReply bytes s → r ≡ s }
{}

/// Each front of a request that isn't all of it is read as one that goes on. So no request begins another.
pub fn fronts_of_a_request_go_on()
    ensures { (frame front rest : List ℕ) (r : Request) → SpellsRequest frame r → frame ≡ front ++ rest → 0 < length rest → reading requests front ≡ cut.More }
{}

/// Each front of a reply that isn't all of it is read as one that goes on. So no reply begins another.
pub fn fronts_of_a_reply_go_on()
    ensures { (frame front rest : List ℕ) (r : ReplyFrame) → SpellsReply frame r → frame ≡ front ++ rest → 0 < length rest → reading replies front ≡ cut.More }
{}
