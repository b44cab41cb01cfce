//! What a line of control asks of a machine, and what it is answered.
#![tactic(auto)]

use tv_items::Stats;

/// A request. Which of its parts say something is told by its operation; the others are 0 (`IsRequest` of
/// `specs/Requests.antt`).
///
/// | Operation | What it asks | `device` | `value` |
/// |---|---|---|---|
/// | 1, 2, 3 | to stop, suspend or resume the machine | 0 | 0 |
/// | 4 | that a balloon hold so many pages | its slot | pages, below 2^32 |
/// | 5 | for the statistics of a balloon's guest | its slot | 0 |
/// | 6 | that a disk have so many bytes | its slot | bytes |
/// | others | nothing that is known | 0 | 0 |
#[derive(Clone, Copy, Debug, PartialEq, Eq)]
pub struct Request {
    pub op: u8,
    /// A number of the one who asks. The answer has it again.
    pub id: u64,
    pub device: u8,
    pub value: u64,
}

/// The answer to a request (`IsReply` of `specs/Requests.antt`).
#[derive(Drop)]
pub struct ReplyFrame {
    /// 0 where the request was done, else why it was not, at most 9.
    pub status: u8,
    /// The number of the request.
    pub id: u64,
    /// The number of the request that waits, where the status is 6; else 0.
    pub other: u64,
    /// The statistics that were asked for, where the status is 0; else none.
    pub stats: Option<Stats>,
}
