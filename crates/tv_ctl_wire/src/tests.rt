//! Frames at each of their cuts.

ghost use Rattle.tv_request.specs.Requests.{IsRequest, IsReply};

use super::{Cut, FRAME_BYTES, read_reply, read_request, write_reply, write_request};
use std::test::Fail;
use tv_items::Stats;
use tv_request::{ReplyFrame, Request};

/// What is found at the front of bytes, in short.
#[derive(Clone, Copy, Debug, PartialEq, Eq)]
enum Found {
    Whole(usize),
    Bad,
    More,
}

fn request_in(bytes: &[u8]) -> Found {
    match read_request(bytes) {
        Cut::Whole(_, size) => Found::Whole(size),
        Cut::Bad => Found::Bad,
        Cut::More => Found::More,
    }
}

fn reply_in(bytes: &[u8]) -> Found {
    match read_reply(bytes) {
        Cut::Whole(_, size) => Found::Whole(size),
        Cut::Bad => Found::Bad,
        Cut::More => Found::More,
    }
}

/// Whether these bytes are written for the request and are read as it, each of their fronts goes on, and a byte behind them
/// is left.
fn is_spelt(request: &Request, frame: &[u8]) -> bool
    requires { IsRequest request.now }
{
    let mut out = [0xee; FRAME_BYTES];
    let size = write_request(request, &mut out);
    for n in 0..size {
        if request_in(&out[..n]) != Found::More {
            return false;
        }
    }
    let found = match read_request(frame) {
        Cut::Whole(found, _) => found == *request,
        Cut::Bad | Cut::More => false,
    };
    found
        && &out[..size] == frame
        && out[size..].iter().all(|byte| *byte == 0xee)
        && request_in(&out) == Found::Whole(size)
}

/// The same of a reply.
fn is_reply_spelt(reply: &ReplyFrame, frame: &[u8]) -> bool
    requires { IsReply reply.now }
{
    let mut out = [0xee; FRAME_BYTES];
    let size = write_reply(reply, &mut out);
    for n in 0..size {
        if reply_in(&out[..n]) != Found::More {
            return false;
        }
    }
    &out[..size] == frame
        && out[size..].iter().all(|byte| *byte == 0xee)
        && reply_in(&out) == Found::Whole(size)
}

/// Whether the bytes are read as a reply that has these parts.
fn reads(frame: &[u8], status: u8, id: u64, other: u64, numbers: &[(u16, u64)]) -> bool {
    match read_reply(frame) {
        Cut::Whole(reply, _) => {
            let same = match &reply.stats {
                Some(stats) => stats.as_slice() == numbers,
                None => numbers.is_empty(),
            };
            same && reply.status == status && reply.id == id && reply.other == other
        }
        Cut::Bad | Cut::More => false,
    }
}

#[test]
#[tactic(auto, unfolding(tv_request::specs::Requests::is_request))]
fn requests_at_each_cut(rt: HostRuntime) -> Result<(), Fail> {
    let suspend = Request {
        op: 2,
        id: 7,
        device: 0,
        value: 0,
    };
    assert!(rt; is_spelt(&suspend, &[0x0a, 0, 0, 0, 1, 2, 7, 0, 0, 0, 0, 0, 0, 0]));
    let balloon = Request {
        op: 4,
        id: 9,
        device: 3,
        value: 0x0102_0304,
    };
    assert!(rt;
        is_spelt(
            &balloon,
            &[0x0f, 0, 0, 0, 1, 4, 9, 0, 0, 0, 0, 0, 0, 0, 3, 4, 3, 2, 1]
        )
    );
    let statistics = Request {
        op: 5,
        id: 6,
        device: 2,
        value: 0,
    };
    assert!(rt;
        is_spelt(
            &statistics,
            &[0x0b, 0, 0, 0, 1, 5, 6, 0, 0, 0, 0, 0, 0, 0, 2]
        )
    );
    let resize = Request {
        op: 6,
        id: 1,
        device: 0,
        value: 1024,
    };
    assert!(rt;
        is_spelt(
            &resize,
            &[
                0x13, 0, 0, 0, 1, 6, 1, 0, 0, 0, 0, 0, 0, 0, 0, 0, 4, 0, 0, 0, 0, 0, 0
            ]
        )
    );
    let unknown = Request {
        op: 77,
        id: 9,
        device: 0,
        value: 0,
    };
    assert!(rt; is_spelt(&unknown, &[0x0a, 0, 0, 0, 1, 0x4d, 9, 0, 0, 0, 0, 0, 0, 0]));
    Ok(())
}

#[test]
fn no_requests(rt: HostRuntime) -> Result<(), Fail> {
    assert_eq!(rt; request_in(&[]), Found::More);
    assert_eq!(rt; request_in(&[9]), Found::More);
    assert_eq!(rt; request_in(&[9, 0]), Found::Bad);
    assert_eq!(rt; request_in(&[1, 0x10]), Found::Bad);
    assert_eq!(rt; request_in(&[0, 0x10]), Found::More);
    assert_eq!(rt; request_in(&[0x0a, 0, 1]), Found::Bad);
    assert_eq!(rt; request_in(&[0x0a, 0, 0, 0, 1]), Found::More);
    assert_eq!(rt; request_in(&[0x0a, 0, 0, 0]), Found::More);
    assert_eq!(rt; request_in(&[0x0a, 0, 0, 0, 2]), Found::Bad);
    assert_eq!(rt; request_in(&[0x0b, 0, 0, 0, 1]), Found::More);
    assert_eq!(rt; request_in(&[0x0b, 0, 0, 0, 1, 2]), Found::Bad);
    assert_eq!(rt; request_in(&[0x0b, 0, 0, 0, 1, 4]), Found::Bad);
    assert_eq!(rt; request_in(&[0x13, 0, 0, 0, 1, 5]), Found::Bad);
    assert_eq!(rt; request_in(&[0x0f, 0, 0, 0, 1, 6]), Found::Bad);
    assert_eq!(rt; request_in(&[0x0c, 0, 0, 0, 1, 0x4d]), Found::More);
    let mut longest = [0; FRAME_BYTES];
    longest[1] = 16;
    longest[4] = 1;
    longest[5] = 7;
    assert_eq!(rt; request_in(&longest), Found::Whole(FRAME_BYTES));
    assert_eq!(rt; request_in(&longest[..FRAME_BYTES - 1]), Found::More);
    Ok(())
}

#[test]
#[tactic(auto, unfolding(tv_request::specs::Requests::is_reply))]
fn replies_at_each_cut(rt: HostRuntime) -> Result<(), Fail> {
    let suspended = [0x0a, 0, 0, 0, 1, 0, 7, 0, 0, 0, 0, 0, 0, 0];
    let done = ReplyFrame {
        status: 0,
        id: 7,
        other: 0,
        stats: None,
    };
    assert!(rt; is_reply_spelt(&done, &suspended));
    assert!(rt; reads(&suspended, 0, 7, 0, &[]));
    let second = [
        0x12, 0, 0, 0, 1, 6, 6, 0, 0, 0, 0, 0, 0, 0, 5, 0, 0, 0, 0, 0, 0, 0,
    ];
    let waits = ReplyFrame {
        status: 6,
        id: 6,
        other: 5,
        stats: None,
    };
    assert!(rt; is_reply_spelt(&waits, &second));
    assert!(rt; reads(&second, 6, 6, 5, &[]));
    let refused = [0x0a, 0, 0, 0, 1, 9, 0, 0, 0, 0, 0, 0, 0, 0];
    let bad_frame = ReplyFrame {
        status: 9,
        id: 0,
        other: 0,
        stats: None,
    };
    assert!(rt; is_reply_spelt(&bad_frame, &refused));
    assert!(rt; reads(&refused, 9, 0, 0, &[]));
    let counted = [
        0x15, 0, 0, 0, 1, 0, 2, 0, 0, 0, 0, 0, 0, 0, 1, 4, 0, 9, 0, 0, 0, 0, 0, 0, 0,
    ];
    let mut stats = Stats::new();
    assert!(rt; stats.push(4, 9));
    let numbers = ReplyFrame {
        status: 0,
        id: 2,
        other: 0,
        stats: Some(stats),
    };
    assert!(rt; is_reply_spelt(&numbers, &counted));
    assert!(rt; reads(&counted, 0, 2, 0, &[(4, 9)]));
    Ok(())
}

#[test]
fn no_replies(rt: HostRuntime) -> Result<(), Fail> {
    assert_eq!(rt; reply_in(&[]), Found::More);
    assert_eq!(rt; reply_in(&[0]), Found::Bad);
    assert_eq!(rt; reply_in(&[0x0c]), Found::Bad);
    assert_eq!(rt; reply_in(&[5]), Found::More);
    assert_eq!(rt; reply_in(&[5, 0]), Found::Bad);
    assert_eq!(rt; reply_in(&[5, 1]), Found::More);
    assert_eq!(rt; reply_in(&[0x4b]), Found::More);
    assert_eq!(rt; reply_in(&[0x55, 1]), Found::Bad);
    assert_eq!(rt; reply_in(&[0x4b, 1]), Found::More);
    assert_eq!(rt; reply_in(&[0x0a, 0, 0, 0, 1]), Found::More);
    assert_eq!(rt; reply_in(&[0x0a, 0, 0, 0, 1, 0x0a]), Found::Bad);
    assert_eq!(rt; reply_in(&[0x12, 0, 0, 0, 1, 0]), Found::Bad);
    assert_eq!(rt; reply_in(&[0x0a, 0, 0, 0, 1, 6]), Found::Bad);
    assert_eq!(rt; reply_in(&[0x15, 0, 0, 0, 1, 3]), Found::Bad);
    assert_eq!(rt;
        reply_in(&[0x0b, 0, 0, 0, 1, 0, 1, 0, 0, 0, 0, 0, 0, 0]),
        Found::More
    );
    assert_eq!(rt;
        reply_in(&[0x0b, 0, 0, 0, 1, 0, 1, 0, 0, 0, 0, 0, 0, 0, 0]),
        Found::Whole(15)
    );
    assert_eq!(rt;
        reply_in(&[0x0b, 0, 0, 0, 1, 0, 1, 0, 0, 0, 0, 0, 0, 0, 1]),
        Found::Bad
    );
    Ok(())
}
