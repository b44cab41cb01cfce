//! Requests to the services, with their tags.

ghost use Rattle.std.specs.Prelude.{◌≡◌, ◌≢◌, ◌+◌, ◌%◌, ◌^◌, Some};
ghost use Rattle.tv_items.specs.Fits.{way_of};
ghost use Rattle.tv_items.specs.declared.action.Way.TheVariants.{Outside};
ghost use Rattle.tv_proxy.specs.Messages as spec;

use std::marker::Model;
use tv_items::Action;
use tv_wire::Msg;

/// Counts the requests that a worker makes of the memory service and the interrupt service together, modulo 2^32. Contracts
/// see that number, which is the tag of the next request.
#[derive(Drop)]
pub struct Requests {
    made: u32,
}

impl Model for Requests {
    ghost use Rattle.std.specs.Prelude.{ℕ};

    ghost Value = { ℕ };

    ghost view = { λ r. r.made };
}

impl Requests {
    /// None was made.
    pub fn new() -> Requests
        ensures { result ≡ 0 }
    {
        Requests { made: 0 }
    }

    /// The request of an action that a service does.
    pub fn make(&mut self, action: &Action) -> Msg
        requires { way_of action.now ≢ Outside }
        ensures message { Some result ≡ spec.request_message self.old action.now }
        ensures counted { self.new ≡ (self.old + 1) % 2 ^ 32 }
    {
        let tag = self.made;
        self.made = tag.wrapping_add(1);
        request_message(tag, action)
    }
}

fn request_message(tag: u32, action: &Action) -> Msg
    requires { way_of action.now ≢ Outside }
    ensures { Some result ≡ spec.request_message tag action.now }
{
    match action {
        Action::Read { addr, len } => Msg::Read {
            tag,
            addr: *addr,
            len: *len,
        },
        Action::Write { addr, bytes } => Msg::Write {
            tag,
            addr: *addr,
            bytes: bytes.copy(),
        },
        Action::Release { page, hold } => Msg::Release {
            tag,
            page: *page,
            hold: *hold,
        },
        Action::Regain { page } => Msg::Regain { tag, page: *page },
        Action::Raise => Msg::Raise { tag },
        _ => unreachable!(),
    }
}

#[cfg(test)]
mod tests {
    use super::Requests;
    use std::test::Fail;
    use tv_items::{Action, Bytes};
    use tv_wire::Msg;

    #[test]
    fn the_tags_of_requests_count_both_services_and_wrap(rt: HostRuntime) -> Result<(), Fail> {
        let mut requests = Requests::new();
        for tag in 0..3u32 {
            assert!(rt;
                matches!(requests.make(&Action::Raise), Msg::Raise { tag: found } if found == tag)
            );
        }
        let read = requests.make(&Action::Read { addr: 8, len: 9 });
        assert!(rt;
            matches!(
                read,
                Msg::Read {
                    tag: 3,
                    addr: 8,
                    len: 9
                }
            )
        );
        let release = requests.make(&Action::Release {
            page: 10,
            hold: true,
        });
        assert!(rt;
            matches!(
                release,
                Msg::Release {
                    tag: 4,
                    page: 10,
                    hold: true
                }
            )
        );
        let regain = requests.make(&Action::Regain { page: 11 });
        assert!(rt; matches!(regain, Msg::Regain { tag: 5, page: 11 }));
        let write = requests.make(&Action::Write {
            addr: 12,
            bytes: Bytes::of(&[13, 14]),
        });
        match write {
            Msg::Write { tag, addr, bytes } => {
                assert_eq!(rt; (tag, addr), (6, 12));
                assert_eq!(rt; bytes.as_slice(), [13, 14].as_slice());
            }
            _ => return Err(Fail::from("no write")),
        }
        let mut last = Requests { made: u32::MAX };
        assert!(rt; matches!(last.make(&Action::Raise), Msg::Raise { tag: u32::MAX }));
        assert!(rt; matches!(last.make(&Action::Raise), Msg::Raise { tag: 0 }));
        Ok(())
    }
}
