use super::{PLACE_BYTES, PLACES, Tube};
use std::test::Fail;
use tv_base::TUBE_MESSAGE_BYTES;

/// Adds a message of `n` bytes, each of them `byte`, and no more than a place has.
fn pushes(tube: &mut Tube, n: usize, byte: u8) -> bool {
    let message = [byte; PLACE_BYTES];
    tube.push(&message[..n.min(PLACE_BYTES)])
}

/// Whether the first message has `n` bytes, each of them `byte`; it is taken out.
fn pops(tube: &mut Tube, n: usize, byte: u8) -> bool {
    let mut out = [0xee; PLACE_BYTES];
    match tube.pop(&mut out) {
        Some(found) => found == n && out[..found].iter().all(|other| *other == byte),
        None => false,
    }
}

#[test]
fn messages_of_any_size_come_in_their_order(rt: HostRuntime) -> Result<(), Fail> {
    let mut tube = Tube::new(rt.alloc(), 2)?;
    assert!(rt; tube.push(&[1; TUBE_MESSAGE_BYTES]));
    assert!(rt; tube.push(&[2; 7]));
    assert!(rt; pops(&mut tube, TUBE_MESSAGE_BYTES, 1));
    assert!(rt; tube.push(&[3; TUBE_MESSAGE_BYTES]));
    assert!(rt; pops(&mut tube, 7, 2));
    assert!(rt; pops(&mut tube, TUBE_MESSAGE_BYTES, 3));
    assert_eq!(rt; tube.len(), 0);
    Ok(())
}

#[test]
fn a_push_is_refused_exactly_where_a_message_lies_in_every_place(
    rt: HostRuntime,
) -> Result<(), Fail> {
    for places in [1, 2, 5, PLACES] {
        let mut tube = Tube::new(rt.alloc(), places)?;
        for n in 0..places {
            assert_eq!(rt; tube.len(), n);
            assert!(rt;
                tube.push(&[(n % 251) as u8; PLACE_BYTES]),
                "{n} of {places}"
            );
        }
        assert!(rt; !tube.push(&[255]), "{places}");
        assert_eq!(rt; tube.len(), places);
        for n in 0..places {
            assert!(rt;
                pops(&mut tube, PLACE_BYTES, (n % 251) as u8),
                "{n} of {places}"
            );
        }
        let mut out = [0xee; PLACE_BYTES];
        assert_eq!(rt; tube.pop(&mut out), None);
        assert!(rt; out == [0xee; PLACE_BYTES]);
        assert_eq!(rt; tube.len(), 0);
    }
    Ok(())
}

#[test]
fn messages_go_round_the_end_of_the_memory(rt: HostRuntime) -> Result<(), Fail> {
    let sizes = [1, TUBE_MESSAGE_BYTES, 0, 2, PLACE_BYTES, 7, 4096];
    let mut tube = Tube::new(rt.alloc(), 3)?;
    assert!(rt; tube.push(&[0; 1]));
    assert!(rt; tube.push(&[1; TUBE_MESSAGE_BYTES]));
    for turn in 2..100 {
        assert!(rt; pushes(&mut tube, sizes[turn % 7], turn as u8), "{turn}");
        assert!(rt; !tube.push(&[255]), "{turn}");
        assert!(rt;
            pops(&mut tube, sizes[(turn - 2) % 7], (turn - 2) as u8),
            "{turn}"
        );
        assert_eq!(rt; tube.len(), 2);
    }
    Ok(())
}
