mod desk;

use crate::SeatLock;
use desk::{Desk, add_both, add_for_one_that_waits};
use std::test::Fail;

#[test]
fn two_threads_add_at_the_same_time(rt: HostRuntime) -> Result<(), Fail> {
    let desk = add_both(&rt, rt.alloc(), (3, 5), 200_000).ok_or("every amount fits")?;
    assert_eq!(rt; desk.sum(), 1_600_000);
    assert_eq!(rt; desk.len(), 400_000);
    assert_eq!(rt; (desk.len_of(1), desk.len_of(2)), (200_000, 200_000));
    Ok(())
}

#[test]
fn a_seat_that_waits_lets_another_in(rt: HostRuntime) -> Result<(), Fail> {
    let desk = add_for_one_that_waits(&rt, rt.alloc(), 7).ok_or("the amount fits")?;
    assert_eq!(rt; (desk.sum(), desk.len(), desk.len_of(2)), (7, 1, 1));
    Ok(())
}

#[test]
fn seats_are_numbered_as_they_are_split(rt: HostRuntime) -> Result<(), Fail> {
    let (lock, mut first) = SeatLock::new(rt.alloc(), Desk::new(rt.alloc()))?;
    let one = lock.split(&mut first);
    let two = lock.split(&mut first);
    assert_eq!(rt; [first.number(), one.number(), two.number()], [0, 1, 2]);
    Ok(())
}

#[test]
fn a_value_is_locked_again_once_it_is_empty(rt: HostRuntime) -> Result<(), Fail> {
    let mut desk = add_for_one_that_waits(&rt, rt.alloc(), 7).ok_or("the amount fits")?;
    desk.clear();
    let (lock, first) = SeatLock::new(rt.alloc(), desk)?;
    let seats = Vec::from_array(rt.alloc(), [first])?;
    assert_eq!(rt; lock.close(seats).len(), 0);
    Ok(())
}
