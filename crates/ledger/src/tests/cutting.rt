// Handles that are cut in two, and what their blocks have then.
use super::{count_up, holding};
use faults::Fault;

#[test]
fn a_piece_cut_off_rejoins(rt: HostRuntime) {
    let mut fixture = holding(&rt, &count_up::<10>(1));
    assert_eq!(rt; fixture.split_off(63, 4), Ok(62));
    assert_eq!(rt; fixture.len(63), Ok(4));
    assert_eq!(rt; fixture.capacity(63), Ok(4));
    assert_eq!(rt; fixture.len(62), Ok(6));
    assert_eq!(rt; fixture.capacity(62), Ok(60));
    assert_eq!(rt; fixture.try_unsplit(63, 62), Ok(true));
    assert_eq!(rt; fixture.len(63), Ok(10));
    assert_eq!(rt; fixture.capacity(63), Ok(64));
    assert_eq!(rt; fixture.read(63, 3, [99; 4]), Ok([4, 5, 6, 7]));
}

#[test]
fn a_piece_cut_behind_the_length_does_not(rt: HostRuntime) {
    let mut fixture = holding(&rt, &count_up::<10>(1));
    assert_eq!(rt; fixture.split_off(63, 20), Ok(62));
    assert_eq!(rt; fixture.len(63), Ok(10));
    assert_eq!(rt; fixture.capacity(63), Ok(20));
    assert_eq!(rt; fixture.len(62), Ok(0));
    assert_eq!(rt; fixture.capacity(62), Ok(44));
    assert_eq!(rt; fixture.try_unsplit(63, 62), Ok(false));
    assert_eq!(rt; fixture.capacity(62), Ok(44));
    assert_eq!(rt; fixture.release(62), Ok(()));
    assert_eq!(rt; fixture.try_reclaim(63, 11), Ok(Some(0)));
    assert_eq!(rt; fixture.capacity(63), Ok(21));
}

#[test]
fn an_advanced_handle_slides(rt: HostRuntime) {
    let mut fixture = holding(&rt, &count_up::<40>(1));
    assert_eq!(rt; fixture.advance(63, 24), Ok(()));
    assert_eq!(rt; fixture.try_reclaim(63, 24), Ok(Some(0)));
    assert_eq!(rt; fixture.capacity(63), Ok(40));
    assert_eq!(rt; fixture.try_reclaim(63, 48), Ok(Some(16)));
    assert_eq!(rt; fixture.capacity(63), Ok(64));
    assert_eq!(rt; fixture.try_reclaim(63, 49), Ok(None));
    assert_eq!(rt; fixture.read(63, 0, [99; 4]), Ok([25, 26, 27, 28]));
}

#[test]
fn a_handle_slides_once_the_front_is_released(rt: HostRuntime) {
    let mut fixture = holding(&rt, &count_up::<40>(1));
    assert_eq!(rt; fixture.split_to(63, 24), Ok(62));
    assert_eq!(rt; fixture.capacity(62), Ok(24));
    assert_eq!(rt; fixture.capacity(63), Ok(40));
    assert_eq!(rt; fixture.try_reclaim(63, 25), Ok(None));
    assert_eq!(rt; fixture.release(62), Ok(()));
    assert_eq!(rt; fixture.try_reclaim(63, 48), Ok(Some(16)));
    assert_eq!(rt; fixture.capacity(63), Ok(64));
    assert_eq!(rt; fixture.split(63), Ok(62));
    assert_eq!(rt; fixture.len(62), Ok(16));
    assert_eq!(rt; fixture.len(63), Ok(0));
    assert_eq!(rt; fixture.capacity(63), Ok(48));
}

#[test]
fn cuts_past_the_end_are_refused(rt: HostRuntime) {
    let mut fixture = holding(&rt, &count_up::<10>(1));
    let refused = Err(Fault::OutOfRange { row: 63 });
    assert_eq!(rt; fixture.split_off(63, 65), refused);
    assert_eq!(rt; fixture.split_to(63, 11), refused);
    assert_eq!(rt; fixture.split_off(63, 64), Ok(62));
    assert_eq!(rt; fixture.capacity(62), Ok(0));
    assert_eq!(rt; fixture.capacity(63), Ok(64));
}
