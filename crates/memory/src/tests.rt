ghost use Rattle.std.specs.Prelude.{◌≡◌, ◌<◌, length, slice_set};
ghost use Rattle.memory.specs.Layouts.{first_bytes};

use crate::fault::MemoryFault;
use crate::interface::Memory;
use crate::own::OwnMemory;
use crate::slice::SliceMemory;
use crate::window::Window;
use std::process::Abort;

fn fault(position: u32, size: u32, layers: u8) -> MemoryFault {
    MemoryFault {
        position,
        size,
        layers,
    }
}

// The last position holds a byte, and the next one is refused with this fault and changes nothing.
fn ends_at<M: Memory>(rt: &impl Abort, mem: &mut M, last: u32, past: MemoryFault) {
    assert_eq!(rt; mem.put(last, 7), Ok(()));
    assert_eq!(rt; mem.read(last), Ok(7));
    let next = last.saturating_add(1);
    assert_eq!(rt; mem.read(next), Err(past));
    assert_eq!(rt; mem.put(next, 9), Err(past));
    assert_eq!(rt; mem.read(last), Ok(7));
}

#[test]
fn own_memory_has_4096_zero_bytes(rt: HostRuntime) {
    let mut mem = OwnMemory::new();
    assert_eq!(rt; mem.size(), 4096);
    assert_eq!(rt; mem.read(0), Ok(0));
    assert_eq!(rt; mem.read(4095), Ok(0));
    ends_at(&rt, &mut mem, 4095, fault(4096, 4096, 0));
    assert_eq!(rt; mem.read(4294967295), Err(fault(4294967295, 4096, 0)));
}

#[test]
fn slice_memory_ends_with_its_slice(rt: HostRuntime) {
    let mut bytes = [1, 2, 3];
    let mut mem = SliceMemory::new(&mut bytes);
    assert_eq!(rt; mem.size(), 3);
    assert_eq!(rt; mem.read(0), Ok(1));
    ends_at(&rt, &mut mem, 2, fault(3, 3, 0));
}

#[test]
fn empty_slice_has_no_position(rt: HostRuntime) {
    let mut bytes: [u8; 0] = [];
    let mut mem = SliceMemory::new(&mut bytes);
    assert_eq!(rt; mem.size(), 0);
    assert_eq!(rt; mem.read(0), Err(fault(0, 0, 0)));
    assert_eq!(rt; mem.put(0, 1), Err(fault(0, 0, 0)));
}

// Puts one byte through a memory over the slice, which then holds it.
fn put_first(slice: &mut [u8], byte: u8)
    ensures { first_bytes slice.new ≡ slice_set (first_bytes slice.old) 0 byte }
{
    let mut mem = SliceMemory::new(slice);
    let _ = mem.put(0, byte);
}

#[test]
fn slice_ends_as_the_memory(rt: HostRuntime) {
    let mut bytes = [1, 2, 3];
    put_first(&mut bytes, 9);
    assert_eq!(rt; bytes[0], 9);
    assert_eq!(rt; bytes[1], 2);
}

#[test]
fn window_refuses_from_its_length_on(rt: HostRuntime) {
    let mut window = Window::new(OwnMemory::new(), 100, 10);
    assert_eq!(rt; window.size(), 10);
    ends_at(&rt, &mut window, 9, fault(10, 10, 0));
    let below = window.into_below();
    assert_eq!(rt; below.read(109), Ok(7));
    assert_eq!(rt; below.read(9), Ok(0));
    assert_eq!(rt; below.read(110), Ok(0));
}

#[test]
fn window_longer_than_what_is_below(rt: HostRuntime) {
    let mut window = Window::new(OwnMemory::new(), 4090, 10);
    assert_eq!(rt; window.size(), 6);
    ends_at(&rt, &mut window, 5, fault(4096, 4096, 1));
    assert_eq!(rt; window.read(10), Err(fault(10, 6, 0)));
}

#[test]
fn window_that_starts_past_the_memory_below(rt: HostRuntime) {
    let mut window = Window::new(OwnMemory::new(), 5000, 10);
    assert_eq!(rt; window.size(), 0);
    assert_eq!(rt; window.read(0), Err(fault(5000, 4096, 1)));
    assert_eq!(rt; window.put(9, 1), Err(fault(5009, 4096, 1)));
    assert_eq!(rt; window.read(10), Err(fault(10, 0, 0)));
}

#[test]
fn position_below_stops_at_the_last(rt: HostRuntime) {
    let window = Window::new(OwnMemory::new(), 4294967290, 100);
    assert_eq!(rt; window.read(5), Err(fault(4294967295, 4096, 1)));
    assert_eq!(rt; window.read(99), Err(fault(4294967295, 4096, 1)));
}

#[test]
fn three_windows_deep(rt: HostRuntime) {
    let two = Window::new(Window::new(OwnMemory::new(), 4000, 90), 10, 70);
    let mut three = Window::new(two, 20, 60);
    assert_eq!(rt; three.size(), 50);
    // Position 49 is 69 in the second window, 79 in the first and 4,079 at the bottom.
    ends_at(&rt, &mut three, 49, fault(70, 70, 1));
    assert_eq!(rt; three.read(60), Err(fault(60, 50, 0)));
    let two = three.into_below();
    assert_eq!(rt; two.read(69), Ok(7));
    let one = two.into_below();
    assert_eq!(rt; one.read(79), Ok(7));
    assert_eq!(rt; one.into_below().read(4079), Ok(7));
}

#[test]
fn bottom_fault_rises_through_three_windows(rt: HostRuntime) {
    let two = Window::new(Window::new(OwnMemory::new(), 4090, 100), 1, 50);
    let mut three = Window::new(two, 1, 40);
    assert_eq!(rt; three.size(), 4);
    ends_at(&rt, &mut three, 3, fault(4096, 4096, 3));
}

#[test]
fn layers_stop_at_255(rt: HostRuntime) {
    assert_eq!(rt; fault(1, 1, 0).raise(), fault(1, 1, 1));
    assert_eq!(rt; fault(1, 1, 254).raise(), fault(1, 1, 255));
    assert_eq!(rt; fault(1, 1, 255).raise(), fault(1, 1, 255));
}
