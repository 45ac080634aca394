//! Two threads at one word of a page.

ghost use Rattle.std.specs.Prelude.{◌≤◌};

use std::test::Fail;
use std::thread;
use xen_page::{Bus, Frames, PageBus, Place};

const AT: Place = Place { frame: 0, word: 7 };

// Exchanges the word's number for the next one, `times` times.
fn count_up(frames: &Frames, times: u32) -> u32
    requires { 1 ≤ frames.now }
{
    let mut lost: u32 = 0;
    for _time in 0..times {
        let mut bus = PageBus::of(frames);
        let seen = bus.read(AT);
        if bus.cas(AT, seen, seen.wrapping_add(1)) != seen {
            lost = lost.saturating_add(1);
        }
    }
    lost
}

#[test]
fn an_exchange_is_one_step(rt: HostRuntime) -> Result<(), Fail> {
    let frames = Frames::make(rt.alloc(), &[0])?;
    let shared = &frames;
    let (one, two) = thread::join(
        &rt,
        || -> u32
            requires { 1 ≤ shared.now }
        { count_up(shared, 200_000) },
        || -> u32
            requires { 1 ≤ shared.now }
        { count_up(shared, 200_000) },
    );
    let mut bus = PageBus::of(&frames);
    let sum = bus.read(AT);
    let all: u32 = 400_000;
    assert_eq!(rt; sum, all.saturating_sub(one).saturating_sub(two));
    Ok(())
}
