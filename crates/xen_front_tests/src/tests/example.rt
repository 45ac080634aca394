//! The example of docs/NETFRONT.md.

ghost use Rattle.std.specs.Prelude.{◌≡◌};
ghost use Rattle.xen_front.specs.Fronts.{wiring_of};

use crate::bench::Bench;
use std::process::Abort;
use std::test::Fail;
use xen_front::{Front, RxTurn};
use xen_page::ScriptBus;
use xen_ring::{Port, Ports};

/// A send, and the poll of its response.
fn assert_answered(rt: &impl Abort, front: &mut Front, bus: &mut ScriptBus, port: Port)
    requires front { (wiring_of front.old).frames ≡ 531 }
    requires bus { bus.old.frames ≡ 531 }
{
    let ports = Ports::new();
    assert_eq!(rt; front.send(b"fourteen bytes"), Ok(()));
    assert_eq!(rt; front.drive_front(bus, &ports), RxTurn::Idle);
    assert!(rt; ports.take(port), "the back has a notice");
    assert_eq!(rt; bus.accesses().len(), 11);

    assert_eq!(rt; front.poll(), Ok(()));
    assert_eq!(rt; front.drive_front(bus, &ports), RxTurn::Idle);
    assert_eq!(rt;
        front.statuses(),
        [1, 0, 0, 0],
        "the back's answer was OKAY"
    );
}

#[test]
fn a_packet_is_sent_and_answered(rt: HostRuntime) -> Result<(), Fail> {
    let port = Port::of(1).ok_or("a port")?;
    let bench = Bench::make(rt.alloc())?;
    let mut bus = ScriptBus::make(rt.alloc(), 531, &[1, 1, 0, 0, 0], 64)?;
    match bench.front(0) {
        Some(mut front) => assert_answered(&rt, &mut front, &mut bus, port),
        None => return Err("no front".into()),
    }
    Ok(())
}
