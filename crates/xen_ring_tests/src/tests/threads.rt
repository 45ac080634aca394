//! Two threads at the bits of one word.

use std::test::Fail;
use std::thread;
use xen_ring::{Port, Ports};

// Sends to a masked port, then takes it unmasked, `times` times, and counts how often that went well.
fn rounds(ports: &Ports, port: Port, times: u32) -> u32 {
    let mut well: u32 = 0;
    for _time in 0..times {
        ports.mask(port);
        ports.notify(port);
        let early = ports.take(port);
        ports.unmask(port);
        if !early && ports.take(port) {
            well = well.saturating_add(1);
        }
    }
    well
}

#[test]
fn each_bit_changes_in_one_step(rt: HostRuntime) -> Result<(), Fail> {
    let ports = Ports::new();
    let first = Port::of(3).ok_or("port 3")?;
    let second = Port::of(4).ok_or("port 4")?;
    let shared = &ports;
    let well = thread::join(
        &rt,
        || rounds(shared, first, 200_000),
        || rounds(shared, second, 200_000),
    );
    assert_eq!(rt; well, (200_000, 200_000));
    Ok(())
}
