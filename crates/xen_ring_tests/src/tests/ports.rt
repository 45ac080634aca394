//! The bits of shared ports, of which no clause can speak.

use xen_ring::{Port, Ports};

fn shared<T: Sync>(shared: &T) -> &T {
    shared
}

/// The number of the port of this number, if there is one.
fn number(number: u32) -> Option<u32> {
    Some(Port::of(number)?.number())
}

#[test]
fn ports_are_numbered_to_63(rt: HostRuntime) {
    let found = [number(0), number(63), number(64), number(u32::MAX)];
    assert_eq!(rt; found, [Some(0), Some(63), None, None]);
}

/// Returns what is taken of a port before anything was sent, twice after two sends, and after another send.
fn merged() -> Option<(bool, [bool; 2], bool)> {
    let ports = Ports::new();
    let ports = shared(&ports);
    let port = Port::of(5)?;
    let before = ports.take(port);
    ports.notify(port);
    ports.notify(port);
    let merged = [ports.take(port), ports.take(port)];
    ports.notify(port);
    Some((before, merged, ports.take(port)))
}

#[test]
fn sends_merge_until_taken(rt: HostRuntime) {
    assert_eq!(rt; merged(), Some((false, [true, false], true)));
}

/// Returns what is taken of a port that is sent to while it is masked: twice while it is, twice once it isn't, and after it was
/// unmasked again.
fn masked() -> Option<([bool; 2], [bool; 2], bool)> {
    let ports = Ports::new();
    let port = Port::of(63)?;
    ports.mask(port);
    ports.notify(port);
    let masked = [ports.take(port), ports.take(port)];
    ports.unmask(port);
    let unmasked = [ports.take(port), ports.take(port)];
    ports.unmask(port);
    Some((masked, unmasked, ports.take(port)))
}

#[test]
fn a_masked_port_stays_pending(rt: HostRuntime) {
    // it is pending all the while, and unmasking sends nothing
    let wanted = ([false, false], [true, false], false);
    assert_eq!(rt; masked(), Some(wanted));
}

/// Returns whether a port that is sent to is the only one of which something is taken.
fn is_alone(ports: &Ports, port: Port) -> bool {
    ports.notify(port);
    for other in 0..64 {
        if let Some(other) = Port::of(other) {
            if ports.take(other) != (other == port) {
                return false;
            }
        }
    }
    true
}

/// Returns the number of ports that are alone, one after another.
fn alone() -> Option<u32> {
    let ports = Ports::new();
    for number in 0..64 {
        if !is_alone(&ports, Port::of(number)?) {
            return Some(number);
        }
    }
    Some(64)
}

/// Returns what is taken of two ports that are sent to, of which the second is masked.
fn open_and_masked() -> Option<[bool; 2]> {
    let ports = Ports::new();
    let masked = Port::of(0)?;
    let open = Port::of(32)?;
    ports.mask(masked);
    ports.notify(masked);
    ports.notify(open);
    Some([ports.take(open), ports.take(masked)])
}

#[test]
fn each_port_has_its_own_bits(rt: HostRuntime) {
    assert_eq!(rt; alone(), Some(64));
    // another port's mask keeps nothing back
    assert_eq!(rt; open_and_masked(), Some([true, false]));
}
