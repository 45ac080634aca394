//! Entries and their check.

use crate::bench::checked;
use std::alloc::Global;
use xen_page::{Entry, GrantFault, Rights};

#[test]
fn an_entry_has_its_fields_in_two_words(rt: HostRuntime) {
    let entry = Entry::of_words(0x1234_0019, 0xFFFF_FFFF);
    let fields = Entry {
        flags: 0x19,
        domid: 0x1234,
        frame: 0xFFFF_FFFF,
    };
    assert_eq!(rt; entry, fields);
    assert_eq!(rt; entry.words(), [0x1234_0019, 0xFFFF_FFFF]);
    let flags = [
        entry.permits_access(),
        entry.is_marked(),
        entry.is_readonly(),
    ];
    assert_eq!(rt; flags, [true, true, false]);
}

/// The two words of an entry and the rights that it is checked for, and the frame or the fault.
const CHECKS: [(u32, u32, Rights, Result<u32, GrantFault>); 19] = [
    (0, 19, Rights::ReadOnly, Err(GrantFault::BadGntref)),
    (0, 19, Rights::ReadWrite, Err(GrantFault::BadGntref)),
    (2, 19, Rights::ReadOnly, Err(GrantFault::BadGntref)),
    (3, 19, Rights::ReadOnly, Err(GrantFault::BadGntref)),
    (
        0x0002_0000,
        0,
        Rights::ReadWrite,
        Err(GrantFault::BadGntref),
    ),
    (
        0x0002_0001,
        19,
        Rights::ReadOnly,
        Err(GrantFault::PermissionDenied),
    ),
    (
        0x0001_0001,
        19,
        Rights::ReadOnly,
        Err(GrantFault::PermissionDenied),
    ),
    (
        0x0001_0001,
        0,
        Rights::ReadOnly,
        Err(GrantFault::PermissionDenied),
    ),
    (5, 19, Rights::ReadWrite, Err(GrantFault::PermissionDenied)),
    (5, 0, Rights::ReadWrite, Err(GrantFault::PermissionDenied)),
    (5, 19, Rights::ReadOnly, Ok(19)),
    (5, 0, Rights::ReadOnly, Err(GrantFault::BadPage)),
    (1, 0, Rights::ReadOnly, Err(GrantFault::BadPage)),
    (1, 20, Rights::ReadOnly, Err(GrantFault::BadPage)),
    (1, 0xFFFF_FFFF, Rights::ReadWrite, Err(GrantFault::BadPage)),
    (1, 19, Rights::ReadWrite, Ok(19)),
    (1, 1, Rights::ReadOnly, Ok(1)),
    (0x19, 19, Rights::ReadWrite, Ok(19)),
    (0xFFE1, 19, Rights::ReadWrite, Ok(19)),
];

#[test]
fn the_first_fault_is_answered(rt: HostRuntime) {
    for (a, b, rights, wanted) in CHECKS {
        let answer = checked(rt.alloc(), a, b, rights);
        assert!(rt; answer == Some(wanted), "{a} {b} {rights:?}");
    }
}

fn shows(alloc: Global, fault: GrantFault, text: &str) -> bool {
    fault
        .to_string(alloc)
        .is_ok_and(|shown| shown.as_str() == text)
}

#[test]
fn faults_have_their_numbers_and_texts(rt: HostRuntime) {
    let rows = [
        (
            GrantFault::BadGntref,
            -3,
            "no access is granted under this reference",
        ),
        (GrantFault::PermissionDenied, -8, "permission denied"),
        (
            GrantFault::BadPage,
            -9,
            "the granted frame isn't the granter's",
        ),
        (GrantFault::Eagain, -12, "the entry is in use"),
    ];
    for (fault, number, text) in rows {
        assert_eq!(rt; fault.number(), number);
        assert!(rt; shows(rt.alloc(), fault, text), "{text}");
    }
}
