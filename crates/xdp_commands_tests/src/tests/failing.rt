use crate::tests::readers::{Drip, Endless, Full, Narrow, Unreadable};
use std::test::Fail;
use xdp_commands::{print_memory, run_words};

#[test]
fn ends_at_the_first_failed_write(rt: HostRuntime) -> Result<(), Fail> {
    let alloc = rt.alloc();
    let rows = [
        (
            "b7000000020000009500000000000000",
            "00ff",
            "action PASS number 2 instructions 2\npacket 00ff\n",
            0,
        ),
        ("9500000000000000", "00", "refused V7 at 0\n", 1),
        ("b7", "0", "words refused\n", 2),
    ];
    for (program, packet, text, status) in rows {
        let words = ["xdpbox", "exec", program, packet];
        for fails_at in 0..text.len() {
            let mut output = Narrow {
                held: Vec::new(alloc),
                fails_at,
            };
            assert_eq!(rt;
                run_words(&rt, alloc, &words, &mut Unreadable, &mut output),
                4
            );
            assert_eq!(rt; output.held.as_slice(), &text.as_bytes()[..fails_at]);
        }
        let mut output = Narrow {
            held: Vec::new(alloc),
            fails_at: 1_000,
        };
        assert_eq!(rt;
            run_words(&rt, alloc, &words, &mut Unreadable, &mut output),
            status
        );
        assert_eq!(rt; output.held.as_slice(), text.as_bytes());
        assert_eq!(rt;
            run_words(&rt, alloc, &words, &mut Unreadable, &mut Full),
            4
        );
    }
    Ok(())
}

#[test]
fn tells_want_of_memory(rt: HostRuntime) -> Result<(), Fail> {
    let mut output = Vec::new(rt.alloc());
    assert_eq!(rt; print_memory(&mut output), 3);
    assert_eq!(rt; output.as_slice(), b"memory\n".as_slice());
    assert_eq!(rt; print_memory(&mut Full), 4);
    Ok(())
}

const CHECK: [&str; 2] = ["xdpbox", "check"];

/// Settings, what is printed, and the status.
const CHECKED: [(&[u8], &str, u8); 3] = [
    (
        b"program = [\"b7000000020000009500000000000000\"]",
        "accepted, 2 instructions, 2 slots\n",
        0,
    ),
    (b"program = [\"9500000000000000\"]", "refused V7 at 0\n", 1),
    (b"program = []\nqueues = 9", "settings refused L4\n", 2),
];

#[test]
fn ends_at_the_first_failed_read(rt: HostRuntime) -> Result<(), Fail> {
    let alloc = rt.alloc();
    for (settings, text, status) in CHECKED {
        for fails_at in 0..=settings.len() {
            let mut output = Vec::new(alloc);
            let mut input = Drip {
                left: settings,
                fails_at,
            };
            assert_eq!(rt; run_words(&rt, alloc, &CHECK, &mut input, &mut output), 4);
            assert_eq!(rt; output.len(), 0);
            assert_eq!(rt; input.left, &settings[fails_at..]);
        }
        let mut output = Vec::new(alloc);
        let mut input = Drip {
            left: settings,
            fails_at: 1_000,
        };
        assert_eq!(rt;
            run_words(&rt, alloc, &CHECK, &mut input, &mut output),
            status
        );
        assert_eq!(rt; output.as_slice(), text.as_bytes());
    }
    Ok(())
}

#[test]
fn a_check_ends_at_the_first_failed_write(rt: HostRuntime) {
    let alloc = rt.alloc();
    for (settings, text, _) in CHECKED {
        for fails_at in 0..text.len() {
            let mut output = Narrow {
                held: Vec::new(alloc),
                fails_at,
            };
            let mut input = settings;
            assert_eq!(rt; run_words(&rt, alloc, &CHECK, &mut input, &mut output), 4);
            assert_eq!(rt; output.held.as_slice(), &text.as_bytes()[..fails_at]);
        }
    }
}

#[test]
fn reads_one_byte_more_than_settings_may_have(rt: HostRuntime) -> Result<(), Fail> {
    let alloc = rt.alloc();
    let mut output = Vec::new(alloc);
    let mut endless = Endless { reads: 0 };
    assert_eq!(rt; run_words(&rt, alloc, &CHECK, &mut endless, &mut output), 2);
    assert_eq!(rt; output.as_slice(), b"settings refused L1\n".as_slice());
    assert_eq!(rt; endless.reads, 1_048_577);
    let long = Vec::from_elem(alloc, b'#', 2_000_000)?;
    let mut input = long.as_slice();
    output.clear();
    assert_eq!(rt; run_words(&rt, alloc, &CHECK, &mut input, &mut output), 2);
    assert_eq!(rt; input.len(), 2_000_000 - 1_048_577);
    Ok(())
}

#[test]
fn reads_nothing_where_words_are_refused(rt: HostRuntime) {
    let mut output = Vec::new(rt.alloc());
    let mut input = b"program = [".as_slice();
    let words = ["xdpbox", "check", "all"];
    assert_eq!(rt;
        run_words(&rt, rt.alloc(), &words, &mut input, &mut output),
        2
    );
    assert_eq!(rt; output.as_slice(), b"words refused\n".as_slice());
    assert_eq!(rt; input.len(), 11);
}
