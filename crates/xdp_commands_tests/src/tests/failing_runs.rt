use crate::tests::readers::{Drip, Narrow};
use std::alloc::Global;
use std::process::Abort;
use std::sync::Wait;
use std::test::Fail;
use std::thread::Threads;
use xdp_commands::run_words;

const RUN: [&str; 2] = ["xdpbox", "run"];

/// Settings, what is printed, and the status: a queue that halts and one that finds nothing, a refused program, refused settings.
const RAN: [(&[u8], &str, u8); 3] = [
    (
        b"program = [\"b7000000020000009500000000000000\"]\nqueues = 2\nscript = [[1,300],[0,0],[0,7],[0,0]]",
        "queue 0 turn 1 idle\nqueue 1 turn 1 halted 1\n",
        0,
    ),
    (b"program = [\"9500000000000000\"]", "refused V7 at 0\n", 1),
    (b"program = [", "settings refused L2\n", 2),
];

#[test]
fn a_run_ends_at_the_first_failed_write(rt: HostRuntime) -> Result<(), Fail> {
    let alloc = rt.alloc();
    for (settings, text, status) in RAN {
        for fails_at in 0..text.len() {
            let mut output = Narrow {
                held: Vec::new(alloc),
                fails_at,
            };
            let mut input = settings;
            assert_eq!(rt; run_words(&rt, alloc, &RUN, &mut input, &mut output), 4);
            assert_eq!(rt; output.held.as_slice(), &text.as_bytes()[..fails_at]);
        }
        let mut output = Vec::new(alloc);
        let mut input = settings;
        assert_eq!(rt;
            run_words(&rt, alloc, &RUN, &mut input, &mut output),
            status
        );
        assert_eq!(rt; output.as_slice(), text.as_bytes());
    }
    Ok(())
}

#[test]
fn a_run_ends_at_the_first_failed_read(rt: HostRuntime) -> Result<(), Fail> {
    let alloc = rt.alloc();
    for (settings, _, _) in RAN {
        for fails_at in 0..=settings.len() {
            let mut output = Vec::new(alloc);
            let mut input = Drip {
                left: settings,
                fails_at,
            };
            assert_eq!(rt; run_words(&rt, alloc, &RUN, &mut input, &mut output), 4);
            assert_eq!(rt; output.len(), 0);
            assert_eq!(rt; input.left, &settings[fails_at..]);
        }
    }
    Ok(())
}

/// A command's status is 4 and nothing is printed, whichever of its reads fails.
fn assert_failed_reads<R: Abort + Threads + Wait + Sync>(
    rt: &R,
    alloc: Global,
    command: &str,
    settings: &[u8],
) {
    for fails_at in 0..=settings.len() {
        let mut output = Vec::new(alloc);
        let mut input = Drip {
            left: settings,
            fails_at,
        };
        let words = ["xdpbox", command];
        assert_eq!(rt; run_words(rt, alloc, &words, &mut input, &mut output), 4);
        assert_eq!(rt; output.len(), 0);
    }
}

/// A command's status is 4 and a prefix of its text is printed, whichever of its writes fails.
fn assert_failed_writes<R: Abort + Threads + Wait + Sync>(
    rt: &R,
    alloc: Global,
    command: &str,
    settings: &[u8],
    text: &str,
) {
    for fails_at in 0..text.len() {
        let mut output = Narrow {
            held: Vec::new(alloc),
            fails_at,
        };
        let mut input = settings;
        let words = ["xdpbox", command];
        assert_eq!(rt; run_words(rt, alloc, &words, &mut input, &mut output), 4);
        assert_eq!(rt; output.held.as_slice(), &text.as_bytes()[..fails_at]);
    }
}

/// Settings of a program that passes every packet.
const PASSES: &[u8] = b"program = [\"b7000000020000009500000000000000\"]";

#[test]
fn pairs_end_at_the_first_failed_read_or_write(rt: HostRuntime) {
    let text = "queue 0 sent 0 copied 0 refused 0 halted 0 received 0\n";
    assert_failed_reads(&rt, rt.alloc(), "pair", PASSES);
    assert_failed_writes(&rt, rt.alloc(), "pair", PASSES, text);
}

#[test]
fn an_explanation_ends_at_the_first_failed_read_or_write(rt: HostRuntime) {
    let text = "   0: r0 = 2\n   1: exit\naccepted, 2 instructions, 2 slots\n";
    assert_failed_reads(&rt, rt.alloc(), "explain", PASSES);
    assert_failed_writes(&rt, rt.alloc(), "explain", PASSES, text);
}
