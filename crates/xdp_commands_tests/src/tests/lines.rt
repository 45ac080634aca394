//! Lines whose numbers all differ, so that none can stand in another's place.

use bpf_maps::{MapShape, Totals};
use std::test::Fail;
use thread_pair::{Deliveries, OnPass, PairFault, PairReport, PairRow};
use xdp_commands::{
    Paired, Request, add_counters, outcome, paired_status, paired_text, read_words, run_words,
};
use xen_back::Halt;

#[test]
fn a_row_of_a_pair_has_each_number_in_its_place(rt: HostRuntime) -> Result<(), Fail> {
    let alloc = rt.alloc();
    let mut rows = Vec::new(alloc);
    rows.push(PairRow {
        sent: 1,
        copied: 2,
        refused: 3,
        halted: Some(Halt::RxProducer),
        received: 5,
        deliveries: Deliveries {
            sent: 6,
            few: 7,
            refused: 8,
        },
    })?;
    rows.push(PairRow {
        sent: 10,
        copied: 20,
        refused: 30,
        halted: None,
        received: 50,
        deliveries: Deliveries {
            sent: 60,
            few: 70,
            refused: 80,
        },
    })?;
    let totals = Totals::make(alloc, &[])?;
    let paired = Paired::Ran(PairReport { rows, totals });
    let text = paired_text(alloc, OnPass::Takes, &[], &[], &paired)?;
    assert_eq!(rt;
        text.as_str(),
        "queue 0 sent 1 copied 2 refused 3 halted 6 received 5\nqueue 1 sent 10 copied 20 refused 30 halted 0 received 50\n"
    );
    let text = paired_text(alloc, OnPass::Answers, &[], &[], &paired)?;
    assert_eq!(rt;
        text.as_str(),
        "queue 0 sent 1 copied 2 refused 3 halted 6 received 5\nqueue 0 delivered 6 few 7 refused 8\nqueue 1 sent 10 copied 20 refused 30 halted 0 received 50\nqueue 1 delivered 60 few 70 refused 80\n"
    );
    assert_eq!(rt; paired_status(&paired), 0);
    Ok(())
}

#[test]
fn a_counter_has_its_key_its_place_and_its_number(rt: HostRuntime) -> Result<(), Fail> {
    let alloc = rt.alloc();
    let shapes = [
        MapShape::of(2, 3).ok_or("shape")?,
        MapShape::of(4, 1).ok_or("shape")?,
    ];
    let mut totals = Totals::make(alloc, &shapes)?;
    totals.add(0, 1, 2, 5);
    totals.add(0, 1, 0, 6);
    totals.add(1, 3, 0, 9);
    let names = [String::from_str(alloc, "a")?, String::from_str(alloc, "b")?];
    let mut text = String::new(alloc);
    add_counters(alloc, &mut text, &names, &shapes, &totals)?;
    assert_eq!(rt;
        text.as_str(),
        "counter a 1 0 6\ncounter a 1 2 5\ncounter b 3 9\n"
    );
    Ok(())
}

#[test]
fn what_fails_has_a_line_of_its_own(rt: HostRuntime) -> Result<(), Fail> {
    let alloc = rt.alloc();
    for (fault, line) in [
        (PairFault::Map, "mapping refused\n"),
        (PairFault::Thread, "threads refused\n"),
    ] {
        let paired = outcome(Err(fault))?;
        let text = paired_text(alloc, OnPass::Answers, &[], &[], &paired)?;
        assert_eq!(rt; text.as_str(), line);
        assert_eq!(rt; paired_status(&paired), 4);
    }
    assert!(rt; outcome(Err(PairFault::Memory)).is_err());
    Ok(())
}

/// Returns the number of turns that the words ask for.
fn turns_of(rt: &HostRuntime, words: &[&str]) -> Result<Option<u32>, Fail> {
    Ok(match read_words(rt.alloc(), words)? {
        Some(Request::Pair { turns, .. }) => Some(turns),
        _ => None,
    })
}

#[test]
fn turns_are_those_that_are_asked_for(rt: HostRuntime) -> Result<(), Fail> {
    assert_eq!(rt; turns_of(&rt, &["xdpbox", "pair"])?, Some(100_000));
    let few = ["xdpbox", "pair", "--turns", "7"];
    assert_eq!(rt; turns_of(&rt, &few)?, Some(7));
    Ok(())
}

/// Settings of 1,000 packets that pass.
const PACKETS: &str = "\
program = [\"b7000000020000009500000000000000\"]
packet = [{ queue = 0, bytes = \"000102030405060708090a0b0c0d\", times = 1000 }]
";

#[test]
fn no_more_turns_are_driven(rt: HostRuntime) -> Result<(), Fail> {
    let mut output = Vec::new(rt.alloc());
    let words = ["xdpbox", "pair", "--turns", "1"];
    let mut input = PACKETS.as_bytes();
    let status = run_words(&rt, rt.alloc(), &words, &mut input, &mut output);
    assert_eq!(rt; status, 0);
    let text = str::from_utf8(output.as_slice()).map_err(|_| "no text")?;
    assert!(rt;
        text.contains(" copied 0 ") || text.contains(" copied 1 "),
        "{text}"
    );
    Ok(())
}
