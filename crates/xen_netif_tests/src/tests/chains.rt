//! Chains of slots, each fault with its shortest list.

ghost use Rattle.std.specs.Prelude.{◌<◌};

use crate::answers::{each_is_its_request, requests_after, state_after, states, states_after};
use xen_netif::{
    Chain, ChainFault, ChainState, TxReq, beginnings_go_on, faults_stay, no_chain_begins_another,
    one_standing,
};

const MORE_DATA: u32 = 4;

const EXTRA_INFO: u32 = 8;

const MORE_EXTRAS: u32 = 0x100;

const XDP: u32 = 5;

/// A data slot of 100 bytes with these flags.
fn data(flags: u32) -> [u32; 3]
    requires { flags < 16 }
{
    [0, flags << 16, 100 << 16]
}

/// An extra with this first word.
fn extra(word: u32) -> [u32; 3] {
    [word, 0, 0]
}

#[test]
fn new_chains_are_empty(rt: HostRuntime) {
    let (new, default) = (Chain::new(), Chain::default());
    let are_empty = [new.is_empty(), default.is_empty()];
    let states = [new.state(), default.state()];
    assert_eq!(rt; (are_empty, states), ([true; 2], [ChainState::Data; 2]));
}

#[test]
fn wants_as_its_flags_say(rt: HostRuntime) {
    let first = data(MORE_DATA + EXTRA_INFO);
    let extras = [extra(1 + MORE_EXTRAS), extra(XDP)];
    // What a later data slot says of extras isn't looked at.
    let last = data(EXTRA_INFO);
    assert_eq!(rt;
        states_after(&[&[first], &[extras[0]], &[extras[1]], &[first], &[last]]),
        states(&[
            (Ok(ChainState::Extra), 1),
            (Ok(ChainState::Extra), 2),
            (Ok(ChainState::Data), 3),
            (Ok(ChainState::Data), 4),
            (Ok(ChainState::Complete), 5),
        ])
    );
    let are_data = [true, false, false, true, true];
    let [a, b, c, d, e] = are_data.map(Some);
    assert_eq!(rt;
        requests_after(&[first, extras[0], extras[1], first, last]),
        ([a, b, c, d, e, None], Some(Some(TxReq::of_words(last))))
    );
    assert!(rt; each_is_its_request(&[first, extras[0], extras[1], first, last]));
}

#[test]
fn eighteen_data_slots(rt: HostRuntime) {
    // The nineteenth leaves the chain unchanged, so that another eighteenth slot ends it.
    assert_eq!(rt;
        states_after(&[&[data(MORE_DATA); 17], &[data(MORE_DATA)], &[data(0)]]),
        states(&[
            (Ok(ChainState::Data), 17),
            (Err(ChainFault::TooManySlots), 17),
            (Ok(ChainState::Complete), 18),
        ])
    );
}

#[test]
fn five_extras(rt: HostRuntime) {
    let more = extra(1 + MORE_EXTRAS);
    assert_eq!(rt;
        states_after(&[&[data(EXTRA_INFO)], &[more; 4], &[more], &[extra(1)]]),
        states(&[
            (Ok(ChainState::Extra), 1),
            (Ok(ChainState::Extra), 5),
            (Err(ChainFault::TooManyExtras), 5),
            (Ok(ChainState::Complete), 6),
        ])
    );
}

#[test]
fn the_longest_chain(rt: HostRuntime) {
    assert_eq!(rt;
        states_after(&[
            &[data(MORE_DATA + EXTRA_INFO)],
            &[extra(4 + MORE_EXTRAS); 4],
            &[extra(4)],
            &[data(MORE_DATA); 16],
            &[data(0)],
        ]),
        states(&[
            (Ok(ChainState::Extra), 1),
            (Ok(ChainState::Extra), 5),
            (Ok(ChainState::Data), 6),
            (Ok(ChainState::Data), 22),
            (Ok(ChainState::Complete), 23),
        ])
    );
}

#[test]
fn types_of_extras(rt: HostRuntime) {
    for (word, answer) in [
        (0, Err(ChainFault::UnknownExtra)),
        (1, Ok(ChainState::Complete)),
        (XDP, Ok(ChainState::Complete)),
        (6, Err(ChainFault::UnknownExtra)),
        (6 + MORE_EXTRAS, Err(ChainFault::UnknownExtra)),
    ] {
        assert_eq!(rt;
            state_after(&[data(EXTRA_INFO), extra(word)]),
            answer,
            "at {word}"
        );
    }
}

#[test]
fn fault_numbers(rt: HostRuntime) {
    let numbers = [
        ChainFault::TooManySlots.number(),
        ChainFault::UnknownExtra.number(),
        ChainFault::TooManyExtras.number(),
    ];
    assert_eq!(rt; numbers, [3, 4, 5]);
}

#[test]
fn laws(_rt: HostRuntime) {
    one_standing();
    no_chain_begins_another();
    beginnings_go_on();
    faults_stay();
}
