//! A queue that goes on where another one ended.

use super::fixtures::{PASSES, answer_to};
use super::slots::tx;
use crate::bench::ready;
use std::alloc::Global;
use xen_back::{Halt, Queue, State, Want};
use xen_netif::RxOffload;
use xen_page::Place;

/// Returns what a queue wants first, and what it wants next if the producer shows a request.
fn first_wants(queue: &mut Queue, producer: u32) -> Option<(Want, Want)> {
    let first = queue.wanted();
    queue.feed(answer_to(first, producer)?);
    Some((first, queue.wanted()))
}

/// The state of a queue that goes on from this one, and its first wants.
fn resumed(alloc: Global, state: State) -> Option<(State, Want, Want)> {
    let (bench, mut buffer) = ready(alloc, &PASSES, &[])?;
    let mut queue = bench.resumed(alloc, state, &mut buffer)?;
    let begun = queue.state();
    let (first, second) = first_wants(&mut queue, state.tx_index.wrapping_add(1))?;
    Some((begun, first, second))
}

/// Returns what a delivery wants next if the producer shows a request, of a queue that goes on from this state.
fn delivers(alloc: Global, state: State) -> Option<Want> {
    let (bench, mut buffer) = ready(alloc, &PASSES, &[])?;
    let queue = bench.resumed(alloc, state, &mut buffer)?;
    let mut delivering = queue.begin_delivery(&[0; 14], RxOffload::Whole);
    let first = delivering.wanted();
    delivering.feed(answer_to(first, state.rx_index.wrapping_add(1))?);
    Some(delivering.wanted())
}

/// Returns what a queue wants that goes on from a halt.
fn halted(alloc: Global, state: State) -> Option<Want> {
    let (bench, mut buffer) = ready(alloc, &PASSES, &[])?;
    let mut queue = bench.resumed(alloc, state, &mut buffer)?;
    Some(queue.wanted())
}

/// The word of a frame, read.
fn read(frame: u32, word: u32) -> Want {
    Want::Read(Place { frame, word })
}

#[test]
fn goes_on_at_both_indices(rt: HostRuntime) {
    let state = State {
        tx_index: 7,
        rx_index: 9,
        halt: None,
    };
    let wants = resumed(rt.alloc(), state);
    assert_eq!(rt; wants, Some((state, read(17, 0), read(17, tx(7, 0, 0)))));
    assert_eq!(rt; delivers(rt.alloc(), state), Some(read(18, 34)));
}

#[test]
fn stays_halted(rt: HostRuntime) {
    let state = State {
        tx_index: 7,
        rx_index: 9,
        halt: Some(Halt::TxProducer),
    };
    assert_eq!(rt; halted(rt.alloc(), state), Some(Want::Done));
}
