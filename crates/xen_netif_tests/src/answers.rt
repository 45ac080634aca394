//! What chains and fragments answer, as plain values.

ghost use Rattle.xen_netif.specs.Copy.{Covers};

use xen_netif::{Chain, ChainFault, ChainState, Fragment, Offers, Segments, SizeFault, TxReq};

/// The most groups of slots that are pushed to one chain.
const MOST_GROUPS: usize = 5;

/// The need after each group of slots, and the number of slots that the chain has then.
pub type States = [Option<(Result<ChainState, ChainFault>, usize)>; MOST_GROUPS];

/// Pushes the slots as long as one is wanted, and says what is wanted after them.
fn push_all(chain: &mut Chain, slots: &[[u32; 3]]) -> Result<ChainState, ChainFault> {
    for slot in slots {
        match chain.state() {
            ChainState::Complete => break,
            _ => {
                chain.push(*slot)?;
            }
        }
    }
    Ok(chain.state())
}

/// Returns what is wanted after these slots.
pub fn state_after(slots: &[[u32; 3]]) -> Result<ChainState, ChainFault> {
    let mut chain = Chain::new();
    push_all(&mut chain, slots)
}

/// Returns what is wanted after each of the first groups of slots, and how many slots the chain has then.
pub fn states_after(groups: &[&[[u32; 3]]]) -> States {
    let mut chain = Chain::new();
    let mut answers = [None; MOST_GROUPS];
    for (answer, group) in answers.iter_mut().zip(groups) {
        let state = push_all(&mut chain, group);
        *answer = Some((state, chain.len()));
    }
    answers
}

/// These answers to the first groups of slots.
pub fn states(wanted: &[(Result<ChainState, ChainFault>, usize)]) -> States {
    let mut answers = [None; MOST_GROUPS];
    for (answer, state) in answers.iter_mut().zip(wanted) {
        *answer = Some(*state);
    }
    answers
}

/// Returns whether each of the first six slots is a request; and the last slot's request.
pub fn requests_after(slots: &[[u32; 3]]) -> ([Option<bool>; 6], Option<Option<TxReq>>) {
    let mut chain = Chain::new();
    let _ = push_all(&mut chain, slots);
    let requests = chain.requests();
    let mut are_data = [None; 6];
    for (is_data, request) in are_data.iter_mut().zip(requests.as_slice()) {
        *is_data = Some(request.is_some());
    }
    (are_data, requests.as_slice().last().copied())
}

/// Returns whether the request in each slot is the one that all requests have there.
pub fn each_is_its_request(slots: &[[u32; 3]]) -> bool {
    let mut chain = Chain::new();
    let _ = push_all(&mut chain, slots);
    let requests = chain.requests();
    for number in 0..chain.len() {
        if chain.request(number) != requests.as_slice()[number] {
            return false;
        }
    }
    true
}

/// Returns whether a chain of these slots has these fragments, or why there are none: it isn't complete, or has a fault.
pub fn has_fragments(slots: &[[u32; 3]], wanted: &[Fragment]) -> Result<bool, Option<SizeFault>> {
    let mut chain = Chain::new();
    let _ = push_all(&mut chain, slots);
    match chain.state() {
        ChainState::Complete => match chain.fragments() {
            Ok(fragments) => Ok(fragments.as_slice() == wanted),
            Err(fault) => Err(Some(fault)),
        },
        _ => Err(None),
    }
}

/// The segments of a packet and the number of its fragments, or the reason why there are none: its chain isn't complete, or it is
/// refused.
pub type Taken = Result<(Option<Segments>, usize), Option<SizeFault>>;

/// Returns what a queue that offers this makes of the chain of these slots.
pub fn taken(slots: &[[u32; 3]], offers: Offers) -> Taken {
    let mut chain = Chain::new();
    let _ = push_all(&mut chain, slots);
    match chain.state() {
        ChainState::Complete => match chain.offered_fragments(offers) {
            Ok(fragments) => Ok((chain.segments(offers), fragments.as_slice().len())),
            Err(fault) => Err(Some(fault)),
        },
        _ => Err(None),
    }
}

/// The bytes of a fragment in the word at a place that it covers.
pub fn bytes_in(fragment: Fragment, place: u32, word: u32) -> [Option<u8>; 4]
    requires { Covers fragment place }
{
    let found = fragment.bytes_in(place, word);
    let mut bytes = [None; 4];
    for (byte, of_word) in bytes.iter_mut().zip(found.as_slice()) {
        *byte = Some(*of_word);
    }
    bytes
}
