//! Questions about slots: the words of netif.h's structures.

use crate::numbers::numbers;
use std::alloc::{AllocError, Global};
use xen_netif::{
    Extra, GsoExtra, GsoType, RxFlags, RxOffload, RxReq, RxRsp, Segments, Status, TxFlags, TxReq,
    TxRsp,
};

fn tx_request(alloc: Global, words: [u32; 3]) -> Result<String, AllocError> {
    let request = TxReq::of_words(words);
    let [first, second, third] = request.words();
    let TxReq {
        gref,
        offset,
        flags,
        id,
        size,
    } = request;
    let bits = flags.bits();
    format!(in alloc; "{gref} {offset} {bits} {id} {size}, {first} {second} {third}")
}

fn rx_response(alloc: Global, words: [u32; 2]) -> Result<String, AllocError> {
    let response = RxRsp::of_words(words);
    let [first, second] = response.words();
    let RxRsp {
        id,
        offset,
        flags,
        status,
    } = response;
    let bits = flags.bits();
    format!(in alloc; "{id} {offset} {bits} {status}, {first} {second}")
}

fn tx_flags(alloc: Global, bits: u16) -> Result<String, AllocError> {
    let TxFlags {
        csum_blank,
        data_validated,
        more_data,
        extra_info,
    } = TxFlags::of_bits(bits);
    format!(in alloc; "{csum_blank} {data_validated} {more_data} {extra_info}")
}

fn rx_flags(alloc: Global, bits: u16) -> Result<String, AllocError> {
    let RxFlags {
        data_validated,
        csum_blank,
        more_data,
        extra_info,
        gso_prefix,
    } = RxFlags::of_bits(bits);
    format!(in alloc; "{data_validated} {csum_blank} {more_data} {extra_info} {gso_prefix}")
}

fn extra(alloc: Global, words: [u32; 3]) -> Result<String, AllocError> {
    match Extra::of_words(words) {
        Some(extra) => {
            let [first, ..] = extra.words();
            format!(in alloc; "{:?} {}, {first}", extra.kind, extra.more)
        }
        None => format!(in alloc; "none"),
    }
}

fn segments(alloc: Global, words: [u32; 3]) -> Result<String, AllocError> {
    let Some(extra) = GsoExtra::of_words(words) else {
        return format!(in alloc; "none");
    };
    let [first, second, _] = extra.words();
    let GsoExtra {
        size,
        kind,
        features,
        ..
    } = extra;
    match GsoType::of_number(kind) {
        Some(name) => format!(in alloc; "{size} {kind} {name:?} {features}, {first} {second}"),
        None => format!(in alloc; "{size} {kind} none {features}, {first} {second}"),
    }
}

/// The extra in the rx entry behind the first, for segments of this size and type, and the flags of the first response: alone, and
/// with more data.
fn rx_extra(alloc: Global, size: u16, kind: u8) -> Result<String, AllocError> {
    let Some(kind) = GsoType::of_number(kind) else {
        return format!(in alloc; "none");
    };
    let offload = RxOffload::Segmented(Segments { kind, size });
    let Some(extra) = offload.extra() else {
        return format!(in alloc; "none");
    };
    let [first, second, _] = extra.words();
    let alone = offload.flags(0, false).bits();
    let followed = offload.flags(0, true).bits();
    format!(in alloc; "{first} {second}, {alone} {followed}")
}

fn statuses(alloc: Global) -> Result<String, AllocError> {
    let dropped = Status::Dropped.code();
    let error = Status::Error.code();
    let okay = Status::Okay.code();
    let null = Status::Null.code();
    format!(in alloc; "{dropped} {error} {okay} {null}")
}

pub fn answer(alloc: Global, kind: &str, rest: &str) -> Result<Option<String>, AllocError> {
    let [a, b, c] = numbers(rest);
    let bits = u16::try_from(a).unwrap_or(0);
    Ok(Some(match kind {
        "tx-request" => tx_request(alloc, [a, b, c])?,
        "tx-response" => {
            let TxRsp { id, status } = TxRsp::of_words([a]);
            let [word] = TxRsp { id, status }.words();
            format!(in alloc; "{id} {status}, {word}")?
        }
        "rx-request" => {
            let RxReq { id, gref } = RxReq::of_words([a, b]);
            let [first, second] = RxReq { id, gref }.words();
            format!(in alloc; "{id} {gref}, {first} {second}")?
        }
        "rx-response" => rx_response(alloc, [a, b])?,
        "tx-flags" => tx_flags(alloc, bits)?,
        "rx-flags" => rx_flags(alloc, bits)?,
        "statuses" => statuses(alloc)?,
        "extra" => extra(alloc, [a, b, c])?,
        "segments" => segments(alloc, [a, b, c])?,
        "rx-extra" => rx_extra(alloc, bits, u8::try_from(b).unwrap_or(0))?,
        _ => return Ok(None),
    }))
}
