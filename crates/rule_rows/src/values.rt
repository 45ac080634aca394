//! Values, as in a row.

use bpf_note::{PACKET_ID, Val};

/// A number: in decimal, with a sign for those from 2^63 on, or after `0x` in hexadecimal.
pub fn number(text: &str) -> Option<u64> {
    if let Some(digits) = text.strip_prefix("0x") {
        return u64::from_str_radix(digits, 16).ok();
    }
    if text.starts_with('-') {
        let number: i64 = text.parse().ok()?;
        return Some(number.cast_unsigned());
    }
    text.parse().ok()
}

/// The slot of an instruction that made an id, or `packet`.
pub fn id(text: &str) -> Option<u16> {
    if text == "packet" {
        return Some(PACKET_ID);
    }
    text.parse().ok()
}

/// A number, or two with the numbers between them.
fn range(text: &str) -> Option<Val> {
    match text.split_once("..") {
        Some((lo, hi)) => Some(Val::Num {
            lo: number(lo)?,
            hi: number(hi)?,
        }),
        None => {
            let exactly = number(text)?;
            Some(Val::Num {
                lo: exactly,
                hi: exactly,
            })
        }
    }
}

/// A number of bytes after the base of an id, as `7+2`.
fn packet(text: &str) -> Option<Val> {
    let (base, off) = text.split_once('+')?;
    Some(Val::Pkt {
        id: id(base)?,
        off: off.parse().ok()?,
    })
}

/// A value of a map or null, as `0@7`: the map, and the id.
fn lookup(text: &str) -> Option<Val> {
    let (m, of) = text.split_once('@')?;
    Some(Val::MaybeValue {
        m: m.parse().ok()?,
        id: id(of)?,
    })
}

/// A value that a word alone says.
fn word(text: &str) -> Option<Val> {
    match text {
        "unset" => Some(Val::Unset),
        "any" => Some(Val::FULL),
        "end" => Some(Val::PktEnd),
        "ctx" => Some(Val::Ctx),
        _ => None,
    }
}

/// Returns what is known of a register or of a kept stack slot.
pub fn value(text: &str) -> Option<Val> {
    if let Some(known) = word(text) {
        return Some(known);
    }
    if let Some(rest) = text.strip_prefix("pkt") {
        return packet(rest);
    }
    if let Some(off) = text.strip_prefix("stack") {
        return Some(Val::Stack {
            off: off.parse().ok()?,
        });
    }
    if let Some(m) = text.strip_prefix("map") {
        return Some(Val::Map { m: m.parse().ok()? });
    }
    if let Some(m) = text.strip_prefix("value") {
        return Some(Val::Value { m: m.parse().ok()? });
    }
    if let Some(rest) = text.strip_prefix("null/value") {
        return lookup(rest);
    }
    range(text)
}
