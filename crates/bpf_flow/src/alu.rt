//! What arithmetic makes of values.
ghost use Rattle.std.specs.Prelude.{◌≡◌, ◌<◌, ◌+◌};
ghost use Rattle.bpf_insn.specs.Register.{number};
ghost use Rattle.bpf_insn.specs.Signed.{sign_extended};
ghost use Rattle.bpf_note.specs.Parts.{facts};
ghost use Rattle.bpf_flow.specs.Alu.{exactly, constant, any_number, operand_value, signed, packet_at, stack_at, packet_sum};
ghost use Rattle.bpf_flow.specs.Alu.{stack_sum, range_sum, sum_of, packet_difference, stack_difference, difference_of, range_by};
ghost use Rattle.bpf_flow.specs.Alu.{ranged, unfolded, first_constant, result_of, negated_value, extended_value};
ghost use Rattle.bpf_flow.specs.Alu.{any_of_width, swapped_value};

use crate::computed::Computed;
use bpf_insn::{AluOp, Operand, Size, SwapKind, Width, alu, move_extended, negate, swap};
use bpf_note::{Note, Val};

/// The greatest base of an address in the packet.
const MOST_BASE: u32 = 0xF_FFFF;

pub(crate) fn exactly(number: u64) -> Val
    ensures { result ≡ exactly number }
{
    Val::Num {
        lo: number,
        hi: number,
    }
}

fn constant(value: Val) -> Option<u64>
    ensures { result ≡ constant value }
{
    match value {
        Val::Num { lo, hi } => if lo == hi { Some(lo) } else { None },
        _ => None,
    }
}

fn any_number(wide: bool) -> Val
    ensures { result ≡ any_number wide }
{
    if wide {
        Val::FULL
    } else {
        Val::Num {
            lo: 0,
            hi: 0xFFFF_FFFF,
        }
    }
}

/// A constant that an instruction holds.
pub(crate) fn immediate(number: i32) -> Val
    ensures { result ≡ exactly (sign_extended number) }
{
    exactly(i64::from(number).cast_unsigned())
}

/// Returns what is known of an operand.
pub(crate) fn operand_value(note: &Note, operand: Operand) -> Val
    ensures { result ≡ operand_value (facts note.now) operand }
{
    match operand {
        Operand::Register(register) => note.register(register.number()),
        Operand::Immediate(number) => immediate(number),
    }
}

/// A number of 64 bits, read as signed.
fn signed(number: u64) -> i128
    ensures { result ≡ signed number }
{
    i128::from(number.cast_signed())
}

/// The pointer into the packet with that offset from the base of `id`.
fn packet_at(id: u16, off: i128) -> Val
    ensures { result ≡ packet_at id off }
{
    if 0 <= off && off <= 65535 {
        Val::Pkt {
            id,
            off: off as u16,
        }
    } else {
        Val::FULL
    }
}

/// The pointer into the stack with that offset from its end.
fn stack_at(off: i128) -> Val
    ensures { result ≡ stack_at off }
{
    if -512 <= off && off <= 0 {
        Val::Stack { off: off as i16 }
    } else {
        Val::FULL
    }
}

/// The sum of a pointer into the packet, whose id has this greatest base, and a range.
fn packet_sum(top: u32, id: u16, off: u16, lo: u64, hi: u64) -> Computed
    ensures { result ≡ packet_sum top id off lo hi }
{
    if lo == hi {
        return Computed::Plain(packet_at(id, i128::from(off) + signed(lo)));
    }
    let most = u128::from(top) + u128::from(off) + u128::from(hi);
    if hi <= 65535 && most <= u128::from(MOST_BASE) {
        Computed::Fresh { top: most as u32 }
    } else {
        Computed::Plain(Val::FULL)
    }
}

fn stack_sum(off: i16, lo: u64, hi: u64) -> Val
    ensures { result ≡ stack_sum off lo hi }
{
    if lo == hi {
        stack_at(i128::from(off) + signed(lo))
    } else {
        Val::FULL
    }
}

/// The sum of two ranges.
fn range_sum(lo: u64, hi: u64, other_lo: u64, other_hi: u64) -> Val
    ensures { result ≡ range_sum lo hi other_lo other_hi }
{
    match hi.checked_add(other_hi) {
        Some(hi) => Val::Num {
            lo: alu(AluOp::Add, true, lo, other_lo),
            hi,
        },
        None => Val::FULL,
    }
}

fn sum_of(note: &Note, a: Val, b: Val) -> Computed
    ensures { result ≡ sum_of (facts note.now) a b }
{
    match (a, b) {
        (Val::Pkt { id, off }, Val::Num { lo, hi }) => packet_sum(note.top(id), id, off, lo, hi),
        (Val::Num { lo, hi }, Val::Pkt { id, off }) => packet_sum(note.top(id), id, off, lo, hi),
        (Val::Stack { off }, Val::Num { lo, hi }) => Computed::Plain(stack_sum(off, lo, hi)),
        (Val::Num { lo, hi }, Val::Stack { off }) => Computed::Plain(stack_sum(off, lo, hi)),
        (
            Val::Num { lo, hi },
            Val::Num {
                lo: other_lo,
                hi: other_hi,
            },
        ) => { Computed::Plain(range_sum(lo, hi, other_lo, other_hi)) }
        _ => Computed::Plain(Val::FULL),
    }
}

fn packet_difference(id: u16, off: u16, lo: u64, hi: u64) -> Val
    ensures { result ≡ packet_difference id off lo hi }
{
    if lo == hi {
        packet_at(id, i128::from(off) - signed(lo))
    } else {
        Val::FULL
    }
}

fn stack_difference(off: i16, lo: u64, hi: u64) -> Val
    ensures { result ≡ stack_difference off lo hi }
{
    if lo == hi {
        stack_at(i128::from(off) - signed(lo))
    } else {
        Val::FULL
    }
}

fn difference_of(a: Val, b: Val) -> Val
    ensures { result ≡ difference_of a b }
{
    match (a, b) {
        (Val::Pkt { id, off }, Val::Num { lo, hi }) => packet_difference(id, off, lo, hi),
        (Val::Stack { off }, Val::Num { lo, hi }) => stack_difference(off, lo, hi),
        _ => Val::FULL,
    }
}

/// A range shifted to the left, if its upper end keeps all its bits.
fn shifted_left(lo: u64, hi: u64, by: u64) -> Val
    ensures { result ≡ range_by AluOp.Lsh lo hi by }
{
    let top = u128::from(hi) << (by % 64);
    if top <= u128::from(u64::MAX) {
        Val::Num {
            lo: alu(AluOp::Lsh, true, lo, by),
            hi: top as u64,
        }
    } else {
        Val::FULL
    }
}

/// Returns what an operation on 64 bits makes of a range and a constant.
fn range_by(op: AluOp, lo: u64, hi: u64, by: u64) -> Val
    ensures { result ≡ range_by op lo hi by }
{
    match op {
        AluOp::And => Val::Num {
            lo: 0,
            hi: hi.min(by),
        },
        AluOp::Rsh => Val::Num {
            lo: lo >> (by % 64),
            hi: hi >> (by % 64),
        },
        AluOp::Lsh => shifted_left(lo, hi, by),
        AluOp::Mod => if by == 0 {
            Val::FULL
        } else {
            Val::Num { lo: 0, hi: by - 1 }
        },
        _ => Val::FULL,
    }
}

fn ranged(op: AluOp, a: Val, b: Val) -> Val
    ensures { result ≡ ranged op a b }
{
    match (a, b) {
        (
            Val::Num { lo, hi },
            Val::Num {
                lo: least,
                hi: most,
            },
        ) => if least == most {
            range_by(op, lo, hi, least)
        } else {
            Val::FULL
        },
        _ => Val::FULL,
    }
}

/// Returns what an operation makes of operands that aren't two constants.
fn unfolded(note: &Note, op: AluOp, wide: bool, a: Val, b: Val) -> Computed
    ensures { result ≡ unfolded (facts note.now) op wide a b }
{
    if !wide {
        return Computed::Plain(any_number(false));
    }
    match op {
        AluOp::Add => sum_of(note, a, b),
        AluOp::Sub => Computed::Plain(difference_of(a, b)),
        _ => Computed::Plain(ranged(op, a, b)),
    }
}

fn first_constant(op: AluOp, a: Val) -> Option<u64>
    ensures { result ≡ first_constant op a }
{
    match op {
        AluOp::Mov => Some(0),
        _ => constant(a),
    }
}

/// Returns what an arithmetic operation makes of what its destination and its operand hold.
pub(crate) fn result_of(note: &Note, op: AluOp, wide: bool, a: Val, b: Val) -> Computed
    ensures { result ≡ result_of (facts note.now) op wide a b }
{
    match op {
        AluOp::Mov if wide => Computed::Plain(b),
        _ => match (first_constant(op, a), constant(b)) {
            (Some(x), Some(y)) => Computed::Plain(exactly(alu(op, wide, x, y))),
            _ => unfolded(note, op, wide, a, b),
        },
    }
}

pub(crate) fn negated_value(wide: bool, value: Val) -> Val
    ensures { result ≡ negated_value wide value }
{
    match constant(value) {
        Some(number) => exactly(negate(wide, number)),
        None => any_number(wide),
    }
}

pub(crate) fn extended_value(wide: bool, bits: Size, value: Val) -> Val
    ensures { result ≡ extended_value wide bits value }
{
    match constant(value) {
        Some(number) => exactly(move_extended(wide, bits, number)),
        None => any_number(wide),
    }
}

fn any_of_width(width: Width) -> Val
    ensures { result ≡ any_of_width width }
{
    match width {
        Width::Bits16 => Val::Num { lo: 0, hi: 0xFFFF },
        Width::Bits32 => any_number(false),
        Width::Bits64 => Val::FULL,
    }
}

pub(crate) fn swapped_value(kind: SwapKind, width: Width, value: Val) -> Val
    ensures { result ≡ swapped_value kind width value }
{
    match constant(value) {
        Some(number) => exactly(swap(kind, width, number)),
        None => any_of_width(width),
    }
}
