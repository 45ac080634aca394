//! What arithmetic instructions compute.
ghost use Rattle.std.specs.Prelude.{◌≡◌, false, true};
ghost use Rattle.bpf_insn.specs.Arithmetic.{computed, negated};

use crate::alu_op::AluOp;
use crate::truncated::low_32;

/// Returns what an arithmetic instruction leaves in its destination, by the numbers in destination and source: on 64 bits if
/// `wide`, else on the low 32, and then the upper half is 0.
#[inline(always)]
pub fn alu(op: AluOp, wide: bool, dst: u64, src: u64) -> u64
    ensures { result ≡ computed op wide dst src }
{
    // An arm each, so that one jump finds the operation.
    match op {
        AluOp::Add => at_width(AluOp::Add, wide, dst, src),
        AluOp::Sub => at_width(AluOp::Sub, wide, dst, src),
        AluOp::Mul => at_width(AluOp::Mul, wide, dst, src),
        AluOp::Or => at_width(AluOp::Or, wide, dst, src),
        AluOp::And => at_width(AluOp::And, wide, dst, src),
        AluOp::Xor => at_width(AluOp::Xor, wide, dst, src),
        AluOp::Lsh => at_width(AluOp::Lsh, wide, dst, src),
        AluOp::Rsh => at_width(AluOp::Rsh, wide, dst, src),
        AluOp::Arsh => at_width(AluOp::Arsh, wide, dst, src),
        AluOp::Mov => at_width(AluOp::Mov, wide, dst, src),
        AluOp::Div | AluOp::SignedDiv | AluOp::Mod | AluOp::SignedMod => {
            division(op, wide, dst, src)
        }
    }
}

/// As [`alu`], for an operation that is known where this is inlined.
#[inline(always)]
fn at_width(op: AluOp, wide: bool, dst: u64, src: u64) -> u64
    ensures { result ≡ computed op wide dst src }
{
    if wide {
        alu64(op, dst, src)
    } else {
        u64::from(alu32(op, low_32(dst), low_32(src)))
    }
}

/// As [`alu`], for a division or its remainder, which take long anyway: a call, so that a caller's loop stays small.
#[inline(never)]
fn division(op: AluOp, wide: bool, dst: u64, src: u64) -> u64
    ensures { result ≡ computed op wide dst src }
{
    at_width(op, wide, dst, src)
}

/// Returns what NEG leaves in its destination.
#[tactic(auto, unfolding(crate::specs::Arithmetic::negated))]
pub fn negate(wide: bool, dst: u64) -> u64
    ensures { result ≡ negated wide dst }
{
    if wide {
        dst.wrapping_neg()
    } else {
        u64::from(low_32(dst).wrapping_neg())
    }
}

#[inline(always)]
#[tactic(auto, unfolding(crate::specs::Arithmetic::computed))]
fn alu64(op: AluOp, dst: u64, src: u64) -> u64
    ensures { result ≡ computed op true dst src }
{
    match op {
        AluOp::Add => dst.wrapping_add(src),
        AluOp::Sub => dst.wrapping_sub(src),
        AluOp::Mul => dst.wrapping_mul(src),
        AluOp::Div => if src == 0 { 0 } else { dst / src },
        AluOp::SignedDiv => signed_quotient(dst, src),
        AluOp::Or => dst | src,
        AluOp::And => dst & src,
        AluOp::Lsh => dst.wrapping_shl(low_32(src)),
        AluOp::Rsh => dst.wrapping_shr(low_32(src)),
        AluOp::Mod => if src == 0 { dst } else { dst % src },
        AluOp::SignedMod => signed_remainder(dst, src),
        AluOp::Xor => dst ^ src,
        AluOp::Mov => src,
        AluOp::Arsh => dst.cast_signed().wrapping_shr(low_32(src)).cast_unsigned(),
    }
}

#[tactic(auto, unfolding(crate::specs::Arithmetic::computed))]
fn signed_quotient(dst: u64, src: u64) -> u64
    ensures { result ≡ computed AluOp.SignedDiv true dst src }
{
    if src == 0 {
        0
    } else {
        dst.cast_signed()
            .wrapping_div(src.cast_signed())
            .cast_unsigned()
    }
}

#[tactic(auto, unfolding(crate::specs::Arithmetic::computed))]
fn signed_remainder(dst: u64, src: u64) -> u64
    ensures { result ≡ computed AluOp.SignedMod true dst src }
{
    if src == 0 {
        dst
    } else {
        dst.cast_signed()
            .wrapping_rem(src.cast_signed())
            .cast_unsigned()
    }
}

#[inline(always)]
#[tactic(auto, unfolding(crate::specs::Arithmetic::computed))]
fn alu32(op: AluOp, dst: u32, src: u32) -> u32
    ensures { result ≡ computed op false dst src }
{
    match op {
        AluOp::Add => dst.wrapping_add(src),
        AluOp::Sub => dst.wrapping_sub(src),
        AluOp::Mul => dst.wrapping_mul(src),
        AluOp::Div => if src == 0 { 0 } else { dst / src },
        AluOp::SignedDiv => signed_quotient32(dst, src),
        AluOp::Or => dst | src,
        AluOp::And => dst & src,
        AluOp::Lsh => dst.wrapping_shl(src),
        AluOp::Rsh => dst.wrapping_shr(src),
        AluOp::Mod => if src == 0 { dst } else { dst % src },
        AluOp::SignedMod => signed_remainder32(dst, src),
        AluOp::Xor => dst ^ src,
        AluOp::Mov => src,
        AluOp::Arsh => dst.cast_signed().wrapping_shr(src).cast_unsigned(),
    }
}

#[tactic(auto, unfolding(crate::specs::Arithmetic::computed))]
fn signed_quotient32(dst: u32, src: u32) -> u32
    ensures { result ≡ computed AluOp.SignedDiv false dst src }
{
    if src == 0 {
        0
    } else {
        dst.cast_signed()
            .wrapping_div(src.cast_signed())
            .cast_unsigned()
    }
}

#[tactic(auto, unfolding(crate::specs::Arithmetic::computed))]
fn signed_remainder32(dst: u32, src: u32) -> u32
    ensures { result ≡ computed AluOp.SignedMod false dst src }
{
    if src == 0 {
        dst
    } else {
        dst.cast_signed()
            .wrapping_rem(src.cast_signed())
            .cast_unsigned()
    }
}
