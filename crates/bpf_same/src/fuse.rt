//! A program with its counts made atomic additions. Nothing is promised of it: `fused` judges.
ghost use Rattle.std.specs.Prelude.{◌≤◌, length};

use crate::at_slot::witness_at;
use crate::fused::{MOST_COUNTED, Role};
use crate::witness::Witness;
use bpf_insn::{AluOp, Insn, Operand, Register, Size};
use std::alloc::{AllocError, Global};

/// The address of a counter.
#[derive(Clone, Copy, PartialEq, Eq, Drop)]
struct Address {
    base: Register,
    off: i16,
}

/// A program whose counts are additions, and what each slot is to a count.
#[derive(Drop)]
pub(crate) struct Fusion {
    pub(crate) code: Vec<Insn>,
    pub(crate) roles: Vec<Role>,
}

/// The register that a load of a counter writes, and the counter's address.
fn loaded(insn: Insn) -> Option<(Register, Address)> {
    match insn {
        Insn::Ldx {
            size: Size::Double,
            signed: false,
            dst,
            src,
            off,
        } => Some((dst, Address { base: src, off })),
        _ => None,
    }
}

/// The address of the counter that an instruction adds to, if it puts nothing into a register.
fn added(insn: Insn) -> Option<(Register, Address)> {
    match insn {
        Insn::AddCounter {
            fetch: false,
            dst,
            src,
            off,
        } => Some((src, Address { base: dst, off })),
        _ => None,
    }
}

/// Returns whether an instruction stores a register to an address.
fn is_store(insn: Insn, register: Register, address: Address) -> bool {
    match insn {
        Insn::Stx {
            size: Size::Double,
            dst,
            src,
            off,
        } => src == register && dst == address.base && off == address.off,
        _ => false,
    }
}

impl Fusion {
    /// The program as it is.
    fn none(alloc: Global, old: &[Insn]) -> Result<Fusion, AllocError> {
        let mut code = Vec::with_capacity(alloc, old.len())?;
        let mut roles = Vec::with_capacity(alloc, old.len())?;
        for at in 0..old.len() {
            code.push(old[at])?;
            roles.push(Role::Shared)?;
        }
        Ok(Fusion { code, roles })
    }

    /// The last load from an address before a store, its slot and the register that it writes, if no other count is between.
    fn load_before(&self, store: usize, address: Address) -> Option<(usize, Register)> {
        for back in 1..=MOST_COUNTED as usize {
            let at = store.checked_sub(back)?;
            if at >= self.code.len() || at >= self.roles.len() || self.roles[at] != Role::Shared {
                return None;
            }
            match loaded(self.code[at]) {
                Some((register, from)) if from == address => return Some((at, register)),
                _ => {}
            }
        }
        None
    }

    /// Makes a count that ends with a store an addition.
    fn fuse(&mut self, store: usize, addition: Insn, address: Address) -> Option<()> {
        let (load, register) = self.load_before(store, address)?;
        let zero = Insn::Alu {
            op: AluOp::Mov,
            wide: true,
            dst: register,
            src: Operand::Immediate(0),
        };
        if load < self.code.len() && store < self.code.len() {
            self.code[load] = zero;
            self.code[store] = addition;
        }
        for at in load..=store {
            if at < self.roles.len() {
                self.roles[at] = if at == load { Role::Load } else { Role::Inside };
            }
        }
        Some(())
    }

    /// Makes the count an addition that an instruction of the new program stands for.
    fn fuse_at(&mut self, new: Insn, witness: Witness) -> Option<()> {
        let (register, address) = added(new)?;
        let at = witness.at as usize;
        if at < self.code.len() && is_store(self.code[at], register, address) {
            self.fuse(at, new, address)
        } else {
            None
        }
    }
}

/// The old program with each store made an addition in whose place the new program has one, if there are any.
pub(crate) fn fusion_of(
    alloc: Global,
    old: &[Insn],
    new: &[Insn],
    witnesses: &[Witness],
) -> Result<Option<Fusion>, AllocError>
    requires { length new.now ≤ 4096 }
{
    let mut fusion = Fusion::none(alloc, old)?;
    let mut is_any = false;
    for at in 0..new.len() {
        if let Some(witness) = witness_at(witnesses, at as u32) {
            is_any |= fusion.fuse_at(new[at], witness).is_some();
        }
    }
    Ok(is_any.then_some(fusion))
}
