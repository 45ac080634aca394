//! What stands in counters after a step, and where ways meet. Nothing is promised of it: `content` judges.
ghost use Rattle.std.specs.Prelude.{◌<◌};

use crate::after::{form_beside, moved, relation_after};
use crate::content::{CONTENTS, Content};
use crate::linear_form::{LinearForm, REGISTERS, TERMS};
use crate::meet::Meeting;
use crate::relation::Relation;
use crate::step::Step;
use bpf_insn::{Insn, Size};
use bpf_note::Val;

/// Adds a content. The first one makes place for it if there are eight.
fn add_content(relation: &mut Relation, content: Content) {
    for index in 0..CONTENTS {
        match relation.content(index) {
            None => {
                relation.contents[index as usize] = Some(content);
                return;
            }
            Some(here) if here.address == content.address => {
                relation.contents[index as usize] = Some(content);
                return;
            }
            Some(_) => {}
        }
    }
    relation.contents.rotate_left(1);
    relation.contents[7] = Some(content);
}

/// A form before a step, by terms that hold the same after it, or by one that differs by a constant.
fn form_moved(step: &Step, found: &Relation, form: LinearForm) -> Option<LinearForm> {
    match moved(step, form) {
        Some(form) => Some(form),
        None => form_beside(step, found, form, TERMS),
    }
}

/// A content before a step, after it.
fn content_after(step: &Step, found: &Relation, content: Content) -> Option<Content> {
    let number = step.number_after(content.address)?;
    Some(Content {
        address: form_moved(step, found, content.address)?,
        number: form_moved(step, found, number)?,
    })
}

/// The address that a step loads eight bytes from.
fn loaded_address(step: &Step) -> Option<LinearForm> {
    match step.insn {
        Insn::Ldx {
            size: Size::Double,
            signed: false,
            src,
            off,
            ..
        } => Some(step.before.address(src, off)),
        _ => None,
    }
}

/// Makes the register of a load what is known to stand in the counter.
fn add_loaded_number(step: &Step, found: &mut Relation) -> Option<()> {
    let number = step.before.content_at(loaded_address(step)?)?;
    let form = form_moved(step, found, number)?;
    for register in 0..REGISTERS {
        if step.is_found(register, form) {
            found.new[register as usize] = Some(form);
            if !step.stutters {
                found.old[register as usize] = Some(form);
            }
        }
    }
    Some(())
}

/// Returns what stands in a counter that a step has loaded, if nothing was known of it.
fn content_loaded(step: &Step, found: &Relation) -> Option<Content> {
    let from = loaded_address(step)?;
    if step.before.content_at(from).is_some() {
        return None;
    }
    let Insn::Ldx { dst, src, .. } = step.insn else {
        return None;
    };
    if dst == src || !matches!(step.after.register(src.number()), Val::Value { .. }) {
        return None;
    }
    Some(Content {
        address: form_moved(step, found, from)?,
        number: LinearForm::held(dst.number()),
    })
}

/// Adds what stands in counters after a step.
fn add_contents_after(step: &Step, found: &mut Relation) {
    for index in 0..CONTENTS {
        if let Some(content) = step.before.content(index) {
            if let Some(content) = content_after(step, found, content) {
                add_content(found, content);
            }
        }
    }
    if let Some(content) = content_loaded(step, found) {
        add_content(found, content);
    }
}

/// The relation after a step, with what stands in counters if nobody else has them.
pub(crate) fn found_after(step: &Step) -> Relation {
    let mut found = relation_after(step);
    if step.alone {
        add_loaded_number(step, &mut found);
        add_contents_after(step, &mut found);
    }
    found
}

/// Adds what stands in counters of both.
pub(crate) fn add_common_contents(meeting: &Meeting, met: &mut Relation) {
    for index in 0..CONTENTS {
        for other in 0..CONTENTS {
            if let (Some(here), Some(there)) = (
                meeting.one.content(index),
                meeting.other.content(other),
            ) {
                let address = meeting.form_of(here.address, there.address);
                let number = meeting.form_of(here.number, there.number);
                if let (Some(address), Some(number)) = (address, number) {
                    add_content(met, Content { address, number });
                }
            }
        }
    }
}
