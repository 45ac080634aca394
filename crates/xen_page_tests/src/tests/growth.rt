//! What takes memory, called again once it was refused. `tools/gate/refuse-growths` refuses each allocation of these tests in
//! turn, and counts the runs that print `refused`.

ghost use Rattle.std.specs.Prelude.{◌≡◌, IfOk};
ghost use Rattle.xen_page.specs.Recorded.{bus_of};

use crate::bench::FRONT;
use std::alloc::{AllocError, Global};
use std::io;
use xen_page::{Bus, Extent, Frames, Owners, OwnersFault, Place, Recorder, ScriptBus};

const WORD: Place = Place { frame: 0, word: 5 };

/// Says that memory was refused.
fn say_refused(rt: &HostRuntime) -> io::Result<()> {
    println!(rt; "refused")
}

/// Returns who owns frame 1.
fn owner(alloc: Global) -> Result<Option<u16>, AllocError> {
    Ok(Owners::make(alloc, &[0, FRONT])?.of(1))
}

#[test]
fn owners_are_made_again(rt: HostRuntime) -> io::Result<()> {
    let mut found = owner(rt.alloc()).ok();
    if found.is_none() {
        say_refused(&rt)?;
        found = owner(rt.alloc()).ok();
    }
    assert_eq!(rt; found, Some(Some(FRONT)));
    Ok(())
}

fn owner_in_extents(alloc: Global) -> Result<Option<u16>, OwnersFault> {
    let extents = [Extent {
        frames: 9000,
        domain: FRONT,
    }];
    Ok(Owners::of_extents(alloc, &extents)?.of(8999))
}

#[test]
fn owners_of_extents_are_made_again(rt: HostRuntime) -> io::Result<()> {
    let mut owner = owner_in_extents(rt.alloc());
    if owner == Err(OwnersFault::Memory) {
        say_refused(&rt)?;
        owner = owner_in_extents(rt.alloc());
    }
    assert_eq!(rt; owner, Ok(Some(FRONT)));
    Ok(())
}

fn count(alloc: Global) -> Result<u32, AllocError> {
    Ok(Frames::make(alloc, &[FRONT])?.count())
}

#[test]
fn frames_are_made_again(rt: HostRuntime) -> io::Result<()> {
    let mut found = count(rt.alloc()).ok();
    if found.is_none() {
        say_refused(&rt)?;
        found = count(rt.alloc()).ok();
    }
    assert_eq!(rt; found, Some(1));
    Ok(())
}

/// The word that a script answers, and how many accesses its log has then.
fn scripted(alloc: Global) -> Result<(u32, usize), AllocError> {
    let mut bus = ScriptBus::make(alloc, 1, &[7], 1)?;
    let word = bus.read(WORD);
    Ok((word, bus.accesses().len()))
}

#[test]
fn scripts_are_made_again(rt: HostRuntime) -> io::Result<()> {
    let mut found = scripted(rt.alloc()).ok();
    if found.is_none() {
        say_refused(&rt)?;
        found = scripted(rt.alloc()).ok();
    }
    assert_eq!(rt; found, Some((7, 1)));
    Ok(())
}

/// A recorder of one access, over a script. The bus under a recorder that isn't made is dropped with it.
fn recorder(alloc: Global) -> Result<Recorder<ScriptBus>, AllocError>
    ensures { IfOk result (λ recorder. (bus_of recorder).frames ≡ 1) }
{
    let script = match ScriptBus::make(alloc, 1, &[7], 0) {
        Ok(script) => script,
        Err(_) => ScriptBus::make(alloc, 1, &[7], 0)?,
    };
    Recorder::make(alloc, script, 1)
}

fn tells_7(alloc: Global, bus: &Recorder<ScriptBus>) -> Result<bool, AllocError> {
    Ok(bus.answers(alloc)?.as_slice() == [7].as_slice())
}

/// The word that is read through a recorder, whether the recorder tells it, and whether memory for that was refused once.
fn recorded(alloc: Global) -> Result<(u32, bool, bool), AllocError> {
    let mut bus = recorder(alloc)?;
    let word = bus.read(WORD);
    match tells_7(alloc, &bus) {
        Ok(is_told) => Ok((word, is_told, false)),
        Err(_) => Ok((word, tells_7(alloc, &bus)?, true)),
    }
}

#[test]
fn recorders_are_made_again(rt: HostRuntime) -> io::Result<()> {
    let mut found = recorded(rt.alloc()).ok();
    if found.is_none() {
        say_refused(&rt)?;
        found = recorded(rt.alloc()).ok();
    }
    if let Some((_, _, true)) = found {
        say_refused(&rt)?;
    }
    assert!(rt; matches!(found, Some((7, true, _))));
    Ok(())
}
