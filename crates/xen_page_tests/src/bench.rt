//! What buses, entries and mappings answer, as plain values. There are two domains: the back, 0, owns frame 0, and the
//! front, 1, owns frames 1 to 19.

ghost use Rattle.std.specs.Prelude.{◌≡◌, ◌≤◌, ◌<◌, All};
ghost use Rattle.xen_page.specs.Table.{IsTable};

use std::alloc::{AllocError, Global};
use xen_page::{
    Access, Bus, Entry, GrantFault, Mapped, Owners, Place, Rights, ScriptBus, Table, check, map,
    unmap,
};

pub const BACK: u16 = 0;

pub const FRONT: u16 = 1;

pub const FRAMES: u32 = 20;

/// The first word of [`visit`].
pub const A: Place = Place { frame: 0, word: 5 };

/// The other word of [`visit`].
pub const B: Place = Place {
    frame: 1,
    word: 1023,
};

/// The most accesses of a log.
pub const MOST: usize = 6;

/// The accesses of a log of at most [`MOST`].
pub type Log = [Option<Access>; MOST];

/// A frame that is mapped, whether it is mapped for writing, and where its entry is.
pub type Seen = (u32, Place);

pub fn owners(alloc: Global) -> Result<Owners, AllocError> {
    let mut domains = [FRONT; FRAMES as usize];
    domains[0] = BACK;
    Owners::make(alloc, &domains)
}

/// The first accesses of a log.
pub fn log(accesses: &[Access]) -> Log {
    let mut first = [None; MOST];
    for (kept, access) in first.iter_mut().zip(accesses) {
        *kept = Some(*access);
    }
    first
}

/// Reads, writes and exchanges over any bus of two frames.
pub fn visit<T: Bus>(bus: &mut T) -> [u32; 4]
    requires { 2 ≤ T.size bus.old }
    ensures { T.size bus.new ≡ T.size bus.old }
{
    let first = bus.read(A);
    bus.write(B, 77);
    let second = bus.read(B);
    let third = bus.cas(B, 77, 78);
    let fourth = bus.cas(B, 77, 79);
    [first, second, third, fourth]
}

/// Returns what the check of an entry of these words answers.
pub fn checked(alloc: Global, a: u32, b: u32, rights: Rights) -> Option<Result<u32, GrantFault>> {
    let owners = owners(alloc).ok()?;
    Some(check(&owners, FRONT, BACK, Entry::of_words(a, b), rights))
}

fn seen(mapped: &Mapped) -> Seen {
    (mapped.frame(), mapped.entry())
}

/// Returns what mapping a reference answers over a bus that answers so, and its accesses. The table has these frames.
pub fn mapped(
    alloc: Global,
    frames: &[u32],
    answers: &[u32],
    gref: u32,
    rights: Rights,
) -> Option<(Result<Seen, GrantFault>, Log)> {
    let owners = owners(alloc).ok()?;
    let table = Table::make(&owners, FRONT, frames)?;
    if !table.is_within(FRAMES) {
        return None;
    }
    let mut bus = ScriptBus::make(alloc, FRAMES, answers, MOST).ok()?;
    let answer = match map(&mut bus, &table, &owners, FRONT, BACK, gref, rights) {
        Ok(mapped) => Ok(seen(&mapped)),
        Err(fault) => Err(fault),
    };
    Some((answer, log(bus.accesses())))
}

/// Returns what is mapped, and whether the mapping is ended now.
fn ended_again(bus: &mut ScriptBus, mapped: Mapped) -> (Seen, bool) {
    let kept = seen(&mapped);
    let is_within = mapped.entry().frame < bus.frames();
    (kept, is_within && unmap(bus, mapped).is_ok())
}

/// Returns what is mapped after a first try to end a mapping, and whether a second one ended it. If the first ended it, nothing is
/// mapped.
fn ended_once(bus: &mut ScriptBus, mapped: Mapped) -> Option<(Seen, bool)>
    requires { mapped.at.frame < bus.old.frames }
{
    match unmap(bus, mapped) {
        Ok(()) => None,
        Err(mapped) => Some(ended_again(bus, mapped)),
    }
}

/// As [`ended_once`], for the mapping of reference 5, over a bus that answers so; and its accesses.
fn ended_over(
    alloc: Global,
    table: &Table,
    owners: &Owners,
    answers: &[u32],
    rights: Rights,
) -> Option<(Option<(Seen, bool)>, Log)>
    requires table { IsTable owners.now 1 table.now }
    requires within { All (λ frame. frame < 20) table.now }
{
    let mut bus = ScriptBus::make(alloc, FRAMES, answers, MOST).ok()?;
    let mapped = map(&mut bus, table, owners, FRONT, BACK, 5, rights).ok()?;
    let stays = ended_once(&mut bus, mapped);
    Some((stays, log(bus.accesses())))
}

/// As [`ended_over`], with a table of one frame.
pub fn ended(
    alloc: Global,
    answers: &[u32],
    rights: Rights,
) -> Option<(Option<(Seen, bool)>, Log)> {
    let owners = owners(alloc).ok()?;
    let table = Table::make(&owners, FRONT, &[1])?;
    if table.is_within(FRAMES) {
        ended_over(alloc, &table, &owners, answers, rights)
    } else {
        None
    }
}
