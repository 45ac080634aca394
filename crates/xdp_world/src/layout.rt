//! Who owns which frame in a world's memory, and the grants.
ghost use Rattle.std.specs.Prelude.{◌≡◌, ◌≤◌, IfOk, length};
ghost use Rattle.xdp_world.specs.Frames.{owners_of, table_frames};

use crate::places::{FIRST_GRANTED, REFERENCES};
use std::alloc::{AllocError, Global};
use xen_page::{Frames, Owners, Table};

/// The back's domain, which owns frame 0 alone.
pub const BACK: u16 = 0;
/// The front's domain, which owns all other frames and grants them.
pub const FRONT: u16 = 1;

/// The frames of a world of `queues` queues: frame 0 is the back's, and all others are the front's. Frames 1 to 16 are
/// its grant table.
#[derive(Drop)]
pub struct Layout {
    pub(crate) owners: Owners,
    pub(crate) table: Table,
    pub(crate) queues: usize,
    ghost few: { queues ≤ 8 },
    ghost owned: { owners ≡ owners_of queues },
    ghost granted: { table ≡ table_frames },
}

/// The domain that owns each frame.
fn domains(alloc: Global, queues: usize) -> Result<Vec<u16>, AllocError>
    requires { queues ≤ 8 }
    ensures { IfOk result (λ d. d.items ≡ owners_of queues) }
{
    let frames = FIRST_GRANTED as usize + REFERENCES as usize * queues;
    let mut domains = Vec::from_elem(alloc, FRONT, frames)?;
    domains[0] = BACK;
    Ok(domains)
}

impl Layout {
    /// The layout for `queues` queues.
    pub fn make(alloc: Global, queues: usize) -> Result<Layout, AllocError>
        requires { queues ≤ 8 }
        ensures { IfOk result (λ l. l.queues ≡ queues) }
    {
        let domains = domains(alloc, queues)?;
        let owners = Owners::make(alloc, domains.as_slice())?;
        let Some(table) = Table::make(
            &owners,
            FRONT,
            &[1, 2, 3, 4, 5, 6, 7, 8, 9, 10, 11, 12, 13, 14, 15, 16],
        ) else {
            unreachable!()
        };
        Ok(Layout {
            owners,
            table,
            queues,
        })
    }

    /// The domain that owns each frame.
    pub fn owners(&self) -> &Owners
        ensures { result.now ≡ owners_of self.now.queues }
    {
        &self.owners
    }

    /// The front's grant table.
    pub fn table(&self) -> &Table
        ensures { result.now ≡ table_frames }
    {
        &self.table
    }

    /// The frames of this layout, all words 0.
    pub fn frames(&self, alloc: Global) -> Result<Frames, AllocError>
        ensures { IfOk result (λ f. f ≡ length (owners_of self.now.queues)) }
    {
        let domains = domains(alloc, self.queues)?;
        Frames::make(alloc, domains.as_slice())
    }
}
