//! The lists of a program's maps.
ghost use Rattle.std.specs.Prelude.{◌≡◌, [], IfOk, length};
ghost use Rattle.xdp_load.specs.Listed.{AreListedBelow};
ghost use Rattle.xdp_load.specs.ListedFault.{IsListed};

use bpf_lists::MapList;
use std::alloc::{AllocError, AllocFailed, Global};
use std::marker::Model;
use std::sync::Arc;

/// The lists of a program's maps, by the maps' numbers, whoever else has them. A map without a list here finds no row, and its
/// constants are 0.
#[derive(Drop)]
pub struct Lists {
    rows: Arc<Vec<Option<MapList>>>,
}

impl Model for Lists {
    ghost use Rattle.std.specs.Arc.{arc_value};
    ghost use Rattle.std.specs.Prelude.{List, Option};
    ghost use Rattle.bpf_lists.specs.declared.list.MapList.{MapList};

    ghost Value = { List (Option MapList) };

    ghost view = { λ l. (arc_value l.rows).items };
}

/// The rows of a list are such as a map can have. A law.
fn is_listed(list: &Option<MapList>)
    ensures { IsListed list.now }
{
    match list {
        Some(MapList::Rows(rows)) => rows.has_one_answer(),
        Some(MapList::Constants(_)) | None => (),
    }
}

/// The rows of each of these lists are such as a map can have. A law, and no row is read.
pub(crate) fn are_listed(lists: &[Option<MapList>])
    ensures { AreListedBelow lists.now (length lists.now) }
{
    for list in lists {
        is_listed(list);
    }
}

impl Lists {
    /// These lists.
    pub fn make(
        alloc: Global,
        rows: Vec<Option<MapList>>,
    ) -> Result<Lists, AllocFailed<Vec<Option<MapList>>>>
        ensures { IfOk result (λ l. l ≡ rows.items) }
    {
        Ok(Lists {
            rows: Arc::new(alloc, rows)?,
        })
    }

    /// No lists: those of a program whose maps are all arrays.
    pub fn none(alloc: Global) -> Result<Lists, AllocFailed<Vec<Option<MapList>>>>
        ensures { IfOk result (λ l. l ≡ []) }
    {
        Lists::make(alloc, Vec::new(alloc))
    }

    /// The same lists for another owner. Nothing is copied.
    pub fn again(&self) -> Result<Lists, AllocError>
        ensures { IfOk result (λ l. l ≡ self.now) }
    {
        Ok(Lists {
            rows: Arc::try_clone(&self.rows)?,
        })
    }

    /// The lists as a machine takes them.
    pub fn as_slice(&self) -> &[Option<MapList>]
        ensures { result.now ≡ self.now }
    {
        self.rows.as_slice()
    }
}
