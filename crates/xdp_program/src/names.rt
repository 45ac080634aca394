//! The names of a program's maps.
ghost use Rattle.std.specs.Prelude.{◌≡◌, [], IfOk, get_or, map, position, string_bytes};
ghost use Rattle.std.specs.Str.{bytes_eq};

use std::alloc::{AllocError, AllocFailed, Global};
use std::marker::Model;
use std::sync::Arc;

/// The names of a program's maps, by number, whoever else has them. Contracts see their bytes.
#[derive(Drop)]
pub struct MapNames {
    names: Arc<Vec<String>>,
}

impl Model for MapNames {
    ghost use Rattle.std.specs.Arc.{arc_value};
    ghost use Rattle.std.specs.Prelude.{ℕ, List, map, string_bytes};

    ghost Value = { List (List ℕ) };

    ghost view = { λ n. map string_bytes (arc_value n.names).items };
}

/// The number of the first of these names that is this one.
fn number_in(names: &[String], name: &[u8]) -> Option<usize>
    ensures { result ≡ position (bytes_eq name.now) (map string_bytes names.now) }
{
    names.iter().position(|own| name == own.as_bytes())
}

impl MapNames {
    /// These names.
    pub fn of(alloc: Global, names: Vec<String>) -> Result<MapNames, AllocFailed<Vec<String>>>
        ensures { IfOk result (λ n. n ≡ map string_bytes names.items) }
    {
        Ok(MapNames {
            names: Arc::new(alloc, names)?,
        })
    }

    /// No names: those of a program that was made of its bytes alone.
    pub fn none(alloc: Global) -> Result<MapNames, AllocFailed<Vec<String>>>
        ensures { IfOk result (λ n. n ≡ []) }
    {
        MapNames::of(alloc, Vec::new(alloc))
    }

    /// The same names for another owner.
    pub fn again(&self) -> Result<MapNames, AllocError>
        ensures { IfOk result (λ n. n ≡ self.now) }
    {
        Ok(MapNames {
            names: Arc::try_clone(&self.names)?,
        })
    }

    /// The name of the map of this number: no bytes if it has none.
    pub fn name(&self, number: usize) -> &[u8]
        ensures { result.now ≡ get_or self.now number [] }
    {
        match self.names.get(number) {
            Some(name) => name.as_bytes(),
            None => &[],
        }
    }

    /// The number of the first map with this name.
    pub fn number(&self, name: &[u8]) -> Option<usize>
        ensures { result ≡ position (bytes_eq name.now) self.now }
    {
        number_in(self.names.as_slice(), name)
    }
}
