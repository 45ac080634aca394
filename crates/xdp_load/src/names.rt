//! The names of the maps.
ghost use Rattle.std.specs.Prelude.{◌≡◌, map};
ghost use Rattle.std.specs.List.{list_any};
ghost use Rattle.std.specs.Str.{bytes_eq};
ghost use Rattle.xdp_load.specs.Limits.{bad_name, is_bad_first};

use crate::kinds::MapRow;

/// Returns whether a map has the name.
fn is_repeated(name: &str, rows: &[MapRow<'_>]) -> bool
    ensures { result ≡ list_any (bytes_eq name.now) (map (λ m. m.name.now) rows.now) }
{
    rows.iter().any(|row| name == row.name)
}

/// Returns whether the first map's name is no right one, or is given again.
fn is_bad_first(rows: &[MapRow<'_>]) -> bool
    ensures { result ≡ is_bad_first (map (λ m. m.name.now) rows.now) }
{
    match rows.split_first() {
        Some((first, rest)) => {
            let name = first.name;
            name.is_empty() || name.len() > 32 || is_repeated(name, rest)
        }
        None => false,
    }
}

/// The number of the first map whose name is no right one, or is given again.
pub fn bad_name(rows: &[MapRow<'_>]) -> Option<usize>
    ensures { result ≡ bad_name 0 (map (λ m. m.name.now) rows.now) }
{
    for i in 0..rows.len() {
        if is_bad_first(&rows[i..]) {
            return Some(i);
        }
    }
    None
}
