//! Where a counter lies among the words.
ghost use Rattle.std.specs.Prelude.{◌≡◌, ◌<◌, ◌≤◌, ◌^◌, ◌*◌, length, IfOk};
ghost use Rattle.bpf_note.specs.Shape.{IsCounter, most_maps};
ghost use Rattle.bpf_maps.specs.Layout.{place_of, size as all_of, total as all};

use bpf_note::MapShape;
use std::alloc::{AllocError, Global};

/// Returns the number of counters that come before counter `j` of value `k` of map `m`.
pub fn place(shapes: &[MapShape], m: u32, k: u32, j: u32) -> usize
    requires maps { length shapes.now ≤ most_maps }
    requires place { IsCounter shapes.now m k j }
    ensures place { result ≡ place_of shapes.now m k j }
    ensures small { result < 2 ^ 40 }
{
    let before = total(&shapes[..m as usize]);
    before + shapes[m as usize].counters() as usize * k as usize + j as usize
}

/// Returns the number of counters that all maps have.
pub fn total(shapes: &[MapShape]) -> usize
    requires { length shapes.now ≤ most_maps }
    ensures sum { result ≡ all shapes.now }
    ensures most { result ≤ 16 * 524288 }
{
    let mut count = 0;
    for shape in shapes {
        count += size(shape);
    }
    count
}

pub(crate) fn size(shape: &MapShape) -> usize
    ensures size { result ≡ all_of shape.now }
    ensures most { result ≤ 524288 }
{
    shape.counters() as usize * shape.entries() as usize
}

pub(crate) fn copied(alloc: Global, shapes: &[MapShape]) -> Result<Vec<MapShape>, AllocError>
    ensures { IfOk result (λ v. v.items ≡ shapes.now) }
{
    shapes.to_vec(alloc)
}
