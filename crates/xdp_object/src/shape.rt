//! What a definition of a map is here.
ghost use Rattle.std.specs.Prelude.{◌≡◌, ◌≤◌, IfOk};
ghost use Rattle.bpf_note.specs.Keys.{IsKey};
ghost use Rattle.xdp_object.specs.Shape.{array_key, counters as counters_of, hash_key, is_array, is_hash, key_of, shape_of, shape_with, trie_key};

use crate::fault::ShapeFault;
use bpf_note::{KeyKind, MapKey, MapShape};
use bpf_object::MapDefinition;

/// The types of maps, as Linux numbers them.
const HASH: u32 = 1;

const ARRAY: u32 = 2;

const PERCPU_HASH: u32 = 5;

const PERCPU_ARRAY: u32 = 6;

const LRU_HASH: u32 = 9;

const LRU_PERCPU_HASH: u32 = 10;

const LPM_TRIE: u32 = 11;

/// The length in front of a prefix, in bytes.
const LENGTH_BYTES: u32 = 4;

/// The most bytes of a key's data.
const MOST_KEY_BYTES: u32 = 64;

const MOST_ENTRIES: u32 = 65_536;

/// The size of a counter, and the most bytes of a value.
const COUNTER_BYTES: u32 = 8;

const MOST_VALUE_BYTES: u32 = 64;

/// Returns whether a type is one of arrays.
fn is_array(kind: u32) -> bool
    ensures { result ≡ is_array kind }
{
    kind == ARRAY || kind == PERCPU_ARRAY
}

/// Returns whether a type is one of hashes.
fn is_hash(kind: u32) -> bool
    ensures { result ≡ is_hash kind }
{
    kind == HASH || kind == PERCPU_HASH || kind == LRU_HASH || kind == LRU_PERCPU_HASH
}

/// The key of an array: a number of four bytes.
fn array_key(bytes: u32) -> Result<MapKey, ShapeFault>
    ensures value { result ≡ array_key bytes }
    ensures key { IfOk result IsKey }
{
    if bytes == 4 {
        Ok(MapKey::Index)
    } else {
        Err(ShapeFault::Key)
    }
}

/// The key of a hash.
fn hash_key(bytes: u32) -> Result<MapKey, ShapeFault>
    ensures value { result ≡ hash_key bytes }
    ensures key { IfOk result IsKey }
{
    if 1 <= bytes && bytes <= MOST_KEY_BYTES {
        Ok(MapKey::Listed(KeyKind::Exact(bytes as u8)))
    } else {
        Err(ShapeFault::Key)
    }
}

/// The key of a prefix trie: a length, then data.
fn trie_key(bytes: u32) -> Result<MapKey, ShapeFault>
    ensures value { result ≡ trie_key bytes }
    ensures key { IfOk result IsKey }
{
    if LENGTH_BYTES < bytes && bytes <= LENGTH_BYTES + MOST_KEY_BYTES {
        Ok(MapKey::Listed(KeyKind::Prefix((bytes - LENGTH_BYTES) as u8)))
    } else {
        Err(ShapeFault::Key)
    }
}

/// The key of a map.
fn key_of(definition: MapDefinition) -> Result<MapKey, ShapeFault>
    ensures value { result ≡ key_of definition }
    ensures key { IfOk result IsKey }
{
    if is_array(definition.kind) {
        return array_key(definition.key_bytes);
    }
    if is_hash(definition.kind) {
        return hash_key(definition.key_bytes);
    }
    if definition.kind == LPM_TRIE {
        return trie_key(definition.key_bytes);
    }
    Err(ShapeFault::Kind)
}

/// Returns the number of counters that hold a value.
fn counters(bytes: u32) -> u32
    requires { bytes ≤ 64 }
    ensures { result ≡ counters_of bytes }
{
    (bytes + COUNTER_BYTES - 1) / COUNTER_BYTES
}

/// The shape of a map that has such keys.
fn shape_with(definition: MapDefinition, key: MapKey) -> Result<MapShape, ShapeFault>
    requires { IsKey key }
    ensures { result ≡ shape_with definition key }
{
    if definition.entries == 0 || definition.entries > MOST_ENTRIES {
        return Err(ShapeFault::Entries);
    }
    if definition.value_bytes == 0 || definition.value_bytes > MOST_VALUE_BYTES {
        return Err(ShapeFault::Value);
    }
    match MapShape::keyed(key, definition.entries, counters(definition.value_bytes)) {
        Some(shape) => Ok(shape.with_parts()),
        None => unreachable!(),
    }
}

/// The shape of a map.
pub(crate) fn shape_of(definition: MapDefinition) -> Result<MapShape, ShapeFault>
    ensures { result ≡ shape_of definition }
{
    let key = key_of(definition)?;
    shape_with(definition, key)
}
