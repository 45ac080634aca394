//! By what the values of a map are looked up.
ghost use Rattle.std.specs.Prelude.{◌≡◌, ◌≤◌, ◌+◌, length, ◌↔◌, IsTrue};
ghost use Rattle.bpf_note.specs.Keys.{size as size_of, width as width_of, data_of, bits_of, key_size, constant_bytes, IsKind, IsKey};

/// The kind of the keys of a map with a list, each with its number of bytes of data, from 1 to 64.
#[derive(Clone, Copy, Debug, PartialEq, Eq)]
pub enum KeyKind {
    /// All bytes have to be the same, as in BPF_MAP_TYPE_HASH.
    Exact(u8),
    /// A length in bits in four bytes, little-endian, then the data, as in BPF_MAP_TYPE_LPM_TRIE.
    Prefix(u8),
}

impl KeyKind {
    /// The most bytes of data that a key has.
    pub const MOST_BYTES: u8 = 64;

    /// Returns the number of bytes of a key.
    pub fn size(&self) -> usize
        ensures value { result ≡ size_of self.now }
        ensures few { result ≤ 4 + 255 }
    {
        match self {
            KeyKind::Exact(bytes) => *bytes as usize,
            KeyKind::Prefix(bytes) => 4 + *bytes as usize,
        }
    }

    /// Returns the number of bytes of data of a key.
    pub fn width(&self) -> usize
        ensures { result ≡ width_of self.now }
    {
        match self {
            KeyKind::Exact(bytes) | KeyKind::Prefix(bytes) => *bytes as usize,
        }
    }

    /// Returns whether there are 1 to 64 bytes of data.
    pub fn is_supported(&self) -> bool
        ensures { IsTrue result ↔ IsKind self.now }
    {
        let width = self.width();
        1 <= width && width <= KeyKind::MOST_BYTES as usize
    }

    /// The data of a key.
    pub fn data_bytes<'a>(&self, key: &'a [u8]) -> &'a [u8]
        requires { length key.now ≡ size_of self.now }
        ensures value { result.now ≡ data_of self.now key.now }
        ensures len { length result.now ≡ width_of self.now }
    {
        match self {
            KeyKind::Exact(_) => key,
            KeyKind::Prefix(_) => &key[4..],
        }
    }

    /// Returns the number of bits of its data that a key is about.
    pub fn data_bits(&self, key: &[u8]) -> u32
        requires { length key.now ≡ size_of self.now }
        ensures { result ≡ bits_of self.now key.now }
    {
        match self {
            KeyKind::Exact(bytes) => 8 * *bytes as u32,
            KeyKind::Prefix(_) => u32::from_le_bytes([key[0], key[1], key[2], key[3]]),
        }
    }
}

/// By what a map's values are looked up.
#[derive(Clone, Copy, Debug, PartialEq, Eq)]
pub enum MapKey {
    /// By their numbers, of four bytes, as in BPF_MAP_TYPE_ARRAY.
    Index,
    /// By the keys of a list that is given beside the program: value `k` is that of the list's row `k`.
    Listed(KeyKind),
    /// By nothing: the map is so many bytes of constants, which are given beside the program. A lookup finds nothing.
    Constants(u32),
}

impl MapKey {
    /// The most bytes of constants of a map.
    pub const MOST_CONSTANTS: u32 = 65536;

    /// Returns the number of bytes of a key.
    pub fn size(&self) -> u32
        ensures value { result ≡ key_size self.now }
        ensures few { result ≤ 4 + 255 }
    {
        match self {
            MapKey::Index | MapKey::Constants(_) => 4,
            MapKey::Listed(kind) => kind.size() as u32,
        }
    }

    /// Returns the number of bytes of constants.
    pub fn constant_bytes(&self) -> u32
        ensures { result ≡ constant_bytes self.now }
    {
        match self {
            MapKey::Index | MapKey::Listed(_) => 0,
            MapKey::Constants(bytes) => *bytes,
        }
    }

    /// Returns whether the keys of a list have 1 to 64 bytes of data, and constants at most 65,536 bytes.
    pub fn is_supported(&self) -> bool
        ensures { IsTrue result ↔ IsKey self.now }
    {
        match self {
            MapKey::Index => true,
            MapKey::Listed(kind) => kind.is_supported(),
            MapKey::Constants(bytes) => *bytes <= MapKey::MOST_CONSTANTS,
        }
    }
}
