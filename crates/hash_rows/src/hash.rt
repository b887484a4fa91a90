ghost use Rattle.std.specs.Prelude.{◌≡◌, length, replicate};

// A digest of 32 bytes. Hashes are in byte order.
// The length stands as a fact too: specs take hashes as a list, without what the code knows of an array, and a text with hashes in it is
// short only if each of them has 32 bytes.
#[derive(Clone, Copy, PartialEq, Eq, PartialOrd, Ord)]
pub struct Hash {
    pub bytes: [u8; 32],
    ghost wide: { length bytes ≡ 32 },
}

// By hand: `Default` is not derived over a ghost field.
impl Default for Hash {
    ghost is_default = { λ h. h.bytes ≡ replicate 32 0 };

    fn default() -> Hash {
        Hash { bytes: [0; 32] }
    }
}

// The hash of an input, and the number of the input row.
#[derive(Clone, Copy, Default)]
pub struct HashRow {
    pub hash: Hash,
    pub row: usize,
}
