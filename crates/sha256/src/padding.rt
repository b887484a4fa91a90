// The end of a message and the spelling of its digest: FIPS 180-4, 5.1.1 and 6.2.
ghost use Rattle.std.specs.Prelude.{◌≡◌, ◌+◌, ◌*◌, ◌≤◌, ◌∷◌, length, replicate};
ghost use Rattle.sha256.specs.Fips as fips;
ghost use Rattle.sha256.specs.Bytes.{wrote};

// The longest filler.
static FILLER: [u8; 64] = [
    128, 0, 0, 0, 0, 0, 0, 0, 0, 0, 0, 0, 0, 0, 0, 0, 0, 0, 0, 0, 0, 0, 0, 0, 0, 0, 0, 0, 0, 0, 0,
    0, 0, 0, 0, 0, 0, 0, 0, 0, 0, 0, 0, 0, 0, 0, 0, 0, 0, 0, 0, 0, 0, 0, 0, 0, 0, 0, 0, 0, 0, 0, 0,
    0,
];

// What stands between a message of `count` bytes and its length.
pub fn filler(count: u64) -> &'static [u8]
    ensures bytes { result.now ≡ 128 ∷ replicate (fips.zeros count) 0 }
    ensures least { fips.LeastZeros count (fips.zeros count) }
{
    &FILLER[..(119 - count as usize % 64) % 64 + 1]
}

// The length of a message, in bits.
pub fn bits(count: u64) -> [u8; 8]
    requires { count ≤ 16777216 }
    ensures { result ≡ fips.be64 (8 * count) }
{
    (8 * count).to_be_bytes()
}

// Copies `src` over `dst`, from the place `at` on.
pub fn put(dst: &mut [u8], at: usize, src: &[u8])
    requires { at + length src.now ≤ length dst.old }
    ensures { dst.new ≡ wrote dst.old at src.now }
{
    dst[at..at + src.len()].copy_from_slice(src);
}

// The eight words as bytes, the highest byte of each first.
pub fn spell(h: [u32; 8]) -> [u8; 32]
    ensures { result ≡ fips.spelled h }
{
    let words = h.map(u32::to_be_bytes);
    let mut out = [0u8; 32];
    out.copy_from_slice(words.as_flattened());
    out
}
