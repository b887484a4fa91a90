// The hash of one block: FIPS 180-4, 6.2.2.
ghost use Rattle.std.specs.Prelude.{◌≡◌, ℕ, ◌+◌, ◌<◌, ◌≤◌, List, take, fold, zip};
ghost use Rattle.sha256.specs.Fips as fips;

use crate::words;
use std::array;

// W_t from the words before it.
fn mixed(w: &[u32; 64], t: usize) -> u32
    requires { (16 ≤ t) × (t < 64) }
    ensures { result ≡ fips.mixed w.now t }
{
    words::small_sigma1(w[t - 2])
        .wrapping_add(w[t - 7])
        .wrapping_add(words::small_sigma0(w[t - 15]))
        .wrapping_add(w[t - 16])
}

// Stores the eight words from `at` on. Each is mixed of those 2, 7, 15 and 16 places before it, so this goes by places.
fn extend(w: &mut [u32; 64], at: usize)
    requires { (16 ≤ at) × (at ≤ 56) }
    ensures { (b : List ℕ) → take at w.old ≡ fips.schedule at b → take (at + 8) w.new ≡ fips.schedule (at + 8) b }
{
    for t in at..at + 8 {
        let next = mixed(w, t);
        w[t] = next;
    }
}

// The words of a block.
fn schedule(block: &[u8; 64]) -> [u32; 64]
    ensures { result ≡ fips.schedule 64 block.now }
{
    let mut w = [0u32; 64];
    // By places: these are the first 16 of 64. `array::from_fn` would make a second array, to be copied,
    // and with `zip` over `iter_mut` the loop's invariant has no name for the array, so the proof did not close.
    'first: for (t, bytes) in block.as_chunks().0.iter().enumerate() {
        w[t] = u32::from_be_bytes(*bytes);
    }
    // Eight at a time, which the compiler writes out: one loop over the 48 places takes a twelfth longer.
    'rest: for q in 2..8 {
        extend(&mut w, 8 * q);
    }
    w
}

fn round(s: [u32; 8], k: u32, w: u32) -> [u32; 8]
    ensures { result ≡ fips.round s k w }
{
    let [a, b, c, d, e, f, g, h] = s;
    let t1 = h
        .wrapping_add(words::big_sigma1(e))
        .wrapping_add(words::ch(e, f, g))
        .wrapping_add(k)
        .wrapping_add(w);
    let t2 = words::big_sigma0(a).wrapping_add(words::maj(a, b, c));
    [t1.wrapping_add(t2), a, b, c, d.wrapping_add(t1), e, f, g]
}

// Eight rounds, by their words and constants. They are written out, since a fold over the words one by one takes a fifth longer:
// here each word of the state is again in its own register at the end.
fn eight(s: [u32; 8], part: (&[u32; 8], &[u32; 8])) -> [u32; 8]
    ensures { result ≡ fips.rounded s (zip part.entry.0.now part.entry.1.now) }
{
    let (w, k) = part;
    let s1 = round(s, k[0], w[0]);
    let s2 = round(s1, k[1], w[1]);
    let s3 = round(s2, k[2], w[2]);
    let s4 = round(s3, k[3], w[3]);
    let s5 = round(s4, k[4], w[4]);
    let s6 = round(s5, k[5], w[5]);
    let s7 = round(s6, k[6], w[6]);
    round(s7, k[7], w[7])
}

fn rounds(start: [u32; 8], w: &[u32; 64]) -> [u32; 8]
    ensures { result ≡ fips.rounds 64 w.now start }
{
    let (words, _) = w.as_chunks();
    let (constants, _) = words::constants().as_chunks();
    words.iter().zip(constants).fold(start, eight)
}

fn added(h: [u32; 8], s: [u32; 8]) -> [u32; 8]
    ensures { result ≡ fips.added h s }
{
    array::from_fn(|i| s[i].wrapping_add(h[i]))
}

pub fn compress(h: [u32; 8], block: &[u8; 64]) -> [u32; 8]
    ensures { result ≡ fips.block h block.now }
{
    let w = schedule(block);
    added(h, rounds(h, &w))
}

// The words after some blocks.
pub fn compress_all(start: [u32; 8], blocks: &[[u8; 64]]) -> [u32; 8]
    ensures { result ≡ fold fips.block start blocks.now }
{
    blocks.iter().fold(start, compress)
}
