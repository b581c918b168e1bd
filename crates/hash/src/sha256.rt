// SHA-256.
ghost use Rattle.std.specs.Prelude.{◌≡◌};
ghost use Rattle.hash.specs.Sha256 as sha;

use super::stream::{Digest, Hash};
use super::word::{begin, ch, maj, put_bytes};

// A hash value: eight words.
#[derive(Clone, Copy)]
pub struct Words {
    pub a: u32,
    pub b: u32,
    pub c: u32,
    pub d: u32,
    pub e: u32,
    pub f: u32,
    pub g: u32,
    pub h: u32,
}

const TURN: [u32; 64] = [
    0x428a2f98, 0x71374491, 0xb5c0fbcf, 0xe9b5dba5, 0x3956c25b, 0x59f111f1, 0x923f82a4, 0xab1c5ed5,
    0xd807aa98, 0x12835b01, 0x243185be, 0x550c7dc3, 0x72be5d74, 0x80deb1fe, 0x9bdc06a7, 0xc19bf174,
    0xe49b69c1, 0xefbe4786, 0x0fc19dc6, 0x240ca1cc, 0x2de92c6f, 0x4a7484aa, 0x5cb0a9dc, 0x76f988da,
    0x983e5152, 0xa831c66d, 0xb00327c8, 0xbf597fc7, 0xc6e00bf3, 0xd5a79147, 0x06ca6351, 0x14292967,
    0x27b70a85, 0x2e1b2138, 0x4d2c6dfc, 0x53380d13, 0x650a7354, 0x766a0abb, 0x81c2c92e, 0x92722c85,
    0xa2bfe8a1, 0xa81a664b, 0xc24b8b70, 0xc76c51a3, 0xd192e819, 0xd6990624, 0xf40e3585, 0x106aa070,
    0x19a4c116, 0x1e376c08, 0x2748774c, 0x34b0bcb5, 0x391c0cb3, 0x4ed8aa4a, 0x5b9cca4f, 0x682e6ff3,
    0x748f82ee, 0x78a5636f, 0x84c87814, 0x8cc70208, 0x90befffa, 0xa4506ceb, 0xbef9a3f7, 0xc67178f2,
];

fn big0(x: u32) -> u32
    ensures { result ≡ sha.big0 x }
{
    x.rotate_right(2) ^ x.rotate_right(13) ^ x.rotate_right(22)
}

fn big1(x: u32) -> u32
    ensures { result ≡ sha.big1 x }
{
    x.rotate_right(6) ^ x.rotate_right(11) ^ x.rotate_right(25)
}

fn small0(x: u32) -> u32
    ensures { result ≡ sha.small0 x }
{
    x.rotate_right(7) ^ x.rotate_right(18) ^ (x >> 3)
}

fn small1(x: u32) -> u32
    ensures { result ≡ sha.small1 x }
{
    x.rotate_right(17) ^ x.rotate_right(19) ^ (x >> 10)
}

// The words of a block's turns.
fn schedule(block: &[u8; 64]) -> [u32; 64]
    ensures { result ≡ sha.schedule block.now }
{
    let mut w = begin::<64>(block);
    for t in 16..64 {
        w[t] = small1(w[t - 2])
            .wrapping_add(w[t - 7])
            .wrapping_add(small0(w[t - 15]))
            .wrapping_add(w[t - 16]);
    }
    w
}

#[tactic(auto, unfolding(crate::specs::Sha256::T1))]
fn first(s: Words, k: u32, w: u32) -> u32
    ensures { result ≡ sha.T1 k w s }
{
    s.h.wrapping_add(big1(s.e))
        .wrapping_add(ch(s.e, s.f, s.g))
        .wrapping_add(k)
        .wrapping_add(w)
}

#[tactic(auto, unfolding(crate::specs::Sha256::T2))]
fn second(s: Words) -> u32
    ensures { result ≡ sha.T2 s }
{
    big0(s.a).wrapping_add(maj(s.a, s.b, s.c))
}

// One turn: k is the constant and w the word.
#[tactic(auto, unfolding(crate::specs::Sha256::step))]
fn turn(s: Words, k: u32, w: u32) -> Words
    ensures { result ≡ sha.step k w s }
{
    let x = first(s, k, w);
    let y = second(s);
    Words {
        a: x.wrapping_add(y),
        b: s.a,
        c: s.b,
        d: s.c,
        e: s.d.wrapping_add(x),
        f: s.e,
        g: s.f,
        h: s.g,
    }
}

// The sums of two hash values, word by word.
#[tactic(auto, unfolding(crate::specs::Sha256::sums))]
fn sums(x: Words, y: Words) -> Words
    ensures { result ≡ sha.sums x y }
{
    Words {
        a: x.a.wrapping_add(y.a),
        b: x.b.wrapping_add(y.b),
        c: x.c.wrapping_add(y.c),
        d: x.d.wrapping_add(y.d),
        e: x.e.wrapping_add(y.e),
        f: x.f.wrapping_add(y.f),
        g: x.g.wrapping_add(y.g),
        h: x.h.wrapping_add(y.h),
    }
}

impl Hash for Words {
    ghost start_value = { sha.initial };

    ghost after_block = { sha.compress };

    ghost value_of = { sha.sha256 };

    #[tactic(auto, unfolding(crate::specs::Sha256::initial))]
    fn initial() -> Words {
        Words {
            a: 0x6a09e667,
            b: 0xbb67ae85,
            c: 0x3c6ef372,
            d: 0xa54ff53a,
            e: 0x510e527f,
            f: 0x9b05688c,
            g: 0x1f83d9ab,
            h: 0x5be0cd19,
        }
    }

    fn compress(self, block: &[u8; 64]) -> Words {
        let w = schedule(block);
        let mut s = self;
        // After four turns all eight words are new, so the compiler writes a row out, with no word to move.
        for row in 0..16 {
            for t in 4 * row..4 * row + 4 {
                s = turn(s, TURN[t], w[t]);
            }
        }
        sums(s, self)
    }

    ghost by_blocks = { sha.by_blocks };
}

impl Digest<32> for Words {
    ghost bytes_of = { sha.bytes };

    #[tactic(auto, unfolding(crate::specs::Sha256::bytes, crate::specs::Blocks::in_bytes, crate::specs::Blocks::big_endian))]
    fn bytes(self) -> [u8; 32] {
        let mut out = [0u8; 32];
        let words = [
            self.a, self.b, self.c, self.d, self.e, self.f, self.g, self.h,
        ];
        put_bytes(&mut out, &words);
        out
    }
}
