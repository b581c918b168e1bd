// SHA-1.
ghost use Rattle.std.specs.Prelude.{◌≡◌};
ghost use Rattle.hash.specs.Sha1 as sha;

use super::stream::{Digest, Hash};
use super::word::{begin, ch, maj, parity, put_bytes};

// A hash value: five words.
#[derive(Clone, Copy)]
pub struct Words {
    pub a: u32,
    pub b: u32,
    pub c: u32,
    pub d: u32,
    pub e: u32,
}

// The words of a block's turns.
fn schedule(block: &[u8; 64]) -> [u32; 80]
    ensures { result ≡ sha.schedule block.now }
{
    let mut w = begin::<80>(block);
    for t in 16..80 {
        w[t] = (w[t - 3] ^ w[t - 8] ^ w[t - 14] ^ w[t - 16]).rotate_left(1);
    }
    w
}

// One turn: x is the function's value, k the constant and w the word.
#[tactic(auto, unfolding(crate::specs::Sha1::step))]
fn turn(s: Words, x: u32, k: u32, w: u32) -> Words
    ensures { result ≡ sha.step x k w s }
{
    Words {
        a: s.a
            .rotate_left(5)
            .wrapping_add(x)
            .wrapping_add(s.e)
            .wrapping_add(k)
            .wrapping_add(w),
        b: s.a,
        c: s.b.rotate_left(30),
        d: s.c,
        e: s.d,
    }
}

// The sums of two hash values, word by word.
#[tactic(auto, unfolding(crate::specs::Sha1::sums))]
fn sums(x: Words, y: Words) -> Words
    ensures { result ≡ sha.sums x y }
{
    Words {
        a: x.a.wrapping_add(y.a),
        b: x.b.wrapping_add(y.b),
        c: x.c.wrapping_add(y.c),
        d: x.d.wrapping_add(y.d),
        e: x.e.wrapping_add(y.e),
    }
}

impl Hash for Words {
    ghost start_value = { sha.initial };

    ghost after_block = { sha.compress };

    ghost value_of = { sha.sha1 };

    #[tactic(auto, unfolding(crate::specs::Sha1::initial))]
    fn initial() -> Words {
        Words {
            a: 0x67452301,
            b: 0xefcdab89,
            c: 0x98badcfe,
            d: 0x10325476,
            e: 0xc3d2e1f0,
        }
    }

    fn compress(self, block: &[u8; 64]) -> Words {
        let w = schedule(block);
        let mut s = self;
        'first: for t in 0..20 {
            s = turn(s, ch(s.b, s.c, s.d), 0x5a827999, w[t]);
        }
        'second: for t in 20..40 {
            s = turn(s, parity(s.b, s.c, s.d), 0x6ed9eba1, w[t]);
        }
        'third: for t in 40..60 {
            s = turn(s, maj(s.b, s.c, s.d), 0x8f1bbcdc, w[t]);
        }
        'last: for t in 60..80 {
            s = turn(s, parity(s.b, s.c, s.d), 0xca62c1d6, w[t]);
        }
        sums(s, self)
    }

    ghost by_blocks = { sha.by_blocks };
}

impl Digest<20> for Words {
    ghost bytes_of = { sha.bytes };

    #[tactic(auto, unfolding(crate::specs::Sha1::bytes, crate::specs::Blocks::in_bytes, crate::specs::Blocks::big_endian))]
    fn bytes(self) -> [u8; 20] {
        let mut out = [0u8; 20];
        put_bytes(&mut out, &[self.a, self.b, self.c, self.d, self.e]);
        out
    }
}
