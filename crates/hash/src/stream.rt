// A message that comes a part at a time, for any hash of blocks of 64 bytes.
ghost use Rattle.std.specs.Prelude.{◌≡◌, ℕ, ◌+◌, ◌/◌, ◌^◌, ◌<◌, ◌≤◌, List, [], ◌++◌, length, take};
ghost use Rattle.hash.specs.Blocks.{run, hashed};
ghost use Rattle.hash.specs.Stream.{Holds, Grown};

// A hash of FIPS 180-4. A value of the type is a hash value.
pub trait Hash: Copy {
    // The initial hash value.
    ghost start_value: { Self };

    // The hash value after a block.
    ghost after_block: { Self → List ℕ → Self };

    // The hash value of a message.
    ghost value_of: { List ℕ → Self };

    fn initial() -> Self
        ensures { result ≡ start_value };

    fn compress(self, block: &[u8; 64]) -> Self
        ensures { result ≡ after_block self block.now };

    // A message is hashed in its padded form, block by block.
    ghost by_blocks: { (m : List ℕ) → hashed after_block start_value m ≡ value_of m };
}

// A hash whose value has N bytes, the highest of each word first.
pub trait Digest<const N: usize>: Hash {
    ghost bytes_of: { Self → List ℕ };

    fn bytes(self) -> [u8; N]
        ensures { result ≡ bytes_of self };
}

// A message that has been taken in: the hash value of its whole blocks, the bytes behind them at the front of `block`, and its length in bytes.
#[derive(Drop)]
pub struct State<H> {
    pub words: H,
    pub block: [u8; 64],
    pub length: u64,
}

// Puts s at a place of a block.
fn put(block: &mut [u8; 64], at: usize, s: &[u8])
    requires { at + length s.now ≤ 64 }
    ensures { take (at + length s.now) block.new ≡ take at block.old ++ s.now }
{
    block[at..at + s.len()].copy_from_slice(s);
}

// The hash value after the whole blocks of s.
fn blocks<H: Hash>(h: H, s: &[u8]) -> H
    ensures { result ≡ run H.after_block h (length s.now / 64) s.now }
{
    let mut words = h;
    let (whole, _) = s.as_chunks::<64>();
    for block in whole {
        words = words.compress(block);
    }
    words
}

impl<H: Hash> State<H> {
    // The empty message.
    #[tactic(auto, unfolding(crate::specs::Blocks::run))]
    pub fn start() -> Self
        ensures { Holds H.after_block H.start_value result.words result.block result.length [] }
    {
        State {
            words: H::initial(),
            block: [0u8; 64],
            length: 0,
        }
    }

    // The message with s behind it.
    pub fn update(self, s: &[u8]) -> Self
        requires { self.length + length s.now < 2 ^ 64 }
        ensures { Grown H.after_block H.start_value self.words self.block self.length s.now result.words result.block result.length }
    {
        let mut block = self.block;
        let filled = (self.length % 64) as usize;
        let length = self.length + s.len() as u64;
        if s.len() < 64 - filled {
            put(&mut block, filled, s);
            return State {
                words: self.words,
                block,
                length,
            };
        }
        let (head, rest) = s.split_at(64 - filled);
        put(&mut block, filled, head);
        let words = blocks(self.words.compress(&block), rest);
        let (_, tail) = rest.as_chunks::<64>();
        put(&mut block, 0, tail);
        State {
            words,
            block,
            length,
        }
    }

    // The hash value of the message.
    pub fn finish(self) -> H
        requires { self.length < 2 ^ 61 }
        ensures { (m : List ℕ) → Holds H.after_block H.start_value self.words self.block self.length m → result ≡ H.value_of m }
    {
        let bits = 8 * self.length;
        let zeros = (119 - self.length % 64) % 64;
        let mut mark = [0u8; 64];
        mark[0] = 128;
        let padded = self.update(&mark[..zeros as usize + 1]);
        padded.update(&bits.to_be_bytes()).words
    }
}

// The hash value of s.
pub fn of<H: Hash>(s: &[u8]) -> H
    requires { length s.now < 2 ^ 61 }
    ensures { result ≡ H.value_of s.now }
{
    State::start().update(s).finish()
}
