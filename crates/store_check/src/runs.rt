// The runs of a store: for each slot one, end to end in one slice, with their lengths in another.
ghost use Rattle.std.specs.Prelude.{◌≡◌, [], ◌≤◌, ◌<◌, length, get_or, MatchOption};
ghost use Rattle.std.specs.Iterator.{YieldsFirstRef, item_count};
ghost use Rattle.store_runs.specs.Runs.{total, cut, Sound};

#[derive(Clone, Copy)]
pub struct Runs<'a> {
    pub lens: &'a [u64],
    pub bytes: &'a [u8],
    pub used: usize,
    ghost lens_64: { length lens.now ≡ 64 },
    ghost sound: { Sound lens.now bytes.now used },
}

impl<'a> Runs<'a> {
    // The runs, if the lengths add up to the bytes in use, which the slice has.
    pub fn of(lens: &'a [u64], bytes: &'a [u8], used: usize) -> Option<Self>
        requires { length lens.now ≡ 64 }
        ensures { MatchOption result (Sound lens.now bytes.now used → ⊥) (λ r. (r.lens.now ≡ lens.now) × (r.bytes.now ≡ bytes.now) × (r.used ≡ used)) }
    {
        if bytes.len() < used || !store_runs::runs::sum_is(lens, used) {
            return None;
        }
        Some(Runs { lens, bytes, used })
    }

    // The run k.
    pub fn run(self, k: usize) -> &'a [u8]
        requires { k < 64 }
        ensures { result.now ≡ get_or (cut self.entry.lens.now self.entry.bytes.now) k [] }
    {
        store_runs::runs::run(self.lens, self.bytes, self.used, k)
    }

    // All of them, one after the other.
    pub fn iter(self) -> Each<'a>
        ensures { cut result.lens.now result.bytes.now ≡ cut self.entry.lens.now self.entry.bytes.now }
    {
        Each {
            lens: self.lens,
            bytes: self.bytes,
        }
    }
}

// The runs from one on.
#[derive(Clone, Copy)]
pub struct Each<'a> {
    lens: &'a [u64],
    bytes: &'a [u8],
    ghost fits: { total lens.now ≤ length bytes.now },
}

impl<'a> Iterator for Each<'a> {
    type Item = &'a [u8];

    ghost next_gives = { YieldsFirstRef (λ s. cut s.lens.now s.bytes.now) };

    ghost remaining = { item_count (λ s. cut s.lens.now s.bytes.now) };

    fn next(&mut self) -> Option<&'a [u8]> {
        let (n, lens) = self.lens.split_first()?;
        let (run, bytes) = self.bytes.split_at(*n as usize);
        *self = Each { lens, bytes };
        Some(run)
    }
}
