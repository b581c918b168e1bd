// A map of 64 tree slots in one word: the slots whose bits are set.
ghost use Rattle.std.specs.Prelude.{◌≡◌, ◌+◌, ◌^◌, ◌<◌, get_or, set, eqb};
ghost use Rattle.store_runs.specs.Digits.{digits, first_set};
ghost use Rattle.store_runs.specs.Runs.{total};

// The number of slots that are set.
pub fn count(map: u64) -> usize
    ensures { result ≡ total (digits 64 map) }
{
    map.count_ones() as usize
}

// The first slot that is set, or 64.
// Stays: as u64::trailing_zeros has it; the one caller knows that a slot is free, and would have to rule out None.
pub fn first(map: u64) -> usize
    ensures { result ≡ first_set (digits 64 map) }
{
    map.trailing_zeros() as usize
}

pub fn is_set(map: u64, slot: usize) -> bool
    requires { slot < 64 }
    ensures { result ≡ eqb (get_or (digits 64 map) slot 0) 1 }
{
    (map >> slot) % 2 == 1
}

// The map without the slot, which is set.
pub fn clear(map: u64, slot: usize) -> u64
    requires { (slot < 64) × (get_or (digits 64 map) slot 0 ≡ 1) }
    ensures { digits 64 result ≡ set (digits 64 map) slot 0 }
{
    map - (1u64 << slot)
}

// The map with the slot set, whether it was set or not.
pub fn set(map: u64, slot: usize) -> u64
    requires { slot < 64 }
    ensures { (digits 64 result ≡ set (digits 64 map) slot 1) × (get_or (digits 64 map) slot 0 ≡ 0 → result ≡ map + 2 ^ slot) }
{
    if is_set(map, slot) {
        map
    } else {
        map + (1u64 << slot)
    }
}
