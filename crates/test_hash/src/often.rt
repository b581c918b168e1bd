// A message that is the same bytes a thousand times, taken in a part at a time.
ghost use Rattle.std.specs.Prelude.{◌≤◌, length};

use hash::{Hash, State};

pub fn often<H: Hash>(part: &[u8]) -> H
    requires { length part.now ≤ 8192 }
{
    let mut state = State::start();
    for _ in 0..1000u32 {
        state = state.update(part);
    }
    state.finish()
}
