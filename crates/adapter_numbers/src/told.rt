// What is told of the open request.
ghost use Rattle.std.specs.Prelude.{◌≡◌, ◌≤◌, length};
ghost use Rattle.editor_write.specs.Requests.{answer_of, len_of, place_of};
ghost use Rattle.adapter_numbers.specs.Asks.{Told};

use editor_terms::refusal::Refusal;
use editor_write::request::Asked;

// The number of what a request gave; the place of a tree that was read goes to the front of the path, and its length and the tree's to the lengths.
pub fn tell_request(asked: Result<Asked, Refusal>, path: &mut [u8], lens: &mut [usize]) -> u8
    requires { (1024 ≤ length path.old) × (2 ≤ length lens.old) }
    ensures { Told (answer_of asked) (len_of asked) (place_of asked) path.old lens.old result path.new lens.new }
{
    match asked {
        Ok(asked) => {
            let at = editor::cursor::sound(asked.at);
            lens[0] = asked.len;
            lens[1] = names::write::put(path, 0, &at.prefix[..at.len]);
            0
        }
        Err(refusal) => {
            if let Refusal::OutputShort(needed) = refusal {
                lens[0] = needed;
            }
            u8::from(refusal)
        }
    }
}
