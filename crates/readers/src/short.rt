// Short texts: the result is written at once to a room of its own, and copied if the text is a form. Measuring it first would take as long again.
ghost use Rattle.std.specs.Prelude.{◌≡◌, ◌≤◌, length};
ghost use Rattle.rules.specs.Utf8.{valid_to};
ghost use Rattle.outcomes.specs.Outcomes.{Reads};

use crate::general;
use outcomes::Outcome;
use rules::Context;

// The longest text that is short, which is as long as the room.
pub const LONGEST: usize = 64;

// Reads a short text that is valid.
fn read_valid(c: Context, text: &[u8], output: &mut [u8]) -> Outcome
    requires { (length text.now ≤ 64) × (valid_to text.now ≡ length text.now) }
    ensures { Reads c text.now output.old output.new result }
{
    let mut room = [0u8; LONGEST];
    let done = general::write_read(c, text, &mut room);
    if done.place < text.len() {
        return Outcome::Untried;
    }
    if done.replaced == 0 {
        return Outcome::Same;
    }
    if output.len() < done.length {
        return Outcome::NoRoom(done.length);
    }
    base::put_run(&room[..done.length], output);
    Outcome::Written(done.length, done.replaced)
}

// Reads a short text, if it is valid.
pub fn read(c: Context, text: &[u8], output: &mut [u8]) -> Outcome
    requires { length text.now ≤ 64 }
    ensures { Reads c text.now output.old output.new result }
{
    if utf8::valid_to(text) < text.len() {
        return Outcome::Untried;
    }
    read_valid(c, text, output)
}
