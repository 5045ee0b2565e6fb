// The names without `;`: the one that stands at the head of a text. None begins another, so there is one at most.
#![tactic(auto)]

ghost use Rattle.std.specs.Prelude.{MatchOption};
ghost use Rattle.names_bare.specs.Heads.{Heads, Headless, Spelled};

mod table;

// The name at the head of a text: its length, and the number of the character that it stands for.
#[derive(Clone, Copy)]
pub struct BareName {
    pub length: usize,
    pub character: u32,
}

// Finds the name without `;` at the head of a text whose first two bytes are `head`. It is looked up at each length, of two to six bytes, as one number.
fn find_from(text: &[u8], head: u64) -> Option<BareName>
    requires { Spelled text.now 2 head }
    ensures { MatchOption result (Headless text.now) (Heads text.now) }
{
    let mut word: u64 = head;
    for length in 2..7 {
        if let Some(character) = table::character(word * 8 + length as u64) {
            return Some(BareName { length, character });
        }
        word = word * 256 + u64::from(*text.get(length)?);
    }
    None
}

// Finds the name without `;` at the head of a text.
pub fn find(text: &[u8]) -> Option<BareName>
    ensures { MatchOption result (Headless text.now) (Heads text.now) }
{
    let [first, second, ..] = text else {
        return None;
    };
    let head = u64::from(*first) * 256 + u64::from(*second);
    if !table::begins(head) {
        return None;
    }
    find_from(text, head)
}
