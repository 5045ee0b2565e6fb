// Search for a name in a lent table. The table is three slices of numbers: the bytes of the names one after the other, the length of each, and the
// number of the value of each. The names of one table begin with the same byte, which it does not have.
#![tactic(auto)]

ghost use Rattle.std.specs.Prelude.{◌≡◌, ◌∷◌, ℕ, ◌≤◌, ◌-◌, ◌&&◌, eqb, length, get_or, IsTrue};
ghost use Rattle.rules.specs.References.{lookup};
ghost use Rattle.rules.specs.Answers.{value_bytes, meaning_bytes};
ghost use Rattle.names_search.specs.Lent.{code_bytes, rows_of, is_table};

use rules::DecodedEntityValue;

mod listed;

// A lent table: the bytes of its names one after the other, the length of each, and the number of the value of each.
#[derive(Clone, Copy)]
pub struct Table<'a> {
    pub names: &'a [u8],
    pub lengths: &'a [u8],
    pub values: &'a [u16],
    ghost table: { IsTrue (is_table names.now lengths.now values.now) },
}

// Returns the byte of a part of a name at a place, 0 past its end.
pub fn byte_at(part: &[u8], place: usize) -> u8
    ensures { (result ≡ get_or part.now place 0) × (result ≤ 255) }
{
    match part.get(place) {
        Some(byte) => *byte,
        None => 0,
    }
}

// Reports whether two names have as many bytes and the same last one. Names of one table often begin alike and seldom end alike, so that nearly every row
// that is not the name fails here, before `==` is asked, which may call the library.
#[inline(always)]
fn ends_alike(other: &[u8], name: &[u8]) -> bool
    ensures { result ≡ (eqb (length other.now) (length name.now) && eqb (get_or other.now (length name.now - 1) 0) (get_or name.now (length name.now - 1) 0)) }
{
    let last = name.len().saturating_sub(1);
    other.len() == name.len() && byte_at(other, last) == byte_at(name, last)
}

// Returns the value that a table has as a number of two bytes: the number of a character, that of one above FFFF hex less so much that it fits, or that
// of a listed value. With the list in line `find` is too long to be compiled into each of its callers.
fn value_of(code: u16) -> DecodedEntityValue
    ensures { value_bytes result ≡ code_bytes code }
{
    if code < 0xE000 {
        return DecodedEntityValue::Character(code as u32);
    }
    if code < 0xF000 {
        return DecodedEntityValue::Character(0x1D400 + (code - 0xE000) as u32);
    }
    DecodedEntityValue::Named(listed::listed_value(code))
}

impl Table<'_> {
    // Returns the value of a name in the table, or nothing: the names are compared one by one. The first byte, which the table does not have, is no part
    // of `name` either.
    pub fn find(&self, name: &[u8]) -> Option<DecodedEntityValue>
        ensures { (b : ℕ) → meaning_bytes result ≡ lookup (rows_of b self.now.names.now self.now.lengths.now self.now.values.now) (b ∷ name.now) }
    {
        let mut rest = self.names;
        for (length, value) in self.lengths.iter().zip(self.values) {
            let (other, later) = rest.split_at(*length as usize);
            if ends_alike(other, name) && other == name {
                return Some(value_of(*value));
            }
            rest = later;
        }
        None
    }
}
