// The units of the unquoted attribute: four that have names, and `&#xHH;`.
ghost use Rattle.std.specs.Prelude.{◌≡◌, ◌≤◌, true, length};
ghost use Rattle.rules.specs.Tables.{value, reference};
ghost use Rattle.rules.specs.declared.Html.TheVariants.{Unquoted};
ghost use Rattle.reader.specs.Units.{is_other};
ghost use Rattle.read_units.specs.Units.{lowest, words_of, UnitAt};
ghost use Rattle.read_unquoted.specs.Numbered.{Numbered};

use read_units::units;

// The number of `&#x`, two digits of 0, and `;`.
const HEX: u64 = 0x3B00_0078_2326;

// Reports whether a byte is written as `&#xHH;`. It has no branch.
fn is_other(v: u8) -> bool
    ensures { result ≡ is_other v }
{
    (v < 128)
        & !(base::is_letter_or_digit(v)
            | ((v == b'&') | ((v == b'<') | ((v == b'>') | (v == b'"')))))
}

// Returns the number of the unit of such a byte.
fn hex_word(v: u8) -> u64
    ensures { result ≡ lowest 6 (value (reference v)) }
{
    let first = base::hex_digit(v / 16) as u64;
    let second = base::hex_digit(v % 16) as u64;
    HEX + first * 0x100_0000 + second * 0x1_0000_0000
}

// Reports whether six bytes are `&#xHH;` of a byte that is written so: the number of the digits, written again, is the same.
fn is_numbered(six: u64) -> bool
    ensures { result ≡ true → Numbered six }
{
    let v = units::value_of(
        (six / 0x100_0000 % 0x100) as u8,
        (six / 0x1_0000_0000 % 0x100) as u8,
    );
    is_other(v) & (six == hex_word(v))
}

// Reports whether a unit is at an offset, given the numbers of those that have names.
pub fn is_unit(words: &[u64; 4], text: &[u8], at: usize) -> bool
    requires { (words.now ≡ words_of Unquoted) × (at ≤ length text.now) }
    ensures { result ≡ true → UnitAt Unquoted text.now at }
{
    let six = units::six(text, at);
    units::is_word(words, six) | is_numbered(six)
}
