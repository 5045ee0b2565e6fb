// What is written for a byte, as one word: up to six bytes, the first the lowest, and their number in the highest byte.
ghost use Rattle.std.specs.Prelude.{◌≡◌, [], ◌∷◌, length};
ghost use Rattle.rules.specs.Answers.{replacement_move};
ghost use Rattle.rules.specs.Moves.{gives};
ghost use Rattle.base.specs.Words.{word_of};
ghost use Rattle.encode_strings.specs.Strings.{hex_by, hex_in};
ghost use Rattle.strings_ahead.specs.Ahead.{word_in, Table};

use base::words::plain;
use encode_strings::rule;
use rules::{Notation, Quotes};

// `\x`, room for two digits
const SCRIPT_HEX: u64 = 0x0400_0000_0000_785C;
// `\`, room for two digits, a space
const STYLE_HEX: u64 = 0x0400_0000_2000_005C;
// `\u00`, room for two digits
const JSON_HEX: u64 = 0x0600_0000_3030_755C;
// U+FFFD
const SUBSTITUTE: u64 = 0x0300_0000_00BD_BFEF;
// `\`, room for a byte
const SLASHED: u64 = 0x0200_0000_0000_005C;
// no bytes: what is written for E2 depends on the bytes after it, and so its word is higher than all others
const LEAD: u64 = 0x0800_0000_0000_0000;

// Returns the word of a byte that is written with its two hex digits.
fn hex(notation: Notation, b: u8) -> u64
    ensures { result ≡ word_of (hex_in notation b) }
{
    let high = base::hex_digit(b / 16) as u64;
    let low = base::hex_digit(b % 16) as u64;
    match notation {
        Notation::Script => SCRIPT_HEX + high * 0x1_0000 + low * 0x100_0000,
        Notation::Style => STYLE_HEX + high * 0x100 + low * 0x1_0000,
        Notation::Json => JSON_HEX + high * 0x1_0000_0000 + low * 0x100_0000_0000,
    }
}

// Returns the word of a byte of `is_hexed`: of its hex digits, but for NUL in a style string.
fn hexed(notation: Notation, b: u8) -> u64
    ensures { result ≡ word_of (gives (replacement_move notation (b ∷ []) (hex_by notation b))) }
{
    if rule::separates(notation) {
        return hex(notation, b);
    }
    if b == 0 {
        return SUBSTITUTE;
    }
    hex(notation, b)
}

// Returns the word of a byte. Above the backslash all but E2 are copied, which settles most of them at once.
fn word(notation: Notation, quotes: Quotes, b: u8) -> u64
    ensures { result ≡ word_in notation quotes b }
{
    if b == rule::SEPARATOR_LEAD {
        return LEAD;
    }
    if b'\\' < b {
        return plain(b);
    }
    let single = rule::single_key(notation, quotes);
    let double = rule::double_key(notation, quotes);
    if rule::is_slashed(single, double, b) {
        return SLASHED + b as u64 * 0x100;
    }
    if rule::is_hexed(b) {
        return hexed(notation, b);
    }
    plain(b)
}

// Fills a table with the word of every byte. A call on a long text does so once and lends the table to its loop, in which a word is then one load.
pub fn fill(notation: Notation, quotes: Quotes, table: &mut [u64; 256])
    requires { length table.old ≡ 256 }
    ensures { Table notation quotes table.new }
{
    for b in 0..256 {
        table[b] = word(notation, quotes, b as u8);
    }
}
