// Up to seven bytes as one word, which is stored whole: the first byte is the lowest, and the highest says how many they are.
ghost use Rattle.std.specs.Prelude.{◌≡◌, [], ◌∷◌, ◌/◌, ◌≤◌, length};
ghost use Rattle.rules.specs.Bytes.{over};
ghost use Rattle.base.specs.Words.{word_of, eight};

// Returns the word of a byte that is copied.
pub fn plain(b: u8) -> u64
    ensures { result ≡ word_of (b ∷ []) }
{
    0x0100_0000_0000_0000 + b as u64
}

// Stores the eight bytes of a word and returns how many of them count.
pub fn store(x: u64, output: &mut [u8]) -> usize
    requires { 8 ≤ length output.old }
    ensures { (result ≡ x / 0x100000000000000) × (output.new ≡ over (eight x) output.old) }
{
    output[..8].copy_from_slice(&x.to_le_bytes());
    (x / 0x100_0000_0000_0000) as usize
}
