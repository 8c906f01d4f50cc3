// Bytes as a word, the lowest first: four together where they remain, or those that are left.
ghost use Rattle.std.specs.Prelude.{◌+◌, ◌-◌, ◌≤◌, ◌<◌, ◌≡◌, length, get_or};
ghost use Rattle.leb128_reader.specs.Word.{word_at};

// How many offsets have four bytes from there on.
pub fn full(bytes: &[u8]) -> usize
    ensures { result ≡ length bytes.now - 3 }
{
    bytes.len().saturating_sub(3)
}

// The word at an offset where four bytes remain.
#[tactic(auto, unfolding(crate::specs::Word::word_at))]
pub fn four_at(bytes: &[u8], at: usize) -> u32
    requires { at + 4 ≤ length bytes.now }
    ensures { result ≡ word_at bytes.now at }
{
    u32::from_le_bytes([bytes[at], bytes[at + 1], bytes[at + 2], bytes[at + 3]])
}

// The byte at an offset, 0 past the end.
fn byte_at(bytes: &[u8], at: usize) -> u8
    ensures { result ≡ get_or bytes.now at 0 }
{
    bytes.get(at).copied().unwrap_or(0)
}

// The word at an offset where one, two or three bytes remain.
#[tactic(auto, using(crate::proofs::Groups::past), unfolding(crate::specs::Word::word_at))]
pub fn left_at(bytes: &[u8], at: usize) -> u32
    requires { (at < length bytes.now) × (length bytes.now ≤ at + 3) }
    ensures { result ≡ word_at bytes.now at }
{
    u32::from_le_bytes([bytes[at], byte_at(bytes, at + 1), byte_at(bytes, at + 2), 0])
}
