// The words of a module from its bytes, the lowest byte first.
#![tactic(auto)]

ghost use Rattle.std.specs.Prelude.{◌≡◌, ◌++◌, ◌+◌, ◌*◌, ◌/◌, ◌≤◌, length, take, drop};
ghost use Rattle.spirv_input.specs.Bytes.{word_of, words_in};

// Word k of the bytes.
pub fn word_of(bytes: &[u8], k: usize) -> u32
    requires { k * 4 + 4 ≤ length bytes.now }
    ensures { result ≡ word_of bytes.now k }
{
    let at = k * 4;
    u32::from_le_bytes([bytes[at], bytes[at + 1], bytes[at + 2], bytes[at + 3]])
}

// Appends the words of the bytes after those that are held, and answers how many are held then.
// Kept: the whole table and how much of it is held are a promise to callers; lent the free part alone, each caller would cut it off, add the counts and
// say in its own clauses where the part begins.
pub fn append(words: &mut [u32], held: usize, bytes: &[u8]) -> usize
    requires { held + length bytes.now / 4 ≤ length words.old }
    ensures { (result ≡ held + length bytes.now / 4)
        × (words.new ≡ take held words.old ++ words_in bytes.now (length bytes.now / 4) ++ drop (held + length bytes.now / 4) words.old) }
{
    for (k, part) in bytes.chunks_exact(4).enumerate() {
        words[held + k] = word_of(part, 0);
    }
    held + bytes.len() / 4
}
