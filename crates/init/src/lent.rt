// Data words as they are copied out of the script that lent them.
ghost use Rattle.std.specs.Prelude.{◌≡◌, get_or};
ghost use Rattle.init.specs.Lent.{sixteen_of};

// Word k, 0 past their end.
pub fn word(words: &[u32], k: usize) -> u32
    ensures { result ≡ get_or words.now k 0 }
{
    if k < words.len() { words[k] } else { 0 }
}

// The first sixteen, zeros past their end.
pub fn sixteen(words: &[u32]) -> [u32; 16]
    ensures { result ≡ sixteen_of words.now }
{
    let mut first = [0u32; 16];
    for k in 0..16 {
        first[k] = word(words, k);
    }
    first
}
