// Lent memory set to zero, in pieces of at most 2 KB: those the C library clears by vector stores, and longer ones by a string
// instruction, which a count of instructions takes for one a byte.
#![tactic(auto)]

ghost use Rattle.std.specs.Prelude.{◌≡◌, ◌++◌, ◌-◌, ◌≤◌, ◌<◌, length, take, replicate};

// Where a piece ends that starts at a place before n and has at most `size` elements.
fn piece_end(at: usize, size: usize, n: usize) -> usize
    requires { (at < n) × (0 < size) }
    ensures { (at < result) × (result ≤ n) }
{
    if n - at < size { n } else { at + size }
}

#[tactic(auto, using(crate::proofs::Zeros::zeros))]
fn clear_few_words(words: &mut [u32])
    ensures { words.new ≡ replicate (length words.old) 0 }
{
    let mut k = 0;
    while k < words.len() {
        words[k] = 0;
        k += 1;
    }
}

// All words.
#[tactic(auto, using(crate::proofs::Zeros::zeros))]
pub fn clear_words(words: &mut [u32])
    ensures { words.new ≡ replicate (length words.old) 0 }
{
    let mut at = 0;
    while at < words.len() {
        let end = piece_end(at, 512, words.len());
        clear_few_words(&mut words[at..end]);
        at = end;
    }
}

#[tactic(auto, using(crate::proofs::Zeros::zeros))]
fn clear_few_bytes(bytes: &mut [u8])
    ensures { bytes.new ≡ replicate (length bytes.old) 0 }
{
    let mut i = 0;
    while i < bytes.len() {
        bytes[i] = 0;
        i += 1;
    }
}

// All bytes.
#[tactic(auto, using(crate::proofs::Zeros::zeros))]
fn clear_bytes(bytes: &mut [u8])
    ensures { bytes.new ≡ replicate (length bytes.old) 0 }
{
    let mut at = 0;
    while at < bytes.len() {
        let end = piece_end(at, 2048, bytes.len());
        clear_few_bytes(&mut bytes[at..end]);
        at = end;
    }
}

// The bytes from a place on; none where the place lies past the end.
pub fn clear_from(bytes: &mut [u8], at: usize)
    ensures { bytes.new ≡ take at bytes.old ++ replicate (length bytes.old - at) 0 }
{
    if at < bytes.len() {
        clear_bytes(&mut bytes[at..]);
    }
}
