// What is read from standard input.
ghost use Rattle.std.specs.Prelude.{◌≡◌, ◌≤◌, min, vec_len, IfOk};

use readers::read_full;
use records::inner::float_at;
use std::alloc::Global;
use std::io;
use std::io::Read;

// Records take no more bytes, and a list has no more elements.
const MOST_BYTES: u64 = 4096;

const MOST_ELEMENTS: u64 = 1024;

// A value that is kept as a word of eight bytes.
pub(crate) trait Word: Copy {
    fn of_word(word: &[u8; 8]) -> Self;
}

impl Word for u64 {
    fn of_word(word: &[u8; 8]) -> u64 {
        u64::from_le_bytes(*word)
    }
}

impl Word for u32 {
    fn of_word(word: &[u8; 8]) -> u32 {
        let [a, b, c, d, ..] = *word;
        u32::from_le_bytes([a, b, c, d])
    }
}

impl Word for f64 {
    fn of_word(word: &[u8; 8]) -> f64 {
        float_at(word, 0)
    }
}

// The line at the front.
pub(crate) fn skip_head(from: &mut impl Read) -> io::Result<()> {
    read_full(from, &mut [0; 128])?;
    Ok(())
}

// The next word; 0 past the end.
pub(crate) fn next<T: Word>(from: &mut impl Read) -> io::Result<T> {
    let mut word = [0; 8];
    read_full(from, &mut word)?;
    Ok(T::of_word(&word))
}

// The next words.
pub(crate) fn words<const N: usize>(from: &mut impl Read) -> io::Result<[u64; N]> {
    let mut words = [0; N];
    for word in words.iter_mut() {
        *word = next(from)?;
    }
    Ok(words)
}

// The next bytes; 0 past the end.
pub(crate) fn bytes(alloc: Global, from: &mut impl Read, length: u64) -> io::Result<Vec<u8>>
    ensures { IfOk result (λ v. vec_len v ≡ min length 4096) }
{
    let mut bytes = vec![in alloc; 0; length.min(MOST_BYTES) as usize]?;
    read_full(from, &mut bytes)?;
    Ok(bytes)
}

// The next words as a list.
pub(crate) fn list<T: Word>(alloc: Global, from: &mut impl Read, length: u64) -> io::Result<Vec<T>>
    ensures { IfOk result (λ v. vec_len v ≤ 1024) }
{
    (0..length.min(MOST_ELEMENTS))
        .map(|_| next(from))
        .try_collect(alloc)
}
