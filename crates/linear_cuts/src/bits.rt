// Sets of small numbers, as bits.
use scut_base::NoMemory;
use std::alloc::Global;

const WIDTH: usize = 64;

// The set of no numbers below a bound.
pub(crate) fn no_bits(alloc: Global, bound: usize) -> Result<Vec<u64>, NoMemory> {
    let words = vec![in alloc; 0; bound / WIDTH + 1]?;
    Ok(words)
}

pub(crate) fn has_bit(words: &[u64], at: usize) -> bool {
    match words.get(at / WIDTH) {
        Some(word) => word >> (at % WIDTH) & 1 == 1,
        None => false,
    }
}

// Puts a number in, or takes it out where it's there.
pub(crate) fn flip_bit(words: &mut [u64], at: usize) {
    if let Some(word) = words.get_mut(at / WIDTH) {
        *word ^= 1 << (at % WIDTH);
    }
}

// Makes a set that of the numbers which one of the two has and the other hasn't.
pub(crate) fn flip_all(words: &mut [u64], others: &[u64]) {
    for (word, other) in words.iter_mut().zip(others) {
        *word ^= *other;
    }
}

// How many numbers a set has.
pub(crate) fn count(words: &[u64]) -> usize {
    let mut sum = 0usize;
    for word in words {
        sum = sum.saturating_add(word.count_ones() as usize);
    }
    sum
}

// The numbers of a set, ascending.
pub(crate) fn members(alloc: Global, words: &[u64]) -> Result<Vec<usize>, NoMemory> {
    let mut members = Vec::new(alloc);
    for at in 0..words.len().saturating_mul(WIDTH) {
        if has_bit(words, at) {
            members.push(at)?;
        }
    }
    Ok(members)
}
