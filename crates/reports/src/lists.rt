// What is lent, changed item by item.
use crate::input::number;
use std::num::f64_from_bits_with_nan;

#[derive(Drop)]
pub struct Lent {
    pub words: [i32; 2844],
    pub values: [f64; 231],
    pub counts: [u32; 69],
    pub numbers: [u32; 14],
}

// Which list of what is lent.
#[derive(Clone, Copy)]
pub enum List {
    Words,
    Values,
    Counts,
    Numbers,
}

// The word that a number stands for.
pub fn word(n: u64) -> i32 {
    let m = (n % 0x8000_0000) as i32;
    if n < 0x8000_0000 { m } else { !m }
}

// The low half of a number.
fn low(n: u64) -> u32 {
    (n % 0x1_0000_0000) as u32
}

// Changes the item at a place, if there is one.
fn put_item<T: Copy>(items: &mut [T], place: usize, item: T) {
    if let Some(old) = items.get_mut(place) {
        *old = item;
    }
}

impl Lent {
    pub fn new() -> Lent {
        Lent {
            words: [0; 2844],
            values: [0.0; 231],
            counts: [0; 69],
            numbers: [0; 14],
        }
    }

    // Changes the item at a place of a list to what the number stands for.
    fn put(&mut self, list: List, place: usize, n: u64) {
        match list {
            List::Words => put_item(&mut self.words, place, word(n)),
            List::Values => put_item(&mut self.values, place, f64_from_bits_with_nan(n)),
            List::Counts => put_item(&mut self.counts, place, low(n)),
            List::Numbers => put_item(&mut self.numbers, place, low(n)),
        }
    }

    // Changes the items of a list from a start on to those in b, which is read as if it had so many bytes, of each so many.
    pub fn change(&mut self, list: List, b: &[u8], start: u16, bytes: u16, size: u16) {
        let bytes = usize::from(bytes);
        let size = usize::from(size);
        for i in 0..bytes {
            let at = i * size;
            if at >= bytes {
                return;
            }
            self.put(list, usize::from(start) + i, number(b, at, size));
        }
    }
}
