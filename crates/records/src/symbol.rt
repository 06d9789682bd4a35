ghost use Rattle.std.specs.Prelude.{ℕ};

use std::alloc::{AllocError, Global};

// What memory lent for an answer has: symbols, or margins.
pub trait Item: Copy + PartialEq + Drop {
    // What memory lent for an answer holds before a call: FILL in its first FILLED places, and REST behind them. A type that does not give
    // FILLED and REST has FILL in all places.
    const FILL: Self;

    const FILLED: usize = usize::MAX;

    const REST: Self = Self::FILL;

    // The most that a call is lent for one answer.
    const MOST: usize;

    ghost MOST: { ℕ };

    // How many so many bytes are; none where they end within one.
    fn count(len: usize) -> Option<usize>;

    // The one at a place among those of a content.
    fn at(content: &[u8], place: usize) -> Self;
}

// The symbols of a page.
pub trait Symbol: Item {
    // Those of a string of so many bytes with this content, for a call that reads them.
    fn read(content: &[u8], len: usize, alloc: Global) -> Result<Vec<Self>, AllocError>;
}

impl Item for u8 {
    const FILL: u8 = 165;

    const FILLED: usize = 8300;

    const REST: u8 = 165;

    const MOST: usize = 8300;

    ghost MOST = { 8300 };

    fn count(len: usize) -> Option<usize> {
        Some(len)
    }

    // Past the end the one that fills lent memory.
    fn at(content: &[u8], place: usize) -> u8 {
        content.get(place).copied().unwrap_or(u8::FILL)
    }
}

impl Symbol for u8 {
    // None where they are not all there.
    fn read(content: &[u8], _len: usize, alloc: Global) -> Result<Vec<u8>, AllocError> {
        Vec::from_slice(alloc, content)
    }
}

impl Item for i32 {
    // No margin.
    const FILL: i32 = 99;

    const FILLED: usize = 4100;

    const REST: i32 = 99;

    const MOST: usize = 4100;

    ghost MOST = { 4100 };

    fn count(len: usize) -> Option<usize> {
        if len % 4 == 0 { Some(len / 4) } else { None }
    }

    fn at(content: &[u8], place: usize) -> i32 {
        crate::number_at(content, place).cast_signed()
    }
}

impl Item for u16 {
    const FILL: u16 = 0xa5a5;

    const FILLED: usize = 2100;

    const REST: u16 = 0xa5a5;

    const MOST: usize = 2100;

    ghost MOST = { 2100 };

    fn count(len: usize) -> Option<usize> {
        if len % 2 == 0 { Some(len / 2) } else { None }
    }

    fn at(content: &[u8], place: usize) -> u16 {
        let (symbols, _) = content.as_chunks();
        match symbols.get(place) {
            Some(symbol) => u16::from_le_bytes(*symbol),
            None => 0,
        }
    }
}

impl Symbol for u16 {
    fn read(content: &[u8], len: usize, alloc: Global) -> Result<Vec<u16>, AllocError> {
        wide(content, len / 2, alloc)
    }
}

impl Item for u32 {
    const FILL: u32 = 0xa5a5_a5a5;

    // 8,300 bytes are filled.
    const FILLED: usize = 2075;

    const REST: u32 = 0;

    const MOST: usize = 2100;

    ghost MOST = { 2100 };

    fn count(len: usize) -> Option<usize> {
        if len % 4 == 0 { Some(len / 4) } else { None }
    }

    fn at(content: &[u8], place: usize) -> u32 {
        crate::number_at(content, place)
    }
}

impl Symbol for u32 {
    fn read(content: &[u8], len: usize, alloc: Global) -> Result<Vec<u32>, AllocError> {
        wide(content, len / 4, alloc)
    }
}

// So many wide symbols of a content, but no more than are lent; past its end 0.
fn wide<S: Item>(content: &[u8], n: usize, alloc: Global) -> Result<Vec<S>, AllocError> {
    let mut symbols = vec![in alloc; S::FILL; n.min(S::MOST)]?;
    for (i, x) in symbols.iter_mut().enumerate() {
        *x = S::at(content, i);
    }
    Ok(symbols)
}
