// The C forms of the reader and the writer of a file of pages: the entry found, and page numbers and lengths, as bytes.
#![tactic(auto)]

ghost use Rattle.std.specs.Prelude.{◌≡◌, true, ◌*◌, ◌/◌, ◌%◌, ◌≤◌, eqb, length, set, take};
ghost use Rattle.model.specs.Bytes.{symbols_of};
ghost use Rattle.model.specs.Files.{total, entry_words, c_read_outcome, c_lists_fit, c_write_outcome};
ghost use Rattle.refusals.specs.Numbers.{answer};

use file_reader::Found;
use refusals::Refusal;

// The 16 bytes of an entry found.
#[tactic(auto, using(crate::specs::Lists::words_written))]
fn put_words(d: &mut [u8], found: Found)
    requires { length d.old ≡ 16 }
    ensures { d.new ≡ entry_words (record { number = found.number; top = found.top; offset = found.offset; size = found.size }) }
{
    number_bytes::put_word(d, 0, found.number);
    number_bytes::put_word(d, 4, found.top);
    number_bytes::put_word(d, 8, found.offset);
    number_bytes::put_word(d, 12, found.size);
}

// Finds a page by its place in the contents. The entry is written only when the call is done.
pub fn read(file: &[u8], place: u32, entry: &mut [u8]) -> Result<(), Refusal>
    ensures { record { number = answer result; left = entry.new } ≡ c_read_outcome file.now place entry.old }
{
    if entry.len() != 16 {
        return Err(Refusal::Length);
    }
    let found = file_reader::find(file, place)?;
    put_words(entry, found);
    Ok(())
}

// Whether the lists have 2, 1 and 4 bytes a page, and the file's length 4 bytes. No product is taken, so none can wrap.
fn lists_fit(numbers: usize, tops: usize, sizes: usize, size: usize) -> bool
    ensures { result ≡ c_lists_fit numbers tops sizes size }
{
    if numbers % 2 != 0 {
        return false;
    }
    if numbers / 2 != tops {
        return false;
    }
    if sizes % 4 != 0 {
        return false;
    }
    if sizes / 4 != tops {
        return false;
    }
    size == 4
}

// A length kept at its place, where there is room for it.
fn keep(sizes: &mut [u32], i: usize, size: u32)
    ensures { sizes.new ≡ set sizes.old i size }
{
    if i < sizes.len() {
        sizes[i] = size;
    }
}

// Reads the lengths, four bytes each, as many as there is room for, and says whether all of them sum to n. No sum is taken, so none can wrap.
// A loop with this one exit early is not compiled into a call of memcpy.
fn read_lengths(bytes: &[u8], n: usize, sizes: &mut [u32]) -> bool
    requires { length bytes.now % 4 ≡ 0 }
    ensures sums { result ≡ eqb (total (symbols_of 4 bytes.now)) n }
    ensures read { result ≡ true → length bytes.now ≤ 4 * length sizes.old
        → take (length bytes.now / 4) sizes.new ≡ symbols_of 4 bytes.now }
{
    let count = bytes.len() / 4;
    let mut left = n;
    for i in 0..count {
        let size = file_entries::four_at(bytes, 4 * i);
        if left < size {
            return false;
        }
        left -= size;
        keep(sizes, i, size as u32);
    }
    left == 0
}

// Writes a file. Its length is written only when the call is done. 6 is tested on the bytes of the lengths, since there may be more than are kept.
pub fn write(
    numbers: &[u8],
    tops: &[u8],
    lengths: &[u8],
    bodies: &[u8],
    output: &mut [u8],
    length: &mut [u8],
) -> Result<(), Refusal>
    ensures { record { number = answer result; left = record { size = length.new; output = output.new } }
        ≡ c_write_outcome numbers.now tops.now lengths.now bodies.now output.old length.old }
{
    if !lists_fit(numbers.len(), tops.len(), lengths.len(), length.len()) {
        return Err(Refusal::Length);
    }
    let count = tops.len();
    let mut sizes = [0u32; 64];
    if !read_lengths(lengths, bodies.len(), &mut sizes) {
        return Err(Refusal::Length);
    }
    if !file_lists::has_room(count, bodies.len(), output.len()) {
        return Err(Refusal::Length);
    }
    if 64 < count {
        return Err(Refusal::Contents);
    }
    let mut few = [0u16; 64];
    let n = position_bytes::read_positions(numbers, &mut few);
    let wrote = file_writer::write(&few[..n], tops, &sizes[..count], bodies, output)?;
    number_bytes::put_changes(length, wrote as u32);
    Ok(())
}
