// The positions of a table that the C calls get as bytes, two for each, low byte first.
#![tactic(auto)]

ghost use Rattle.std.specs.Prelude.{◌≡◌, ◌&&◌, ◌+◌, ◌*◌, ◌≤◌, leb, length, take};
ghost use Rattle.model.specs.Bytes.{positions_of};
ghost use Rattle.position_bytes.specs.Positions.{kept};

// The number of two bytes.
fn position(low: u8, high: u8) -> u16
    ensures { result ≡ low + 256 * high }
{
    (low as u16) + 256 * (high as u16)
}

// Whether a table of so many bytes and a code of so many data symbols have room in small buffers, of 32 positions and of 128 zeros.
pub fn is_small(bytes: usize, symbols: usize) -> bool
    ensures { result ≡ (leb bytes 64 && leb symbols 128) }
{
    if 64 < bytes {
        return false;
    }
    symbols <= 128
}

// Reads the positions of a table, and hands back how many: none where the length is odd or there are more than 256.
// The buffer must have room for the positions of the table, or for 256: a table of more is not read.
// Each byte stores a number made with the byte before it, and the second byte of a position stores the one that stays:
// a loop over pairs of bytes would be compiled into a call of memcpy, which the archive is not to need.
#[tactic(auto, using(crate::specs::Positions::kept_odd, crate::specs::Positions::kept_long, crate::specs::Positions::kept_all))]
pub fn read_positions(table: &[u8], positions: &mut [u16]) -> usize
    requires { length table.now ≤ 512 → length table.now ≤ length positions.old + length positions.old }
    ensures few { result ≤ length positions.old }
    ensures read { take result positions.new ≡ kept (positions_of table.now) }
{
    let len = table.len();
    if len % 2 != 0 {
        return 0;
    }
    if 512 < len {
        return 0;
    }
    let mut last: u8 = 0;
    for (i, byte) in table.iter().enumerate() {
        positions[i / 2] = position(last, *byte);
        last = *byte;
    }
    len / 2
}
