// A symbol of four bytes among bytes, low byte first.
#![tactic(auto)]

ghost use Rattle.std.specs.Prelude.{◌≡◌, ◌+◌, ◌*◌, ◌≤◌, length, take, drop};
ghost use Rattle.std.proofs.lemmas.List.Edits.{sets};
ghost use Rattle.model.specs.Bytes.{number_of, bytes_in};

// The number of four bytes.
fn joined(a: u8, b: u8, c: u8, d: u8) -> u32
    ensures { result ≡ a + 256 * (b + 256 * (c + 256 * d)) }
{
    (a as u32) + 256 * ((b as u32) + 256 * ((c as u32) + 256 * (d as u32)))
}

// The symbol that stands at a place.
pub fn get(bytes: &[u8], at: usize) -> u32
    requires { at + 4 ≤ length bytes.now }
    ensures { result ≡ number_of (take 4 (drop at bytes.now)) }
{
    joined(bytes[at], bytes[at + 1], bytes[at + 2], bytes[at + 3])
}

// A symbol written there.
pub fn put(bytes: &mut [u8], at: usize, x: u32)
    requires { at + 4 ≤ length bytes.old }
    ensures { bytes.new ≡ sets bytes.old at (bytes_in 4 x) }
{
    bytes[at] = (x % 256) as u8;
    bytes[at + 1] = (x / 256 % 256) as u8;
    bytes[at + 2] = (x / 256 / 256 % 256) as u8;
    bytes[at + 3] = (x / 256 / 256 / 256 % 256) as u8;
}
