// A symbol of two bytes among bytes, low byte first.
#![tactic(auto)]

ghost use Rattle.std.specs.Prelude.{◌≡◌, ◌+◌, ◌*◌, ◌≤◌, length, take, drop};
ghost use Rattle.std.proofs.lemmas.List.Edits.{sets};
ghost use Rattle.model.specs.Bytes.{number_of, bytes_in};

// The number of two bytes.
fn joined(low: u8, high: u8) -> u16
    ensures { result ≡ low + 256 * high }
{
    (low as u16) + 256 * (high as u16)
}

// The symbol that stands at a place.
pub fn get(bytes: &[u8], at: usize) -> u16
    requires { at + 2 ≤ length bytes.now }
    ensures { result ≡ number_of (take 2 (drop at bytes.now)) }
{
    joined(bytes[at], bytes[at + 1])
}

// A symbol written there.
pub fn put(bytes: &mut [u8], at: usize, x: u16)
    requires { at + 2 ≤ length bytes.old }
    ensures { bytes.new ≡ sets bytes.old at (bytes_in 2 x) }
{
    bytes[at] = (x % 256) as u8;
    bytes[at + 1] = (x / 256 % 256) as u8;
}
