// Wide symbols read from bytes and written as bytes, low byte first.
#![tactic(auto)]

ghost use Rattle.std.specs.Prelude.{◌≡◌, ◌*◌, ◌≤◌, length};
ghost use Rattle.model.specs.Bytes.{symbol_size, symbols_of, symbol_bytes};

use wide_symbols::WideSymbol;

// How many symbols the bytes stand for: none where a byte is too many.
pub fn count<S: WideSymbol>(bytes: &[u8]) -> usize
    ensures { result ≡ length (symbols_of (symbol_size S.profile) bytes.now) }
{
    let size = S::SIZE;
    if bytes.len() % size != 0 {
        return 0;
    }
    bytes.len() / size
}

// The symbols of bytes, two in a turn: a loop over single ones would be compiled into a call of memcpy, which the archive is not to need.
pub fn read_symbols<S: WideSymbol>(bytes: &[u8], out: &mut [S])
    requires { (length bytes.now ≡ length out.old * symbol_size S.profile) × (length out.old ≤ 8192) }
    ensures { S.numbers out.new ≡ symbols_of (symbol_size S.profile) bytes.now }
{
    let size = S::SIZE;
    for i in 0..out.len() / 2 {
        let j = 2 * i;
        out[j] = S::get(bytes, j * size);
        out[j + 1] = S::get(bytes, (j + 1) * size);
    }
    if out.len() % 2 == 0 {
        return;
    }
    let last = out.len() - 1;
    out[last] = S::get(bytes, last * size);
}

// The bytes of symbols, two in a turn for the same reason.
pub fn write_symbols<S: WideSymbol>(bytes: &mut [u8], symbols: &[S])
    requires { (length bytes.old ≡ length symbols.now * symbol_size S.profile) × (length symbols.now ≤ 8192) }
    ensures { bytes.new ≡ symbol_bytes (symbol_size S.profile) (S.numbers symbols.now) }
{
    let size = S::SIZE;
    for i in 0..symbols.len() / 2 {
        let j = 2 * i;
        symbols[j].put(bytes, j * size);
        symbols[j + 1].put(bytes, (j + 1) * size);
    }
    if symbols.len() % 2 == 0 {
        return;
    }
    let last = symbols.len() - 1;
    symbols[last].put(bytes, last * size);
}
