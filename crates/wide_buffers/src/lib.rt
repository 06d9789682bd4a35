// Wide symbols of which whole buffers stand on the stack.
#![tactic(auto)]

ghost use Rattle.std.specs.Prelude.{◌≤◌};
ghost use Rattle.std.specs.Mem.{type_size};

use wide_symbols::WideSymbol;

// A symbol that takes few bytes of memory, so that a buffer of a few thousand fits there.
pub trait SmallSymbol: WideSymbol {
    // It does nothing, since the type says so: a function over any symbol learns it by a call.
    fn takes_few_bytes()
        ensures { type_size Self.row ≤ 4 };
}

impl SmallSymbol for u16 {
    fn takes_few_bytes() {}
}

impl SmallSymbol for u32 {
    fn takes_few_bytes() {}
}
