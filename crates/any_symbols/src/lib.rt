// Symbols of one byte, of two and of four are types of one trait: what they stand for, and which of them are 0.
#![tactic(auto)]

ghost use Rattle.std.specs.Prelude.{◌≡◌, ℕ, List, ◌≤◌};
ghost use Rattle.model.specs.Symbols.{same};
ghost use Rattle.any_symbols.specs.Numbers.{IsNumbers, numbers_themselves};

// A slice of symbols stands for the list of their numbers, which is what the definitions speak of.
pub trait Symbol: Copy {
    ghost number: { Self → ℕ };

    ghost numbers: { List Self → List ℕ };

    // 1 where a symbol is 0, else 0.
    fn zeros(self) -> u8
        ensures { (result ≡ same 0 (number self)) × (result ≤ 1) };

    // What holds of every such symbol.
    ghost are_numbers: { IsNumbers number numbers };
}

impl Symbol for u8 {
    ghost number = { λ x. x };

    ghost numbers = { λ xs. xs };

    ghost are_numbers = { numbers_themselves };

    #[tactic(auto, unfolding(model::specs::Symbols::same))]
    fn zeros(self) -> u8 {
        if self == 0 { 1 } else { 0 }
    }
}

impl Symbol for u16 {
    ghost number = { λ x. x };

    ghost numbers = { λ xs. xs };

    ghost are_numbers = { numbers_themselves };

    #[tactic(auto, unfolding(model::specs::Symbols::same))]
    fn zeros(self) -> u8 {
        if self == 0 { 1 } else { 0 }
    }
}

impl Symbol for u32 {
    ghost number = { λ x. x };

    ghost numbers = { λ xs. xs };

    ghost are_numbers = { numbers_themselves };

    #[tactic(auto, unfolding(model::specs::Symbols::same))]
    fn zeros(self) -> u8 {
        if self == 0 { 1 } else { 0 }
    }
}
