// Symbols modulo q: compared, added and subtracted, one by one.
#![tactic(auto)]

ghost use Rattle.std.specs.Prelude.{◌≡◌, ◌+◌, ◌%◌, ◌<◌, ◌≤◌};
ghost use Rattle.model.specs.Symbols.{add, sub, same};

// 1 where two symbols are equal, else 0.
#[tactic(auto, unfolding(model::specs::Symbols::same))]
pub fn equal(a: u8, b: u8) -> u8
    ensures { (result ≡ same a b) × (result ≤ 1) }
{
    if a == b { 1 } else { 0 }
}

// What a + b has too much: nothing where a is at most what b leaves below q, else q, as a byte.
fn carried(top: u8, a: u8, room: u8) -> u8
    ensures { (a ≤ room → result ≡ 0) × (room < a → result ≡ (top + 1) % 256) }
{
    if a <= room {
        0
    } else {
        std::num::wrapping_add_u8(top, 1)
    }
}

// The sum modulo top + 1, without a remainder or a branch.
#[tactic(auto, using(crate::specs::Sums::wrapped_sum))]
pub fn add_mod(top: u8, a: u8, b: u8) -> u8
    requires { (a ≤ top) × (b ≤ top) }
    ensures { result ≡ add (top + 1) a b }
{
    let sum = std::num::wrapping_add_u8(a, b);
    let room = top - b;
    std::num::wrapping_sub_u8(sum, carried(top, a, room))
}

// The difference modulo q, without a remainder: a − b where b is at most a (no borrow), a + q − b otherwise (one borrow of q).
#[tactic(auto, using(theory::specs::Modulo::sub_two_cases))]
pub fn sub_mod(q: u32, a: u8, b: u8) -> u8
    requires { (q ≤ 256) × (a < q) × (b < q) }
    ensures { result ≡ sub q a b }
{
    if b <= a {
        a - b
    } else {
        ((a as u32) + q - (b as u32)) as u8
    }
}
