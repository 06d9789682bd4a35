// Numbers that the C calls hand back as bytes, four for each, low byte first: the counts of a decode, the changes of a pass, the answer
// of explain.
#![tactic(auto)]

ghost use Rattle.std.specs.Prelude.{◌≡◌, ◌+◌, ◌≤◌, length};
ghost use Rattle.std.proofs.lemmas.List.Edits.{sets};
ghost use Rattle.model.specs.Bytes.{word_of, bytes_of, explained_bytes};

// Four bytes of a number.
pub fn put_word(d: &mut [u8], at: usize, n: u32)
    requires { at + 4 ≤ length d.old }
    ensures { d.new ≡ sets d.old at (word_of n) }
{
    // four stores: with `copy_from_slice` the loop over margins is not vectorised
    let [first, second, third, fourth] = n.to_le_bytes();
    d[at] = first;
    d[at + 1] = second;
    d[at + 2] = third;
    d[at + 3] = fourth;
}

// The 16 bytes of the counts.
#[tactic(auto, using(crate::specs::Words::counts_written))]
pub fn put_counts(d: &mut [u8], passes: u32, changes: u32, start: u32, end: u32)
    requires { length d.old ≡ 16 }
    ensures { d.new ≡ bytes_of (record { passes = passes; changes = changes; start = start; end = end }) }
{
    put_word(d, 0, passes);
    put_word(d, 4, changes);
    put_word(d, 8, start);
    put_word(d, 12, end);
}

// The 4 bytes of the changes of a pass.
pub fn put_changes(d: &mut [u8], changes: u32)
    requires { length d.old ≡ 4 }
    ensures { d.new ≡ word_of changes }
{
    put_word(d, 0, changes);
}

// The 24 bytes of the answer of explain: four numbers, and the bits in two halves.
#[tactic(auto, using(crate::specs::Words::answer_written))]
pub fn put_answer(d: &mut [u8], ground: u32, leader: u32, lead: u32, next: u32, bits: u64)
    requires { length d.old ≡ 24 }
    ensures { d.new ≡ explained_bytes (record { ground_number = ground; leader = leader; lead = lead; next = next; bits = bits }) }
{
    put_word(d, 0, ground);
    put_word(d, 4, leader);
    put_word(d, 8, lead);
    put_word(d, 12, next);
    put_word(d, 16, (bits % 4294967296) as u32);
    put_word(d, 20, (bits / 4294967296) as u32);
}
