// Sets of processes: a set is a number of 32 bits, and process p is in it where bit p is set
// (docs/MANUAL.md, "Lines": processes that hold).
#![tactic(auto)]

ghost use Rattle.std.specs.Prelude.{◌≡◌, ◌<◌, ◌^◌};
ghost use Rattle.process_set.specs.Sets.{high_bit, member, some_high_bit};

// The set of all 32 processes.
pub const ALL: u32 = u32::MAX;

// The set that holds process p alone. One is shifted in 64 bits: of shifts in 32 bits the compiler makes several at
// once by way of floating point numbers, and bit 31 then raises the caller's invalid operation flag.
pub fn bit(p: usize) -> u32
    requires { p < 32 }
    ensures { result ≡ 2 ^ p }
{
    (1usize << p) as u32
}

// Whether process p is in the set.
pub fn is_member(set: u32, p: usize) -> bool
    requires { p < 32 }
    ensures { result ≡ member set p }
{
    set & bit(p) != 0
}

// Whether the set has a process numbered n or above. It has one just where the number is not below the value of bit n.
#[tactic(auto, using(crate::proofs::SetLaws::no_high_bit_from_32))]
pub fn has_high_bit(set: u32, n: usize) -> bool
    ensures { result ≡ high_bit set n }
{
    if 32 <= n {
        return false;
    }
    bit(n) <= set
}

// Whether one of the sets has a process numbered n or above.
pub fn some_high_bit(sets: &[u32], n: usize) -> bool
    ensures { result ≡ some_high_bit sets.now n }
{
    sets.iter().any(|set| has_high_bit(*set, n))
}
