//! Sets of squares as bits of a number: bit n stands for the square of index n.

ghost use Rattle.std.specs.Prelude.{◌≡◌, ◌≢◌, ◌<◌, ◌≤◌, ◌^◌, ◌%◌, ◌==◌, ◌&&◌, ◌||◌, not, true, false, ℕ};
ghost use Rattle.shogi_core.specs.Below.{some_below};
ghost use Rattle.shogi_core.specs.Bits.{HasBits, has_bit};

/// The mask of all 81 squares.
pub const ALL_SQUARES: u128 = 2417851639229258349412351;

// 2^64, which divides the lower 64 bits from the others.
const HALF: u128 = 18446744073709551616;

/// The lower 64 bits of the mask.
#[tactic(auto, using(crate::proofs::BitLaws::low_half))]
pub fn low_half(mask: u128) -> u64
    ensures { (i : ℕ) → i < 64 → has_bit result i ≡ has_bit mask i }
{
    (mask % HALF) as u64
}

/// The half of the mask, lower or upper 64 bits, that has bit n.
#[tactic(auto, using(crate::proofs::BitLaws::halves))]
fn half_of(mask: u128, n: usize) -> u64
    requires { n < 128 }
    ensures { has_bit result (n % 64) ≡ has_bit mask n }
{
    if n < 64 {
        low_half(mask)
    } else {
        (mask / HALF) as u64
    }
}

/// Whether bit n is set.
#[tactic(auto, using(crate::proofs::BitLaws::bit_tests))]
pub fn has(mask: u128, n: usize) -> bool
    requires { n < 128 }
    ensures { result ≡ has_bit mask n }
{
    (half_of(mask, n) >> (n % 64)) & 1 == 1
}

/// The mask with bit n set.
#[tactic(auto, using(crate::proofs::BitLaws::bit_tests))]
pub fn with(mask: u128, n: usize) -> u128
    requires { n < 128 }
    ensures { (i : ℕ) → has_bit result i ≡ (has_bit mask i || (i == n)) }
{
    mask | (1 << n)
}

/// The mask with bit n clear.
#[tactic(auto, using(crate::proofs::BitLaws::bit_tests))]
pub fn without(mask: u128, n: usize) -> u128
    requires { n < 128 }
    ensures { (i : ℕ) → has_bit result i ≡ (has_bit mask i && not (i == n)) }
{
    let bit = 1 << n;
    mask & !bit
}

/// Clears bit n, which must be set: the result is less.
#[tactic(auto, using(crate::proofs::SeenLaws::cleared))]
pub fn cleared(mask: u128, n: usize) -> u128
    requires n { n < 128 }
    requires set { has_bit mask n ≡ true }
    ensures bits { (i : ℕ) → has_bit result i ≡ (has_bit mask i && not (i == n)) }
    ensures less { result < mask }
{
    mask & !(1 << n)
}

/// The index of the lowest set bit; the mask must have one.
#[tactic(auto, using(crate::proofs::LineBits::lowest_bit))]
pub fn lowest(mask: u128) -> usize
    requires some { mask ≢ 0 }
    requires fits { mask < 2 ^ 81 }
    ensures range { result < 81 }
    ensures set { has_bit mask result ≡ true }
    ensures least { (n : ℕ) → has_bit mask n ≡ true → result ≤ n }
{
    mask.trailing_zeros() as usize
}

/// The index of the highest set bit; the mask must have one.
#[tactic(auto, using(crate::proofs::LineBits::highest_bit))]
pub fn highest(mask: u128) -> usize
    requires some { mask ≢ 0 }
    requires fits { mask < 2 ^ 81 }
    ensures range { result < 81 }
    ensures set { has_bit mask result ≡ true }
    ensures greatest { (n : ℕ) → has_bit mask n ≡ true → n ≤ result }
{
    127 - mask.leading_zeros() as usize
}

/// The bits up to the lowest set bit, which is included; all bits if none is set.
#[tactic(auto, using(crate::proofs::LowBits::low_bits))]
pub fn up_to_lowest(mask: u128) -> u128
    ensures { HasBits result (λ n. not (some_below n (has_bit mask))) }
{
    mask ^ mask.wrapping_sub(1)
}

/// Clears the lowest set bit, which must be bit n. Only the clauses use `n`.
#[tactic(auto, using(crate::proofs::LowBits::low_bits))]
pub fn without_lowest(mask: u128, n: usize) -> u128
    requires fits { mask < 2 ^ 81 }
    requires set { has_bit mask n ≡ true }
    requires least { (i : ℕ) → has_bit mask i ≡ true → n ≤ i }
    ensures bits { (i : ℕ) → has_bit result i ≡ (has_bit mask i && not (i == n)) }
    ensures less { result < mask }
{
    let _ = n;
    mask & (mask - 1)
}

/// The bits of the mask above bit n.
pub fn bits_above(mask: u128, n: usize) -> u128
    requires n { n < 81 }
    requires fits { mask < 2 ^ 81 }
    ensures fits { result < 2 ^ 81 }
    ensures above { (i : ℕ) → i < 81 → n < i → has_bit result i ≡ has_bit mask i }
    ensures below { (i : ℕ) → i < 81 → i ≤ n → has_bit result i ≡ false }
{
    mask & !up_to_lowest(with(0, n))
}

/// The bits of the mask from bit n on.
pub fn bits_from(mask: u128, n: usize) -> u128
    requires n { n ≤ 81 }
    requires fits { mask < 2 ^ 81 }
    ensures fits { result < 2 ^ 81 }
    ensures from { (i : ℕ) → i < 81 → n ≤ i → has_bit result i ≡ has_bit mask i }
    ensures below { (i : ℕ) → i < n → has_bit result i ≡ false }
{
    if n == 0 {
        mask
    } else {
        bits_above(mask, n - 1)
    }
}
