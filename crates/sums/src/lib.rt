// Sums and differences of two words as signed numbers of 64 bits, from which the condition code is worked out when it is asked for.
#![tactic(auto)]

ghost use Rattle.std.specs.Prelude.{◌≡◌, ◌+◌, ◌-◌, ◌%◌, ◌^◌, ◌<◌};
ghost use Rattle.machine.specs.Execute.{sum_of, sum_overflows, difference_of, difference_overflows, selected};
ghost use Rattle.sums.specs.Summing.{outside, code_in, Says};

// The excess of a signed word, the number of words, and the excess of a signed doubleword.
const SIGN: u64 = 1 << 31;

const WORDS: u64 = 1 << 32;

const LONG_SIGN: u64 = 1 << 63;

// The least word as a signed number of 64 bits.
const LEAST: u64 = u64::MAX << 31;

// A word as a signed number of 64 bits.
fn extended(w: u32) -> u64
    ensures { result ≡ ((w + 2 ^ 31) % 2 ^ 32 + (2 ^ 64 - 2 ^ 31)) % 2 ^ 64 }
{
    ((w as u64 + SIGN) % WORDS).wrapping_sub(SIGN)
}

#[tactic(auto, unfolding(crate::specs::Summing::outside, crate::specs::Summing::code_in, machine::specs::Execute::sum_code))]
pub fn add(a: u32, b: u32) -> u64
    ensures { Says (sum_of a b) (sum_overflows a b) result }
{
    extended(a).wrapping_add(extended(b))
}

#[tactic(auto, unfolding(crate::specs::Summing::outside, crate::specs::Summing::code_in, machine::specs::Execute::sum_code))]
pub fn subtract(a: u32, b: u32) -> u64
    ensures { Says (difference_of a b) (difference_overflows a b) result }
{
    extended(a).wrapping_sub(extended(b))
}

// The word of a sum.
pub fn word_of(sum: u64) -> u32
    ensures { result ≡ sum % 2 ^ 32 }
{
    (sum % WORDS) as u32
}

// The sum is no word.
#[tactic(auto, unfolding(crate::specs::Summing::outside))]
pub fn is_outside(sum: u64) -> bool
    ensures { result ≡ outside sum }
{
    sum >= SIGN && sum < LEAST
}

// The condition code of a sum.
#[tactic(auto, unfolding(crate::specs::Summing::code_in))]
pub fn code_of(sum: u64) -> u32
    ensures { (result ≡ code_in sum) × (result < 4) }
{
    if sum == 0 {
        0
    } else if is_outside(sum) {
        3
    } else if sum < LONG_SIGN {
        2
    } else {
        1
    }
}

// A sum that has this condition code. Tests, and no match: with a match the loops of bench take one or two instructions more a round.
#[tactic(auto, unfolding(crate::specs::Summing::code_in, crate::specs::Summing::outside))]
pub fn sum_for(code: u32) -> u64
    requires { code < 4 }
    ensures { code_in result ≡ code }
{
    if code == 0 {
        0
    } else if code == 1 {
        u64::MAX
    } else if code == 2 {
        1
    } else {
        WORDS
    }
}

// The mask selects the condition code of a sum. Mask 15 selects each, so that no code is worked out for it.
#[tactic(auto, unfolding(machine::specs::Execute::selected, crate::specs::Summing::code_in))]
pub fn selects(mask: usize, sum: u64) -> bool
    requires { mask < 16 }
    ensures { result ≡ selected mask (code_in sum) }
{
    mask == 15 || cpu::selected(mask as u32, code_of(sum))
}
