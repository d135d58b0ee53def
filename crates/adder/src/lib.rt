// ADD and SUBTRACT: the sum or difference of two words, its condition code and whether it overflows; and the value and the
// code put into the CPU's state together. Each contract equates with machine's Execute.
#![tactic(auto)]

ghost use Rattle.std.specs.Prelude.{◌≡◌, ◌<◌};
ghost use Rattle.machine.specs.Execute.{excess, sum_of, sum_overflows, difference_of, difference_overflows, sum_code, with_sum};
ghost use Rattle.adder.specs.Adding.{added};

use machine::Cpu;

// The excess of a signed word, and the number of words.
const SIGN: u64 = 1 << 31;

const WORDS: u64 = 1 << 32;

// What an addition or a subtraction of two words gives.
#[derive(Clone, Copy)]
pub struct Sum {
    pub value: u32,
    pub code: u32,
    pub overflow: bool,
}

// The signed value of a word plus 2^31.
fn excess(w: u32) -> u64
    ensures { result ≡ excess w }
{
    (w as u64 + SIGN) % WORDS
}

// The signed sum is below -2^31 or above 2^31 - 1.
fn sum_overflows(a: u32, b: u32) -> bool
    ensures { result ≡ sum_overflows a b }
{
    let sum = excess(a) + excess(b);
    sum < SIGN || sum >= WORDS + SIGN
}

// The signed difference is below -2^31 or above 2^31 - 1.
fn difference_overflows(a: u32, b: u32) -> bool
    ensures { result ≡ difference_overflows a b }
{
    let left = excess(a);
    let right = excess(b);
    left + SIGN < right || right + SIGN <= left
}

// The condition code: 0 zero, 1 below zero, 2 above zero, 3 overflow.
#[tactic(auto, unfolding(machine::specs::Execute::sum_code))]
fn sum_code(value: u32, overflow: bool) -> u32
    ensures { result ≡ sum_code value overflow }
{
    if overflow {
        3
    } else if value == 0 {
        0
    } else if value >> 31 == 1 {
        1
    } else {
        2
    }
}

// A value with its condition code.
fn coded(value: u32, overflow: bool) -> Sum
    ensures { (result.value ≡ value) × (result.overflow ≡ overflow) × (result.code ≡ sum_code value overflow) }
{
    Sum {
        value,
        code: sum_code(value, overflow),
        overflow,
    }
}

// ADD: the sum of two words.
pub fn add(a: u32, b: u32) -> Sum
    ensures { (result.value ≡ sum_of a b) × (result.overflow ≡ sum_overflows a b) × (result.code ≡ sum_code (sum_of a b) (sum_overflows a b)) }
{
    coded(a.wrapping_add(b), sum_overflows(a, b))
}

// SUBTRACT: the first word less the second.
pub fn subtract(a: u32, b: u32) -> Sum
    ensures { (result.value ≡ difference_of a b) × (result.overflow ≡ difference_overflows a b) × (result.code ≡ sum_code (difference_of a b) (difference_overflows a b)) }
{
    coded(a.wrapping_sub(b), difference_overflows(a, b))
}

// General register j added to general register i: value and condition code are put into the state together.
fn add_registers(cpu: Cpu, i: u32, j: u32) -> Cpu
    requires { (i < 16) × (j < 16) }
    ensures { result ≡ added cpu i j }
{
    let mut general = cpu.general;
    let sum = add(general.words[i as usize], general.words[j as usize]);
    general.words[i as usize] = sum.value;
    let psw = cpu::with_condition_code(cpu.psw, sum.code);
    Cpu {
        psw,
        general,
        ..cpu
    }
}

// The same on a state that is lent.
fn add_in_place(cpu: &mut Cpu, i: u32, j: u32)
    requires { (i < 16) × (j < 16) }
    ensures { cpu.new ≡ added cpu.old i j }
{
    *cpu = add_registers(*cpu, i, j);
}

// The same on a state that is handed in and back.
pub fn added(mut cpu: Cpu, i: u32, j: u32) -> Cpu
    requires { (i < 16) × (j < 16) }
    ensures { result ≡ added cpu i j }
{
    add_in_place(&mut cpu, i, j);
    cpu
}
