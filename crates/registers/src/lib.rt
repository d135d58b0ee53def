// The instructions that have no operand in storage and do not branch: LOAD (LR), ADD, SUBTRACT, SUPERVISOR CALL and LOAD ADDRESS. Each
// contract says that the code does what machine's Execute defines for every unit in progress that stands so.
#![tactic(auto)]

ghost use Rattle.std.specs.Prelude.{◌≡◌, Bool, ◌&&◌, ℕ, ◌≤◌};
ghost use Rattle.machine.specs.Psw.{overflow_enabled, with_condition_code};
ghost use Rattle.machine.specs.Host.{Host, host};
ghost use Rattle.machine.specs.Execute.{load_register, sum_code, summed, add, subtract, supervisor_call, load_address};
ghost use Rattle.interruptions.specs.After.{WithKeys};
ghost use Rattle.execute.specs.Reaching.{Ready, Does};

use interruptions::{Done, FIXED_POINT_OVERFLOW, Frames, Interruption};
use machine::{Cpu, Failure, Guest, Psw, Text};

// LOAD (LR).
pub fn load_register(keys: &mut [u8], cpu: Cpu, text: Text, t: Frames) -> Done
    requires { WithKeys keys.old t × (text.ilc ≤ 3) }
    ensures { (h : Host) (g : Guest) (clock : ℕ) → h.keys ≡ keys.old → Does load_register h g clock cpu text t result h.storage keys.new }
{
    interruptions::mark_text(keys, t);
    let general = cpu.general;
    let value = general.words[(text.first as u32 % 16) as usize];
    let psw = cpu::advanced(cpu.psw, text.ilc as u32);
    interruptions::with_general(cpu, psw, text.first as u32 / 16 % 16, value)
}

// LOAD ADDRESS (LA).
pub fn load_address(keys: &mut [u8], cpu: Cpu, text: Text, t: Frames) -> Done
    requires { WithKeys keys.old t × (text.ilc ≤ 3) }
    ensures { (h : Host) (g : Guest) (clock : ℕ) → h.keys ≡ keys.old → Does load_address h g clock cpu text t result h.storage keys.new }
{
    interruptions::mark_text(keys, t);
    let value = cpu::indexed_address(cpu.psw, cpu.general, text);
    let psw = cpu::advanced(cpu.psw, text.ilc as u32);
    interruptions::with_general(cpu, psw, text.first as u32 / 16 % 16, value)
}

// An overflow is a program exception.
pub fn interrupts(psw: Psw, overflow: bool) -> bool
    ensures { (c : Cpu) → c.psw ≡ psw → result ≡ (overflow && overflow_enabled c) }
{
    if overflow {
        return cpu::overflow_enabled(psw);
    }
    false
}

// A sum, by the PSW with its condition code and its value: both are set, and an overflow that is a program exception comes behind them.
// Condition code 3 is an overflow.
fn summed(
    storage: &mut [u8],
    keys: &mut [u8],
    designation: u32,
    guest: Guest,
    cpu: Cpu,
    text: Text,
    t: Frames,
    coded: Psw,
    value: u32,
) -> Done
    requires { Ready storage.old keys.old guest text t }
    ensures { (overflow : Bool) (clock : ℕ) → coded ≡ (with_condition_code cpu (sum_code value overflow)).psw
        → Does (λ x. summed x value overflow) (host designation storage.old keys.old) guest clock cpu text t result storage.new keys.new }
{
    let i = text.first as u32 / 16 % 16;
    if interrupts(cpu.psw, cpu::condition_code(coded) == 3) {
        let f = Failure {
            host: false,
            code: FIXED_POINT_OVERFLOW,
            address: 0,
        };
        let done = interruptions::with_general(cpu, coded, i, value);
        return execute::exception(storage, keys, designation, guest, cpu.psw, done, text, f, t);
    }
    interruptions::mark_text(keys, t);
    let psw = cpu::advanced(coded, text.ilc as u32);
    interruptions::with_general(cpu, psw, i, value)
}

// ADD (AR).
pub fn add(
    storage: &mut [u8],
    keys: &mut [u8],
    designation: u32,
    guest: Guest,
    cpu: Cpu,
    text: Text,
    t: Frames,
) -> Done
    requires { Ready storage.old keys.old guest text t }
    ensures { (clock : ℕ) → Does add (host designation storage.old keys.old) guest clock cpu text t result storage.new keys.new }
{
    let i = text.first as u32 / 16 % 16;
    let after = adder::added(cpu, i, text.first as u32 % 16);
    let general = after.general;
    let value = general.words[i as usize];
    summed(
        storage,
        keys,
        designation,
        guest,
        cpu,
        text,
        t,
        after.psw,
        value,
    )
}

// SUBTRACT (SR).
pub fn subtract(
    storage: &mut [u8],
    keys: &mut [u8],
    designation: u32,
    guest: Guest,
    cpu: Cpu,
    text: Text,
    t: Frames,
) -> Done
    requires { Ready storage.old keys.old guest text t }
    ensures { (clock : ℕ) → Does subtract (host designation storage.old keys.old) guest clock cpu text t result storage.new keys.new }
{
    let general = cpu.general;
    let a = general.words[(text.first as u32 / 16 % 16) as usize];
    let b = general.words[(text.first as u32 % 16) as usize];
    let sum = adder::subtract(a, b);
    let coded = cpu::with_condition_code(cpu.psw, sum.code);
    summed(
        storage,
        keys,
        designation,
        guest,
        cpu,
        text,
        t,
        coded,
        sum.value,
    )
}

// SUPERVISOR CALL (SVC): the old PSW has the address after it.
pub fn supervisor_call(
    storage: &mut [u8],
    keys: &mut [u8],
    designation: u32,
    guest: Guest,
    cpu: Cpu,
    text: Text,
    t: Frames,
) -> Done
    requires { Ready storage.old keys.old guest text t }
    ensures { (clock : ℕ) → Does supervisor_call (host designation storage.old keys.old) guest clock cpu text t result storage.new keys.new }
{
    let i = Interruption {
        old: 32,
        code: 136,
        new: 96,
        word: text.ilc as u32 * 131072 + text.first as u32 % 256,
        address: None,
    };
    let psw = cpu::advanced(cpu.psw, text.ilc as u32);
    let took = interruptions::take(storage, keys, designation, guest, psw, i, t);
    interruptions::interrupted(cpu.psw, interruptions::with_psw(cpu, psw), took)
}
