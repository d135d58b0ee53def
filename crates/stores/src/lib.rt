// The instructions that store an operand: STORE, STORE CONTROL, STORE CLOCK and STORE CPU TIMER. Each contract says that the code
// does what machine's Execute defines for every unit in progress that stands so.
#![tactic(auto)]

ghost use Rattle.std.specs.Prelude.{◌≡◌, ℕ, ◌+◌, ◌-◌, ◌*◌, ◌≤◌, ◌<◌, length, take, drop};
ghost use Rattle.std.proofs.lemmas.List.Edits.{sets};
ghost use Rattle.machine.specs.declared.Cpu.{Cpu};
ghost use Rattle.machine.specs.Words.{double_bytes, words_bytes};
ghost use Rattle.machine.specs.Psw.{with_psw};
ghost use Rattle.machine.specs.Host.{host};
ghost use Rattle.machine.specs.Execute.{next, operand_address, storing, controls_from, store, store_control, store_clock, store_timer};
ghost use Rattle.execute.specs.Reaching.{Ready, Does};

use interruptions::{Done, Frames};
use machine::{Cpu, Guest, Psw, Registers, Text};
use pieces::Pieces;

// STORE (ST).
pub fn store(
    storage: &mut [u8],
    keys: &mut [u8],
    designation: u32,
    guest: Guest,
    cpu: Cpu,
    text: Text,
    t: Frames,
) -> Done
    requires { Ready storage.old keys.old guest text t }
    ensures { (clock : ℕ) → Does store (host designation storage.old keys.old) guest clock cpu text t result storage.new keys.new }
{
    let a = cpu::indexed_address(cpu.psw, cpu.general, text);
    let o = match execute::reach(storage, keys, designation, guest, cpu, text, t, true, a, 4) {
        Ok(o) => o,
        Err(done) => return done,
    };
    let value = cpu.general.words[(text.first as u32 / 16 % 16) as usize];
    writer::put_operand(storage, &value.to_be_bytes(), o);
    let psw = cpu::advanced(cpu.psw, text.ilc as u32);
    interruptions::with_psw(cpu, psw)
}

// A double word, stored; the unit completes past the instruction, in the state with this PSW.
fn store_double(
    storage: &mut [u8],
    keys: &mut [u8],
    designation: u32,
    guest: Guest,
    cpu: Cpu,
    text: Text,
    t: Frames,
    value: u64,
    psw: Psw,
) -> Done
    requires { Ready storage.old keys.old guest text t }
    ensures { (clock : ℕ) → Does (λ x. storing x (operand_address x) (double_bytes value) (next x (with_psw x.cpu psw)))
        (host designation storage.old keys.old) guest clock cpu text t result storage.new keys.new }
{
    let a = cpu::operand_address(cpu.psw, cpu.general, text);
    let o = match execute::reach(storage, keys, designation, guest, cpu, text, t, true, a, 8) {
        Ok(o) => o,
        Err(done) => return done,
    };
    writer::put_operand(storage, &value.to_be_bytes(), o);
    let past = cpu::advanced(psw, text.ilc as u32);
    interruptions::with_psw(cpu, past)
}

// STORE CPU TIMER (STPT).
pub fn store_timer(
    storage: &mut [u8],
    keys: &mut [u8],
    designation: u32,
    guest: Guest,
    cpu: Cpu,
    text: Text,
    t: Frames,
) -> Done
    requires { Ready storage.old keys.old guest text t }
    ensures { (clock : ℕ) → Does store_timer (host designation storage.old keys.old) guest clock cpu text t result storage.new keys.new }
{
    store_double(
        storage,
        keys,
        designation,
        guest,
        cpu,
        text,
        t,
        cpu.timer,
        cpu.psw,
    )
}

// STORE CLOCK (STCK).
pub fn store_clock(
    storage: &mut [u8],
    keys: &mut [u8],
    designation: u32,
    guest: Guest,
    clock: u64,
    cpu: Cpu,
    text: Text,
    t: Frames,
) -> Done
    requires { Ready storage.old keys.old guest text t }
    ensures { Does store_clock (host designation storage.old keys.old) guest clock cpu text t result storage.new keys.new }
{
    let value = clocks::guest_clock(guest.epoch, clock);
    let psw = cpu::with_condition_code(cpu.psw, 0);
    store_double(storage, keys, designation, guest, cpu, text, t, value, psw)
}

// The bytes of n control registers, from i on and through 15 to 0, written from the start on.
pub fn put_controls(bytes: &mut [u8], control: &[u32; 16], i: usize, n: usize)
    requires { (i < 16) × (n ≤ 16) × (4 * n ≤ length bytes.old) }
    ensures { (c : Cpu) → c.control.words ≡ control.now → bytes.new ≡ sets bytes.old 0 (words_bytes (controls_from c i n)) }
{
    for k in 0..n {
        words::put_word(bytes, 4 * k, control[(i + k) % 16]);
    }
}

// n control registers from i on, as an operand: put together first, so that they go into storage in one piece or two.
fn put_control_operand(storage: &mut [u8], control: Registers, i: u32, n: u32, p: Pieces)
    requires i_bound { (i < 16) × (n ≤ 16) }
    requires count_bound { (p.count ≤ 4 * n) × (p.first + p.count ≤ length storage.old) × (p.second + (4 * n - p.count) ≤ length storage.old) }
    ensures { (c : Cpu) → c.control ≡ control → storage.new
        ≡ sets (sets storage.old p.first (take p.count (words_bytes (controls_from c i n)))) p.second (drop p.count (words_bytes (controls_from c i n))) }
{
    let mut bytes = [0; 64];
    put_controls(&mut bytes[..], &control.words, i as usize, n as usize);
    let end = (4 * n) as usize;
    writer::put_operand(storage, &bytes[..end], p);
}

// STORE CONTROL (STCTL).
pub fn store_control(
    storage: &mut [u8],
    keys: &mut [u8],
    designation: u32,
    guest: Guest,
    cpu: Cpu,
    text: Text,
    t: Frames,
) -> Done
    requires { Ready storage.old keys.old guest text t }
    ensures { (clock : ℕ) → Does store_control (host designation storage.old keys.old) guest clock cpu text t result storage.new keys.new }
{
    let a = cpu::operand_address(cpu.psw, cpu.general, text);
    let k = cpu::range_count(text);
    let o = match execute::reach(
        storage,
        keys,
        designation,
        guest,
        cpu,
        text,
        t,
        true,
        a,
        4 * k,
    ) {
        Ok(o) => o,
        Err(done) => return done,
    };
    let i = text.first as u32 / 16 % 16;
    put_control_operand(storage, cpu.control, i, k, o);
    let psw = cpu::advanced(cpu.psw, text.ilc as u32);
    interruptions::with_psw(cpu, psw)
}
