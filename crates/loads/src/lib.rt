// The instructions that fetch an operand: LOAD, LOAD PSW, LOAD CONTROL and SET CPU TIMER. Each contract says that the code does
// what machine's Execute defines for every unit in progress that stands so.
#![tactic(auto)]

ghost use Rattle.std.specs.Prelude.{◌≡◌, ◌++◌, ℕ, ◌+◌, ◌-◌, ◌*◌, ◌≤◌, ◌<◌, length, take, drop};
ghost use Rattle.machine.specs.Words.{words_at};
ghost use Rattle.machine.specs.Host.{host};
ghost use Rattle.machine.specs.Execute.{with_controls, load, load_psw, load_control, set_timer};
ghost use Rattle.interruptions.specs.After.{with_registers};
ghost use Rattle.execute.specs.Reaching.{Ready, Does};

use interruptions::{Done, Frames};
use machine::{Cpu, Guest, Registers, Text};
use pieces::Pieces;

const SIXTEEN_WORDS: usize = 64;

// n words of these bytes, put into the control registers from register i on, through 15 to 0.
pub fn load_words(control: &mut [u32; 16], bytes: &[u8], i: usize, n: usize)
    requires { (i < 16) × (n ≤ 16) × (4 * n ≤ length bytes.now) }
    ensures { (c : Cpu) → c.control.words ≡ control.old → with_registers c (record { words = control.new }) ≡ with_controls c i (words_at bytes.now 0 n) }
{
    for k in 0..n {
        control[(i + k) % 16] = words::word_at(bytes, 4 * k);
    }
}

// The control registers with the n words of an operand in those from register i on. The whole operand is read before.
fn operand_controls(control: Registers, storage: &[u8], p: Pieces, i: u32, n: u32) -> Registers
    requires i_bound { (i < 16) × (n ≤ 16) × (p.count ≤ 4 * n) }
    requires first_in_bounds { p.first + p.count ≤ length storage.now }
    requires second_in_bounds { p.second + (4 * n - p.count) ≤ length storage.now }
    ensures { (c : Cpu) → c.control ≡ control → with_registers c result ≡ with_controls c i (words_at (take p.count (drop p.first storage.now) ++ take (4 * n - p.count) (drop p.second storage.now)) 0 n) }
{
    let mut bytes = [0; SIXTEEN_WORDS];
    let size = 4 * n as usize;
    reader::get_operand(&mut bytes[..size], storage, p);
    let mut control = control;
    load_words(&mut control.words, &bytes[..size], i as usize, n as usize);
    control
}

// LOAD (L).
pub fn load(
    storage: &mut [u8],
    keys: &mut [u8],
    designation: u32,
    guest: Guest,
    cpu: Cpu,
    text: Text,
    t: Frames,
) -> Done
    requires { Ready storage.old keys.old guest text t }
    ensures { (clock : ℕ) → Does load (host designation storage.old keys.old) guest clock cpu text t result storage.new keys.new }
{
    let a = cpu::indexed_address(cpu.psw, cpu.general, text);
    let o = match execute::reach(storage, keys, designation, guest, cpu, text, t, false, a, 4) {
        Ok(o) => o,
        Err(done) => return done,
    };
    let value = u32::from_be_bytes(reader::operand(storage, o));
    let psw = cpu::advanced(cpu.psw, text.ilc as u32);
    interruptions::with_general(cpu, psw, text.first as u32 / 16 % 16, value)
}

// LOAD PSW (LPSW).
pub fn load_psw(
    storage: &mut [u8],
    keys: &mut [u8],
    designation: u32,
    guest: Guest,
    cpu: Cpu,
    text: Text,
    t: Frames,
) -> Done
    requires { Ready storage.old keys.old guest text t }
    ensures { (clock : ℕ) → Does load_psw (host designation storage.old keys.old) guest clock cpu text t result storage.new keys.new }
{
    let a = cpu::operand_address(cpu.psw, cpu.general, text);
    let o = match execute::reach(storage, keys, designation, guest, cpu, text, t, false, a, 8) {
        Ok(o) => o,
        Err(done) => return done,
    };
    let bytes: [u8; 8] = reader::operand(storage, o);
    let psw = words::psw_at(&bytes, 0, cpu.psw.system370);
    interruptions::with_psw(cpu, psw)
}

// SET CPU TIMER (SPT).
pub fn set_timer(
    storage: &mut [u8],
    keys: &mut [u8],
    designation: u32,
    guest: Guest,
    cpu: Cpu,
    text: Text,
    t: Frames,
) -> Done
    requires { Ready storage.old keys.old guest text t }
    ensures { (clock : ℕ) → Does set_timer (host designation storage.old keys.old) guest clock cpu text t result storage.new keys.new }
{
    let a = cpu::operand_address(cpu.psw, cpu.general, text);
    let o = match execute::reach(storage, keys, designation, guest, cpu, text, t, false, a, 8) {
        Ok(o) => o,
        Err(done) => return done,
    };
    let timer = u64::from_be_bytes(reader::operand(storage, o));
    let psw = cpu::advanced(cpu.psw, text.ilc as u32);
    interruptions::with_timer(cpu, psw, timer)
}

// LOAD CONTROL (LCTL).
pub fn load_control(
    storage: &mut [u8],
    keys: &mut [u8],
    designation: u32,
    guest: Guest,
    cpu: Cpu,
    text: Text,
    t: Frames,
) -> Done
    requires { Ready storage.old keys.old guest text t }
    ensures { (clock : ℕ) → Does load_control (host designation storage.old keys.old) guest clock cpu text t result storage.new keys.new }
{
    let a = cpu::operand_address(cpu.psw, cpu.general, text);
    let count = cpu::range_count(text);
    let n = 4 * count;
    let o = match execute::reach(storage, keys, designation, guest, cpu, text, t, false, a, n) {
        Ok(o) => o,
        Err(done) => return done,
    };
    let i = text.first as u32 / 16 % 16;
    let control = operand_controls(cpu.control, storage, o, i, count);
    let psw = cpu::advanced(cpu.psw, text.ilc as u32);
    interruptions::with_controls(cpu, psw, control)
}
