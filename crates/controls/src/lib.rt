// LOAD CONTROL and STORE CONTROL with an operand that stands on a kept block, by numbers.
#![tactic(auto)]

ghost use Rattle.std.specs.Prelude.{◌≡◌, ◌+◌, ◌-◌, ◌*◌, ◌%◌, ◌≤◌, ◌<◌, length, IfOk, IfErr};
ghost use Rattle.machine.specs.declared.Cpu.{Cpu};
ghost use Rattle.machine.specs.Words.{words_at, words_bytes};
ghost use Rattle.machine.specs.Psw.{instruction_address};
ghost use Rattle.machine.specs.Record.{Sixteen};
ghost use Rattle.machine.specs.Execute.{controls_from, with_controls, store_control, load_control};
ghost use Rattle.interruptions.specs.After.{with_registers};
ghost use Rattle.psws.specs.Psws.{state, Wrapped};
ghost use Rattle.blocks.specs.Keeping.{Inside};
ghost use Rattle.steps.specs.Texting.{done_as};
ghost use Rattle.special.specs.Performing.{Below, IfCalm, psw_in, Near, Performs, WithControls};

use machine::Psw;
use special::{Change, Done, Single, Want};

// The lowest address that is stored into here: below it low-address protection may be.
const LOW: usize = 512;

// How many control registers R1 to R3 are, going up and through 15 to 0.
pub fn count_of(r1: usize, r3: usize) -> usize
    requires { (r1 < 16) × (r3 < 16) }
    ensures { (1 ≤ result) × (result ≤ 16) × (result ≡ (r3 + (16 - r1)) % 16 + 1) }
{
    (r3 + (16 - r1)) % 16 + 1
}

// What is wanted for n bytes that do not stand on a kept block: unit, if they go over a block's end.
fn wanted(want: Want, a: usize, n: usize) -> Want
    requires { Below want × (a < 2147483648) × (n ≤ 2048) }
    ensures { Below result }
{
    if a % 2048 + n > 2048 {
        Want::Other
    } else {
        want
    }
}

// n words, put into the control registers from register i on, through 15 to 0.
fn load_words(control: &mut [u32; 16], bytes: &[u8], i: usize, n: usize)
    requires { Sixteen control.old × (i < 16) × (n ≤ 16) × (4 * n ≤ length bytes.now) }
    ensures { Sixteen control.new × ((c : Cpu) → c.control.words ≡ control.old
        → with_registers c (record { words = control.new }) ≡ with_controls c i (words_at bytes.now 0 n)) }
{
    for k in 0..n {
        control[(i + k) % 16] = words::word_at(bytes, 4 * k);
    }
}

// n control registers from register i on, through 15 to 0, over a part of storage that is as long.
fn store_words(part: &mut [u8], control: &[u32; 16], i: usize, n: usize)
    requires { (i < 16) × (n ≤ 16) × (length part.old ≡ 4 * n) }
    ensures { (c : Cpu) → c.control.words ≡ control.now → part.new ≡ words_bytes (controls_from c i n) }
{
    for k in 0..n {
        words::put_word(part, 4 * k, control[(i + k) % 16]);
    }
}

// LOAD CONTROL (LCTL).
pub fn load_control(
    storage: &[u8],
    control: &mut [u32; 16],
    kept: &[u32; 32],
    psw: Psw,
    timer: u64,
    a: usize,
    r1: usize,
    r3: usize,
) -> Single
    requires { Inside storage.now kept.now × Sixteen control.old × (a < 2147483648) × (r1 < 16) × (r3 < 16) }
    ensures performs { IfOk result (λ d. Performs kept.now psw a storage.now (WithControls control.old r1 r3) load_control
        (λ c. done_as (psw_in d psw) c.timer (record { words = control.new })) storage.now
        × (d.timer ≡ timer) × IfCalm d.change (Near psw (psw_in d psw) × (control.new ≡ control.old))) }
    ensures wants { IfErr result (λ w. (control.new ≡ control.old) × Below w) }
    ensures sixteen { Sixteen control.new }
{
    let n = count_of(r1, r3);
    let Some(p) = places::fetch_place(kept, a, 4 * n) else {
        return Err(wanted(Want::Fetch(a as u32), a, 4 * n));
    };
    let end = p + 4 * n;
    load_words(control, &storage[p..end], r1, n);
    Ok(Done::leaving(Change::Changed, cpu::advanced(psw, 2), timer))
}

// STORE CONTROL (STCTL).
pub fn store_control(
    storage: &mut [u8],
    control: &[u32; 16],
    kept: &[u32; 32],
    psw: Psw,
    timer: u64,
    a: usize,
    r1: usize,
    r3: usize,
) -> Single
    requires { Inside storage.old kept.now × Sixteen control.now × (a < 2147483648) × (r1 < 16) × (r3 < 16) }
    ensures performs { IfOk result (λ d. Performs kept.now psw a storage.old (WithControls control.now r1 r3) store_control
        (λ c. done_as (psw_in d psw) c.timer c.control) storage.new
        × (d.timer ≡ timer) × IfCalm d.change (Wrapped psw (instruction_address (state psw)) → Near psw (psw_in d psw))) }
    ensures wants { IfErr result (λ w. (storage.new ≡ storage.old) × Below w) }
{
    let n = count_of(r1, r3);
    let Some(p) = places::store_place(kept, a, 4 * n) else {
        return Err(wanted(Want::Store(a as u32), a, 4 * n));
    };
    if a < LOW {
        return Err(Want::Other);
    }
    let end = p + 4 * n;
    store_words(&mut storage[p..end], control, r1, n);
    Ok(Done::leaving(Change::Calm, cpu::advanced(psw, 2), timer))
}
