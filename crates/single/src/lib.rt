// One unit on kept blocks that a lap does not do: SVC, LPSW, STCK, SPT, STPT, LCTL, STCTL.
#![tactic(auto)]

ghost use Rattle.std.specs.Prelude.{◌≡◌, ℕ, ◌+◌, ◌*◌, ◌≤◌, ◌<◌, length, IfOk, IfErr};
ghost use Rattle.machine.specs.declared.Cpu.{Cpu};
ghost use Rattle.machine.specs.Words.{half_at};
ghost use Rattle.machine.specs.Psw.{instruction_address};
ghost use Rattle.machine.specs.Record.{Sixteen};
ghost use Rattle.psws.specs.Psws.{state, Wrapped};
ghost use Rattle.blocks.specs.Keeping.{Inside};
ghost use Rattle.lap.specs.Stepping.{cut};
ghost use Rattle.area.specs.Keeping.{InStorage};
ghost use Rattle.special.specs.declared.Change.TheVariants.{Called};
ghost use Rattle.special.specs.Performing.{Below, IfCalm, psw_in, Near};
ghost use Rattle.special.specs.Singling.{start, Singles};
ghost use Rattle.single.specs.Deciding.{KindIs, alignment_of, is_tested, stopped_of, sum_of, Operates, Calls};

use machine::{Guest, Psw};
use special::{Change, Done, Single, Want};

// An instruction with an operand.
#[derive(Clone, Copy)]
pub enum Operation {
    Lpsw,
    Stctl,
    Lctl,
    Stck,
    Spt,
    Stpt,
}

// The kinds of instructions: a lap's; SUPERVISOR CALL; one with an operand; and one that is not done here.
#[derive(Clone, Copy)]
pub enum Kind {
    Lap,
    Svc,
    With(Operation),
    Rest,
}

// The last place of a block, from its first on, that has four bytes of the block from there on.
const LAST: usize = 2044;

fn wide(x: u8) -> usize
    ensures { (result ≡ x) × (result < 256) }
{
    x as usize
}

// The kind of an instruction by its first two bytes.
fn kind_of(op: u8, second: u8) -> Kind
    ensures { KindIs op second result }
{
    match op {
        0x07 | 0x18 | 0x1a | 0x1b | 0x41 | 0x47 | 0x50 | 0x58 => Kind::Lap,
        0x0a => Kind::Svc,
        0x82 => Kind::With(Operation::Lpsw),
        0xb6 => Kind::With(Operation::Stctl),
        0xb7 => Kind::With(Operation::Lctl),
        0xb2 => match second {
            0x05 => Kind::With(Operation::Stck),
            0x08 => Kind::With(Operation::Spt),
            0x09 => Kind::With(Operation::Stpt),
            _ => Kind::Rest,
        },
        _ => Kind::Rest,
    }
}

// It is privileged, and its operand aligned.
fn tested(operation: Operation) -> bool
    ensures { result ≡ is_tested operation }
{
    !matches!(operation, Operation::Stck)
}

// What the operand's address is a multiple of. STCK is not asked.
fn alignment(operation: Operation) -> usize
    ensures { (result ≡ alignment_of operation) × (0 < result) }
{
    match operation {
        Operation::Stctl | Operation::Lctl => 4,
        _ => 8,
    }
}

// It is privileged in problem state, or its operand is misaligned.
fn stopped(operation: Operation, psw: Psw, a: usize) -> bool
    ensures { (c : Cpu) → c.psw ≡ psw → result ≡ stopped_of operation c a }
{
    tested(operation) && (cpu::problem_state(psw) || a % alignment(operation) != 0)
}

// The operand's address D2(B2).
fn operand(storage: &[u8], words: &[u32; 16], at: usize, long: bool) -> usize
    requires { at + 4 ≤ length storage.now }
    ensures { (result ≡ cut long (sum_of words.now (half_at storage.now (at + 2)))) × (result < 2147483648) }
{
    let second = wide(storage[at + 2]) * 256 + wide(storage[at + 3]);
    lap::wrapped(long, lap::part(words, second / 4096) + second % 4096)
}

// SUPERVISOR CALL (SVC) with this number.
fn call(storage: &mut [u8], area: u32, guest: Guest, psw: Psw, timer: u64, number: u32) -> Single
    requires { (number < 256) × InStorage storage.old area }
    ensures calls { IfOk result (λ d. Calls guest area psw timer number storage.old d storage.new × (d.timer ≡ timer) × (d.change ≡ Called)) }
    ensures wants { IfErr result (λ w. (storage.new ≡ storage.old) × Below w) }
{
    if cpu::intercepts_svc(guest, number) {
        return Err(Want::Other);
    }
    if area >= area::NO_AREA {
        return Err(Want::Area);
    }
    let new = calls::call(storage, area, psw, number);
    Ok(Done::leaving(Change::Called, new, timer))
}

// An instruction with an operand.
fn with_operand(
    storage: &mut [u8],
    control: &mut [u32; 16],
    kept: &[u32; 32],
    guest: Guest,
    clock: u64,
    psw: Psw,
    timer: u64,
    registers: u8,
    operation: Operation,
    a: usize,
) -> Single
    requires { Inside storage.old kept.now × Sixteen control.old × (a < 2147483648) }
    ensures operates { IfOk result (λ d. Operates guest clock psw timer control.old kept.now operation registers a storage.old d control.new storage.new
        × IfCalm d.change (Wrapped psw (instruction_address (state psw)) → Near psw (psw_in d psw) × (d.timer ≡ timer) × (control.new ≡ control.old))) }
    ensures wants { IfErr result (λ w. (storage.new ≡ storage.old) × (control.new ≡ control.old) × Below w) }
    ensures sixteen { Sixteen control.new }
{
    if stopped(operation, psw, a) {
        return Err(Want::Tests);
    }
    let r1 = wide(registers / 16);
    let r3 = wide(registers % 16);
    match operation {
        Operation::Stck => special::store_clock(storage, kept, guest.epoch, clock, psw, timer, a),
        Operation::Stpt => special::store_timer(storage, kept, psw, timer, a),
        Operation::Spt => special::set_timer(storage, kept, psw, timer, a),
        Operation::Lpsw => {
            if guest.interceptions / 32 % 2 == 1 {
                return Err(Want::Other);
            }
            special::load_psw(storage, kept, psw, timer, a)
        }
        Operation::Lctl => {
            let count = controls::count_of(r1, r3);
            if cpu::intercepts_lctl(guest, r1 as u32, count as u32) {
                return Err(Want::Other);
            }
            controls::load_control(storage, control, kept, psw, timer, a, r1, r3)
        }
        Operation::Stctl => controls::store_control(storage, control, kept, psw, timer, a, r1, r3),
    }
}

// The instruction at the PSW, if a lap does not do it and what it needs is kept.
pub fn unit(
    storage: &mut [u8],
    control: &mut [u32; 16],
    words: &[u32; 16],
    kept: &[u32; 32],
    area: u32,
    guest: Guest,
    clock: u64,
    psw: Psw,
    timer: u64,
) -> Single
    requires { Inside storage.old kept.now × Sixteen words.now × Sixteen control.old × InStorage storage.old area }
    ensures singles { IfOk result (λ d. Singles guest clock (start psw timer words.now control.old) kept.now area storage.old d control.new storage.new
        × IfCalm d.change (Wrapped psw (instruction_address (state psw)) → Near psw (psw_in d psw) × (d.timer ≡ timer) × (control.new ≡ control.old))) }
    ensures wants { IfErr result (λ w. (storage.new ≡ storage.old) × (control.new ≡ control.old) × Below w) }
    ensures sixteen { Sixteen control.new }
{
    let address = cpu::instruction_address(psw) as usize;
    let Some(text) = lap::land(kept, address) else {
        return Err(Want::Lap);
    };
    let at = text.at;
    if at > text.base + LAST {
        return Err(Want::Other);
    }
    let registers = storage[at + 1];
    match kind_of(storage[at], registers) {
        Kind::Lap => Err(Want::Lap),
        Kind::Rest => Err(Want::Tests),
        Kind::Svc => call(storage, area, guest, psw, timer, registers as u32),
        Kind::With(operation) => {
            let a = operand(storage, words, at, lap::is_long(psw));
            with_operand(
                storage, control, kept, guest, clock, psw, timer, registers, operation, a,
            )
        }
    }
}
