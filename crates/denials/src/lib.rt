// A unit whose text or operand cannot be reached, with an exception that interrupts: protection, addressing and translation exceptions,
// by numbers.
#![tactic(auto)]

ghost use Rattle.std.specs.Prelude.{◌≡◌, true, false, List, ℕ, ◌≤◌, ◌<◌, length, IfOk, IfErr};
ghost use Rattle.machine.specs.Psw.{instruction_address};
ghost use Rattle.machine.specs.Record.{Sixteen};
ghost use Rattle.machine.specs.Refusals.{frames_of};
ghost use Rattle.storage.specs.Entered.{Entered};
ghost use Rattle.psws.specs.Psws.{state};
ghost use Rattle.blocks.specs.Keeping.{Inside};
ghost use Rattle.area.specs.Keeping.{InStorage};
ghost use Rattle.special.specs.Performing.{Below, IfCalm, psw_in, Near};
ghost use Rattle.special.specs.Singling.{start, SinglesIn};
ghost use Rattle.denials.specs.Denying.{Reaching, Stopping, Denying};

use dispatch::Tests;
use machine::{Class, Failure, Guest, Opcode, Psw, Registers, Text};
use special::{Single, Want};

// The last place of a block, from its first on, that has three halfwords of the block from there on.
const LAST: usize = 2042;

// The instruction fetches an operand that begins at this address.
fn fetches(class: Class, psw: Psw, general: Registers, text: Text, a: u32) -> bool
    ensures { result ≡ true → Reaching class psw general text false a }
{
    match class {
        Class::L => a == cpu::indexed_address(psw, general, text),
        Class::Lpsw | Class::Lctl | Class::Spt => a == cpu::operand_address(psw, general, text),
        _ => false,
    }
}

// The instruction stores an operand that begins at this address.
fn stores(class: Class, psw: Psw, general: Registers, text: Text, a: u32) -> bool
    ensures { result ≡ true → Reaching class psw general text true a }
{
    match class {
        Class::St => a == cpu::indexed_address(psw, general, text),
        Class::Stctl | Class::Stck | Class::Stpt => a == cpu::operand_address(psw, general, text),
        _ => false,
    }
}

// The instruction's operand is an access of this kind that begins at this address.
fn reaches(class: Class, psw: Psw, general: Registers, text: Text, store: bool, a: u32) -> bool
    ensures { result ≡ true → Reaching class psw general text store a }
{
    if store {
        stores(class, psw, general, text, a)
    } else {
        fetches(class, psw, general, text, a)
    }
}

// The instruction's tests are clear, and its operand is an access of this kind that begins at this address.
fn stops(
    o: Opcode,
    guest: Guest,
    psw: Psw,
    general: Registers,
    text: Text,
    store: bool,
    a: u32,
) -> bool
    requires { 0 < o.alignment }
    ensures { result ≡ true → Stopping o guest psw general text store a }
{
    let class = o.class;
    let tests = dispatch::tested(o, guest, psw, general, text);
    match tests {
        Tests::Clear => reaches(class, psw, general, text, store, a),
        Tests::Excepted(_) | Tests::Intercepted => false,
    }
}

// An access to the operand is denied.
fn of_operand(
    storage: &mut [u8],
    words: &[u32; 16],
    kept: &[u32; 32],
    area: u32,
    guest: Guest,
    psw: Psw,
    timer: u64,
    store: bool,
    a: u32,
    f: Failure,
) -> Single
    requires { Inside storage.old kept.now × Sixteen words.now × InStorage storage.old area × (f.code < 65536) × (f.host ≡ false) }
    ensures denying { IfOk result (λ d. Denying guest psw timer words.now kept.now area store a f storage.old d storage.new
        × IfCalm d.change (Near psw (psw_in d psw) × (d.timer ≡ timer))) }
    ensures wants { IfErr result (λ w. (storage.new ≡ storage.old) × Below w) }
{
    let Some(place) = lap::land(kept, cpu::instruction_address(psw) as usize) else {
        return Err(Want::Other);
    };
    if place.at > place.base + LAST {
        return Err(Want::Other);
    }
    let first = words::half_at(storage, place.at) as u32;
    let o = decode::decode(psw.system370, first);
    let ilc = o.length;
    let text = exceptions::text_at(storage, place.at, ilc, first);
    let general = Registers { words: *words };
    if !stops(o, guest, psw, general, text, store, a) {
        return Err(Want::Other);
    }
    exceptions::excepted(storage, area, guest, psw, timer, ilc as u32, f)
}

// The fetch of the text is denied at its first byte. That of a text at an odd address is not tried.
fn of_text(storage: &mut [u8], area: u32, guest: Guest, psw: Psw, timer: u64, f: Failure) -> Single
    requires { InStorage storage.old area × (f.code < 65536) × (f.host ≡ false) }
    ensures denying { IfOk result (λ d. ((words kept : List ℕ) → Sixteen words → Denying guest psw timer words kept area false (instruction_address (state psw)) f storage.old d storage.new)
        × IfCalm d.change (Near psw (psw_in d psw) × (d.timer ≡ timer))) }
    ensures wants { IfErr result (λ w. (storage.new ≡ storage.old) × Below w) }
{
    if cpu::instruction_address(psw) % 2 == 1 {
        return Err(Want::Other);
    }
    exceptions::excepted(storage, area, guest, psw, timer, 1, f)
}

// The access is the fetch of the text from its first byte on.
fn is_text(psw: Psw, store: bool, a: u32) -> bool
    ensures { result ≡ true → (store ≡ false) × (a ≡ instruction_address (state psw)) }
{
    !store && a == cpu::instruction_address(psw)
}

// An access of the unit is denied.
fn denied(
    storage: &mut [u8],
    words: &[u32; 16],
    kept: &[u32; 32],
    area: u32,
    guest: Guest,
    psw: Psw,
    timer: u64,
    store: bool,
    a: u32,
    f: Failure,
) -> Single
    requires { Inside storage.old kept.now × Sixteen words.now × InStorage storage.old area × (f.code < 65536) }
    ensures denying { IfOk result (λ d. Denying guest psw timer words.now kept.now area store a f storage.old d storage.new
        × IfCalm d.change (Near psw (psw_in d psw) × (d.timer ≡ timer))) }
    ensures wants { IfErr result (λ w. (storage.new ≡ storage.old) × Below w) }
{
    if f.host {
        return Err(Want::Other);
    }
    if is_text(psw, store, a) {
        return of_text(storage, area, guest, psw, timer, f);
    }
    of_operand(storage, words, kept, area, guest, psw, timer, store, a, f)
}

// The instruction at the PSW, if an access to this wrapped logical address is one of its own, the first that is denied, and the exception
// interrupts, with what it needs kept.
pub fn unit(
    storage: &mut [u8],
    keys: &[u8],
    control: &[u32; 16],
    words: &[u32; 16],
    kept: &[u32; 32],
    area: u32,
    designation: u32,
    guest: Guest,
    psw: Psw,
    timer: u64,
    store: bool,
    a: u32,
) -> Single
    requires entered { Entered guest × (frames_of storage.old ≤ length keys.now) × (a < 2147483648) }
    requires inside { Inside storage.old kept.now × Sixteen words.now × Sixteen control.now × InStorage storage.old area }
    ensures singles { IfOk result (λ d. ((clock : ℕ) → SinglesIn designation keys.now guest clock (start psw timer words.now control.now) kept.now area storage.old d control.now storage.new)
        × IfCalm d.change (Near psw (psw_in d psw) × (d.timer ≡ timer))) }
    ensures wants { IfErr result (λ w. (storage.new ≡ storage.old) × Below w) }
{
    let registers = Registers { words: *control };
    let place = address::touch(storage, keys, designation, guest, psw, registers, store, a);
    match place {
        Ok(_) => Err(Want::Other),
        Err(f) => denied(storage, words, kept, area, guest, psw, timer, store, a, f),
    }
}
