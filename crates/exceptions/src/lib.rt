// One unit on kept blocks whose tests come to an exception that interrupts: operation, privileged operation, specification.
#![tactic(auto)]

ghost use Rattle.std.specs.Prelude.{◌≡◌, false, ◌&&◌, List, ℕ, ◌+◌, ◌≤◌, ◌<◌, eqb, length, IfOk, IfErr};
ghost use Rattle.machine.specs.Words.{bit};
ghost use Rattle.machine.specs.Opcodes.{length_of};
ghost use Rattle.machine.specs.Failures.{operation};
ghost use Rattle.machine.specs.Interruptions.{exception};
ghost use Rattle.machine.specs.Record.{Sixteen};
ghost use Rattle.blocks.specs.Keeping.{Inside};
ghost use Rattle.area.specs.Keeping.{Placed, InStorage};
ghost use Rattle.calls.specs.Calling.{Interrupts};
ghost use Rattle.special.specs.Performing.{Below, IfCalm, psw_in, Near};
ghost use Rattle.special.specs.Singling.{start, Singles};
ghost use Rattle.exceptions.specs.Excepting.{text_in, Having};

use dispatch::Tests;
use machine::{Failure, Guest, Psw, Registers, Text};
use special::{Change, Done, Single, Want};

const OPERATION: u32 = 1;

// The last place of a block, from its first on, that has three halfwords of the block from there on.
const LAST: usize = 2042;

// The text from a place on, by its first halfword.
pub fn text_at(storage: &[u8], at: usize, ilc: u8, first: u32) -> Text
    requires { (at + 6 ≤ length storage.now) × (ilc ≡ length_of first) × (first < 65536) }
    ensures { result ≡ text_in storage.now at first }
{
    let second = if ilc < 2 {
        0
    } else {
        words::half_at(storage, at + 2)
    };
    let third = if ilc < 3 {
        0
    } else {
        words::half_at(storage, at + 4)
    };
    Text {
        ilc,
        first: first as u16,
        second,
        third,
    }
}

// The guest's controls ask for an interception of an exception with this code.
fn intercepted(guest: Guest, code: u32) -> bool
    ensures { result ≡ false → (((eqb code operation && bit 8 0 guest.interceptions) ≡ false) × (bit 8 1 guest.interceptions ≡ false)) }
{
    guest.interceptions / 64 % 2 == 1 || code == OPERATION && guest.interceptions / 128 % 2 == 1
}

// An exception that is none of the host, of a text with this ILC.
pub fn excepted(
    storage: &mut [u8],
    area: u32,
    guest: Guest,
    psw: Psw,
    timer: u64,
    ilc: u32,
    f: Failure,
) -> Single
    requires { InStorage storage.old area × (ilc ≤ 3) × (f.code < 65536) × (f.host ≡ false) }
    ensures interrupts { IfOk result (λ d. (d.timer ≡ timer) × Placed area
        × Interrupts area psw (Having guest ilc) (λ x. exception x x.cpu f) storage.old (psw_in d psw) storage.new
        × IfCalm d.change (Near psw (psw_in d psw) × (d.timer ≡ timer))) }
    ensures wants { IfErr result (λ w. (storage.new ≡ storage.old) × Below w) }
{
    if intercepted(guest, f.code) {
        return Err(Want::Other);
    }
    if area >= 2147483648 {
        return Err(Want::Area);
    }
    let new = calls::exception(storage, area, psw, ilc, f);
    Ok(Done::leaving(Change::Called, new, timer))
}

// The instruction at the PSW, if its tests come to an exception that interrupts and what it needs is kept.
pub fn tested(
    storage: &mut [u8],
    words: &[u32; 16],
    kept: &[u32; 32],
    area: u32,
    guest: Guest,
    psw: Psw,
    timer: u64,
) -> Single
    requires { Inside storage.old kept.now × Sixteen words.now × InStorage storage.old area }
    ensures singles { IfOk result (λ d. ((clock : ℕ) (control : List ℕ) → Singles guest clock (start psw timer words.now control) kept.now area storage.old d control storage.new)
        × IfCalm d.change (Near psw (psw_in d psw) × (d.timer ≡ timer))) }
    ensures wants { IfErr result (λ w. (storage.new ≡ storage.old) × Below w) }
{
    let Some(place) = lap::land(kept, cpu::instruction_address(psw) as usize) else {
        return Err(Want::Other);
    };
    if place.at > place.base + LAST {
        return Err(Want::Other);
    }
    let first = words::half_at(storage, place.at) as u32;
    let o = decode::decode(psw.system370, first);
    let ilc = o.length;
    if dispatch::unassigned(o.class) {
        return excepted(
            storage,
            area,
            guest,
            psw,
            timer,
            ilc as u32,
            address::exception_of(OPERATION),
        );
    }
    let text = text_at(storage, place.at, ilc, first);
    let general = Registers { words: *words };
    match dispatch::tested(o, guest, psw, general, text) {
        Tests::Excepted(code) => excepted(
            storage,
            area,
            guest,
            psw,
            timer,
            ilc as u32,
            address::exception_of(code),
        ),
        Tests::Intercepted | Tests::Clear => Err(Want::Other),
    }
}
