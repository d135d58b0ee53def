// Interruptions on the kept place of the prefix page: SUPERVISOR CALL and program exceptions, by numbers.
#![tactic(auto)]

ghost use Rattle.std.specs.Prelude.{◌≡◌, false, ◌+◌, ◌≤◌, ◌<◌, length};
ghost use Rattle.std.proofs.lemmas.List.Edits.{sets};
ghost use Rattle.machine.specs.declared.Cpu.{Cpu};
ghost use Rattle.machine.specs.Words.{word_bytes};
ghost use Rattle.machine.specs.Record.{psw_of};
ghost use Rattle.machine.specs.Interruptions.{fields_beside, exception};
ghost use Rattle.machine.specs.Execute.{supervisor_call};
ghost use Rattle.interruptions.specs.After.{fields_of};
ghost use Rattle.calls.specs.Calling.{Interrupts, Calling, Excepting};
ghost use Rattle.calls.specs.Storing.{InOrder, areas_stored};

use interruptions::Interruption;
use machine::{Failure, Psw};

// Stores a word. The writer is lent the word's own part of storage.
fn put(storage: &mut [u8], from: usize, value: u32)
    requires { from + 4 ≤ length storage.old }
    ensures { storage.new ≡ sets storage.old from (word_bytes value) }
{
    writer::put_part(&mut storage[from..from + 4], &value.to_be_bytes());
}

// Stores the code fields of an interruption. A BC PSW takes ILC and code up itself, and nothing is stored beside it.
fn put_fields(storage: &mut [u8], base: usize, psw: Psw, i: Interruption)
    requires { base + i.code + 8 ≤ length storage.old }
    ensures { (c : Cpu) → c.psw ≡ psw → storage.new ≡ sets storage.old (base + i.code) (fields_beside c (fields_of i)) }
{
    if !cpu::basic_control(psw) {
        put(storage, base + i.code as usize, i.word);
        if let Some(address) = i.address {
            put(storage, base + i.code as usize + 4, address);
        }
    }
}

// Stores the old PSW and the code fields of an interruption.
fn put_areas(storage: &mut [u8], base: usize, psw: Psw, i: Interruption)
    requires { InOrder i × (base + 4096 ≤ length storage.old) }
    ensures { (c : Cpu) → c.psw ≡ psw → storage.new ≡ areas_stored storage.old base c i }
{
    let old = cpu::old_psw(psw, i.word / 131072 % 4, i.word % 65536);
    put(storage, base + i.old as usize, old.left);
    put(storage, base + i.old as usize + 4, old.right);
    put_fields(storage, base, psw, i);
}

// An interruption at the kept place. The new PSW, as it stood before, comes back.
fn take(storage: &mut [u8], area: u32, psw: Psw, i: Interruption) -> Psw
    requires { InOrder i × (area + 4096 ≤ length storage.old) }
    ensures value { result ≡ psw_of psw.system370 storage.old (area + i.new) }
    ensures storage_after { (c : Cpu) → c.psw ≡ psw → storage.new ≡ areas_stored storage.old area c i }
{
    let base = area as usize;
    let new = words::psw_at(storage, base + i.new as usize, psw.system370);
    put_areas(storage, base, psw, i);
    new
}

// SUPERVISOR CALL (SVC) with this number, from this PSW. The new PSW comes back.
pub fn call(storage: &mut [u8], area: u32, psw: Psw, number: u32) -> Psw
    requires { (area < 2147483648) × (area + 4096 ≤ length storage.old) × (number < 256) }
    ensures { Interrupts area psw (Calling number) supervisor_call storage.old result storage.new }
{
    let i = Interruption {
        old: 32,
        code: 136,
        new: 96,
        word: 131072 + number,
        address: None,
    };
    let past = cpu::advanced(psw, 1);
    take(storage, area, past, i)
}

// A program exception that interrupts, of a text with this ILC, from this PSW. The new PSW comes back.
pub fn exception(storage: &mut [u8], area: u32, psw: Psw, ilc: u32, f: Failure) -> Psw
    requires { (area < 2147483648) × (area + 4096 ≤ length storage.old) × (ilc ≤ 3) × (f.code < 65536) × (f.host ≡ false) }
    ensures { Interrupts area psw (Excepting ilc f.code) (λ x. exception x x.cpu f) storage.old result storage.new }
{
    let past = execute::after_exception(psw, ilc as u8, f.code);
    let i = execute::program_interruption(ilc as u8, f);
    take(storage, area, past, i)
}
