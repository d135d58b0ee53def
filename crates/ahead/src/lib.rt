// Whether an instruction whose tests are clear will complete, told before anything is stored or marked, while the interval timer's word
// cannot be stored into. No interruption completes then: the old PSW of each stands on the word's page.
#![tactic(auto)]

ghost use Rattle.std.specs.Prelude.{◌≡◌, not, ◌&&◌, ◌≤◌, length};
ghost use Rattle.machine.specs.declared.Class.TheVariants.{Ar, Sr};
ghost use Rattle.machine.specs.Refusals.{frames_of};
ghost use Rattle.machine.specs.Psw.{overflow_enabled, wrap};
ghost use Rattle.machine.specs.Host.{host, view};
ghost use Rattle.machine.specs.Addresses.{access, accesses, span};
ghost use Rattle.machine.specs.Outcomes.{Progress};
ghost use Rattle.machine.specs.Execute.{operand_address, indexed_address};
ghost use Rattle.storage.specs.Entered.{Entered};
ghost use Rattle.ahead.specs.Completing.{all_reached, reaches, performs, InHand};

use machine::{Class, Cpu, Guest, Psw, Text};

// The operand of n bytes at a wrapped logical address is reached.
fn reaches(
    storage: &[u8],
    keys: &[u8],
    designation: u32,
    guest: Guest,
    cpu: Cpu,
    store: bool,
    a: u32,
    n: u32,
) -> bool
    requires entered { Entered guest × (frames_of storage.now ≤ length keys.now) }
    requires a_value { (wrap cpu a ≡ a) × (1 ≤ n) × (n ≤ 4096) }
    ensures { result ≡ all_reached (accesses (access guest (view guest (host designation storage.now keys.now)) cpu store) (span cpu a n)) }
{
    let operand = operands::find_operand(
        storage,
        keys,
        designation,
        guest,
        cpu.psw,
        cpu.control,
        store,
        a,
        n,
    );
    operand.is_ok()
}

// The operand D2(X2,B2) of four bytes is reached.
fn reaches_indexed(
    storage: &[u8],
    keys: &[u8],
    designation: u32,
    guest: Guest,
    cpu: Cpu,
    text: Text,
    store: bool,
) -> bool
    requires { Entered guest × (frames_of storage.now ≤ length keys.now) }
    ensures { (x : Progress) → InHand (host designation storage.now keys.now) x guest cpu text → result ≡ reaches x store (indexed_address x) 4 }
{
    let a = cpu::indexed_address(cpu.psw, cpu.general, text);
    reaches(storage, keys, designation, guest, cpu, store, a, 4)
}

// The operand D2(B2) of n bytes is reached.
fn reaches_based(
    storage: &[u8],
    keys: &[u8],
    designation: u32,
    guest: Guest,
    cpu: Cpu,
    text: Text,
    store: bool,
    n: u32,
) -> bool
    requires entered { Entered guest × (frames_of storage.now ≤ length keys.now) }
    requires le_n { (1 ≤ n) × (n ≤ 4096) }
    ensures { (x : Progress) → InHand (host designation storage.now keys.now) x guest cpu text → result ≡ reaches x store (operand_address x) n }
{
    let a = cpu::operand_address(cpu.psw, cpu.general, text);
    reaches(storage, keys, designation, guest, cpu, store, a, n)
}

// A sum does not interrupt by its overflow.
fn passes(psw: Psw, overflow: bool) -> bool
    ensures { (c : Cpu) → c.psw ≡ psw → result ≡ not (overflow && overflow_enabled c) }
{
    !(overflow && cpu::overflow_enabled(psw))
}

// AR completes.
fn adds(cpu: Cpu, text: Text) -> bool
    ensures { (x : Progress) → x.cpu ≡ cpu → x.text ≡ text → result ≡ performs Ar x }
{
    let general = cpu.general;
    let a = general.words[(text.first as u32 / 16 % 16) as usize];
    let b = general.words[(text.first as u32 % 16) as usize];
    let sum = adder::add(a, b);
    passes(cpu.psw, sum.overflow)
}

// SR completes.
fn subtracts(cpu: Cpu, text: Text) -> bool
    ensures { (x : Progress) → x.cpu ≡ cpu → x.text ≡ text → result ≡ performs Sr x }
{
    let general = cpu.general;
    let a = general.words[(text.first as u32 / 16 % 16) as usize];
    let b = general.words[(text.first as u32 % 16) as usize];
    let sum = adder::subtract(a, b);
    passes(cpu.psw, sum.overflow)
}

// The instruction completes, its tests passed.
#[tactic(auto, unfolding(crate::specs::Completing::performs))]
pub fn performs(
    class: Class,
    storage: &[u8],
    keys: &[u8],
    designation: u32,
    guest: Guest,
    cpu: Cpu,
    text: Text,
) -> bool
    requires { Entered guest × (frames_of storage.now ≤ length keys.now) }
    ensures { (x : Progress) → InHand (host designation storage.now keys.now) x guest cpu text → result ≡ performs class x }
{
    let n = 4 * cpu::range_count(text);
    match class {
        Class::Lr | Class::Bcr | Class::La | Class::Bc => true,
        Class::Ar => adds(cpu, text),
        Class::Sr => subtracts(cpu, text),
        Class::St => reaches_indexed(storage, keys, designation, guest, cpu, text, true),
        Class::L => reaches_indexed(storage, keys, designation, guest, cpu, text, false),
        Class::Lpsw => reaches_based(storage, keys, designation, guest, cpu, text, false, 8),
        Class::Stctl => reaches_based(storage, keys, designation, guest, cpu, text, true, n),
        Class::Lctl => reaches_based(storage, keys, designation, guest, cpu, text, false, n),
        Class::Stck => reaches_based(storage, keys, designation, guest, cpu, text, true, 8),
        Class::Spt => reaches_based(storage, keys, designation, guest, cpu, text, false, 8),
        Class::Stpt => reaches_based(storage, keys, designation, guest, cpu, text, true, 8),
        Class::Svc | Class::Mandatory | Class::Unassigned => false,
    }
}
