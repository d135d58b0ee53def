// The instructions that branch: BRANCH ON CONDITION. Each contract says that the code does what machine's Execute defines for every unit
// in progress that stands so.
#![tactic(auto)]

ghost use Rattle.std.specs.Prelude.{◌≡◌, cond, not, ◌&&◌, ℕ, ◌≤◌, eqb};
ghost use Rattle.machine.specs.Words.{bits};
ghost use Rattle.machine.specs.Psw.{condition_code, with_address};
ghost use Rattle.machine.specs.Host.{Host};
ghost use Rattle.machine.specs.Outcomes.{Progress};
ghost use Rattle.machine.specs.Execute.{next, selected, branch_register, branch_indexed};
ghost use Rattle.interruptions.specs.After.{left_by, WithKeys};
ghost use Rattle.execute.specs.Reaching.{Does};

use interruptions::{Done, Event, Frames};
use machine::{Cpu, Guest, Psw, Text};

// A branch: the unit completed at the address where it is taken, and otherwise past the instruction.
fn branch(cpu: Cpu, text: Text, taken: bool, a: u32) -> Done
    requires { text.ilc ≤ 3 }
    ensures { (result.event ≡ Event.Completed) × ((x : Progress) → x.cpu ≡ cpu → x.text ≡ text → left_by cpu result ≡ cond taken (with_address x.cpu a) (next x x.cpu)) }
{
    if taken {
        return interruptions::with_psw(cpu, cpu::with_address(cpu.psw, a));
    }
    interruptions::with_psw(cpu, cpu::advanced(cpu.psw, text.ilc as u32))
}

// The mask in bits 8-11 of the first halfword selects the condition code.
pub fn selects(psw: Psw, first: u32) -> bool
    ensures { (c : Cpu) → c.psw ≡ psw → result ≡ selected (bits 16 8 11 first) (condition_code c) }
{
    cpu::selected(first / 16 % 16, cpu::condition_code(psw))
}

// The mask selects the condition code, and R2 is not zero.
pub fn selects_register(psw: Psw, first: u32) -> bool
    ensures { (c : Cpu) → c.psw ≡ psw → result ≡ (not (eqb (bits 16 12 15 first) 0) && selected (bits 16 8 11 first) (condition_code c)) }
{
    if first % 16 == 0 {
        return false;
    }
    selects(psw, first)
}

// BRANCH ON CONDITION (BCR): with R2 zero it never branches.
pub fn branch_register(keys: &mut [u8], cpu: Cpu, text: Text, t: Frames) -> Done
    requires { WithKeys keys.old t × (text.ilc ≤ 3) }
    ensures { (h : Host) (g : Guest) (clock : ℕ) → h.keys ≡ keys.old → Does branch_register h g clock cpu text t result h.storage keys.new }
{
    interruptions::mark_text(keys, t);
    let general = cpu.general;
    let a = general.words[(text.first as u32 % 16) as usize];
    let taken = selects_register(cpu.psw, text.first as u32);
    branch(cpu, text, taken, a)
}

// BRANCH ON CONDITION (BC).
pub fn branch_indexed(keys: &mut [u8], cpu: Cpu, text: Text, t: Frames) -> Done
    requires { WithKeys keys.old t × (text.ilc ≤ 3) }
    ensures { (h : Host) (g : Guest) (clock : ℕ) → h.keys ≡ keys.old → Does branch_indexed h g clock cpu text t result h.storage keys.new }
{
    interruptions::mark_text(keys, t);
    let a = cpu::indexed_address(cpu.psw, cpu.general, text);
    let taken = selects(cpu.psw, text.first as u32);
    branch(cpu, text, taken, a)
}
