// An instruction whose text is fetched: the order of its tests before its operand, and its effect, by its class.
#![tactic(auto)]

ghost use Rattle.std.specs.Prelude.{◌≡◌, ◌&&◌, ℕ, ◌≤◌, ◌<◌};
ghost use Rattle.machine.specs.declared.Class.TheVariants.{Unassigned};
ghost use Rattle.machine.specs.Psw.{problem_state};
ghost use Rattle.machine.specs.Host.{Host, host};
ghost use Rattle.machine.specs.Opcodes.{same_class};
ghost use Rattle.machine.specs.Outcomes.{Progress};
ghost use Rattle.machine.specs.Execute.{intercept_instruction, execute};
ghost use Rattle.machine.specs.Units.{intercepts, decoded};
ghost use Rattle.execute.specs.Reaching.{Ready, Does};
ghost use Rattle.dispatch.specs.Testing.{WithOperand, after_tests, exception_code};

use interruptions::{Done, Event, Frames, OPERATION, PRIVILEGED_OPERATION, SPECIFICATION};
use machine::{Class, Cpu, Guest, Opcode, Psw, Reason, Registers, Text};

// What the tests before an instruction's operand come to: a program exception, code 4, or the instruction.
#[derive(Clone, Copy)]
pub enum Tests {
    Excepted(u32),
    Intercepted,
    Clear,
}

// The guest's controls ask for an interception of the instruction.
fn intercepts(class: Class, guest: Guest, text: Text) -> bool
    ensures { (x : Progress) → x.guest ≡ guest → x.text ≡ text → result ≡ intercepts class x }
{
    match class {
        Class::Svc => cpu::intercepts_svc(guest, text.first as u32 % 256),
        Class::Lpsw => guest.interceptions / 32 % 2 == 1,
        Class::Lctl => cpu::intercepts_lctl(
            guest,
            text.first as u32 / 16 % 16,
            cpu::range_count(text),
        ),
        _ => false,
    }
}

// Code 4: the interception has the text, and the PSW is past the instruction.
pub fn intercept_instruction(cpu: Cpu, text: Text) -> Done
    requires { text.ilc ≤ 3 }
    ensures { (h : Host) (g : Guest) (clock : ℕ) (t : Frames) → Does intercept_instruction h g clock cpu text t result h.storage h.keys }
{
    let psw = cpu::advanced(cpu.psw, text.ilc as u32);
    Done {
        event: Event::Intercepted(Reason::Instruction(text)),
        ..interruptions::with_psw(cpu, psw)
    }
}

// No instruction has the opcode.
pub fn unassigned(class: Class) -> bool
    ensures { result ≡ same_class class Unassigned }
{
    match class {
        Class::Unassigned => true,
        _ => false,
    }
}

// A privileged operation in problem state.
fn forbidden(privileged: bool, psw: Psw) -> bool
    ensures { (c : Cpu) → c.psw ≡ psw → result ≡ (privileged && problem_state c) }
{
    if privileged {
        return cpu::problem_state(psw);
    }
    false
}

// The effect of an instruction with an operand in storage, by its class, the last of which is STPT.
fn perform_operand(
    class: Class,
    storage: &mut [u8],
    keys: &mut [u8],
    designation: u32,
    guest: Guest,
    clock: u64,
    cpu: Cpu,
    text: Text,
    t: Frames,
) -> Done
    requires { Ready storage.old keys.old guest text t × WithOperand class }
    ensures { Does (execute class) (host designation storage.old keys.old) guest clock cpu text t result storage.new keys.new }
{
    match class {
        Class::St => stores::store(storage, keys, designation, guest, cpu, text, t),
        Class::L => loads::load(storage, keys, designation, guest, cpu, text, t),
        Class::Lpsw => loads::load_psw(storage, keys, designation, guest, cpu, text, t),
        Class::Stctl => stores::store_control(storage, keys, designation, guest, cpu, text, t),
        Class::Lctl => loads::load_control(storage, keys, designation, guest, cpu, text, t),
        Class::Stck => stores::store_clock(storage, keys, designation, guest, clock, cpu, text, t),
        Class::Spt => loads::set_timer(storage, keys, designation, guest, cpu, text, t),
        _ => stores::store_timer(storage, keys, designation, guest, cpu, text, t),
    }
}

// The effect of an instruction, by its class.
pub fn perform(
    class: Class,
    storage: &mut [u8],
    keys: &mut [u8],
    designation: u32,
    guest: Guest,
    clock: u64,
    cpu: Cpu,
    text: Text,
    t: Frames,
) -> Done
    requires { Ready storage.old keys.old guest text t }
    ensures { Does (execute class) (host designation storage.old keys.old) guest clock cpu text t result storage.new keys.new }
{
    match class {
        Class::Lr => registers::load_register(keys, cpu, text, t),
        Class::Ar => registers::add(storage, keys, designation, guest, cpu, text, t),
        Class::Sr => registers::subtract(storage, keys, designation, guest, cpu, text, t),
        Class::Bcr => branches::branch_register(keys, cpu, text, t),
        Class::Svc => registers::supervisor_call(storage, keys, designation, guest, cpu, text, t),
        Class::La => registers::load_address(keys, cpu, text, t),
        Class::Bc => branches::branch_indexed(keys, cpu, text, t),
        Class::Mandatory => intercept_instruction(cpu, text),
        Class::Unassigned => {
            let f = address::exception_of(OPERATION);
            execute::excepted(storage, keys, designation, guest, cpu, text, t, f)
        }
        _ => perform_operand(
            class,
            storage,
            keys,
            designation,
            guest,
            clock,
            cpu,
            text,
            t,
        ),
    }
}

// The tests of an instruction whose text is fetched, before its operand: operation, privilege, interception, alignment.
pub fn tested(o: Opcode, guest: Guest, psw: Psw, general: Registers, text: Text) -> Tests
    requires { 0 < o.alignment }
    ensures o_value { (x : Progress) → x.guest ≡ guest → x.cpu.psw ≡ psw → x.cpu.general ≡ general → x.text ≡ text → decoded x o ≡ after_tests x o result }
    ensures result_bound { exception_code result < 65536 }
{
    let class = o.class;
    if unassigned(class) {
        return Tests::Excepted(OPERATION);
    }
    if forbidden(o.privileged, psw) {
        return Tests::Excepted(PRIVILEGED_OPERATION);
    }
    if intercepts(class, guest, text) {
        return Tests::Intercepted;
    }
    let a = cpu::operand_address(psw, general, text);
    if cpu::misaligned(o.alignment, a) {
        return Tests::Excepted(SPECIFICATION);
    }
    Tests::Clear
}
