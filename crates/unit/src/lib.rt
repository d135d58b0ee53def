// One unit of a guest: the list before it, the fetch of the text, and the instruction, by what its tests come to. The contract of unit
// equates how it ends, state, storage and keys with machine's unit put into effect. While the interval timer's word is shut, an
// instruction that would complete is told and not done.
#![tactic(auto)]

ghost use Rattle.std.specs.Prelude.{◌≡◌, true, false, ◌≤◌, ◌<◌, length};
ghost use Rattle.machine.specs.Refusals.{frames_of};
ghost use Rattle.machine.specs.Host.{host, view};
ghost use Rattle.machine.specs.Outcomes.{Progress};
ghost use Rattle.machine.specs.Execute.{execute};
ghost use Rattle.machine.specs.Units.{decoded, started, instruction, unit};
ghost use Rattle.storage.specs.Entered.{Entered};
ghost use Rattle.cpu.specs.Before.{unit_after};
ghost use Rattle.ahead.specs.Completing.{performs, InHand};
ghost use Rattle.execute.specs.Reaching.{Ready};
ghost use Rattle.unit.specs.Foretelling.{Comes, Tells};

use cpu::Before;
use dispatch::Tests;
use interruptions::{Done, Event, Frames, SPECIFICATION};
use machine::{Class, Cpu, Guest, Opcode, Text};

// No text: the instruction length code is 0.
fn unfetched() -> Text
    ensures { result ≡ record { ilc = 0; first = 0; second = 0; third = 0 } }
{
    Text {
        ilc: 0,
        first: 0,
        second: 0,
        third: 0,
    }
}

// The instruction completes: asked only while the interval timer's word is shut.
fn foretells(
    shut: bool,
    class: Class,
    storage: &[u8],
    keys: &[u8],
    designation: u32,
    guest: Guest,
    cpu: Cpu,
    text: Text,
) -> bool
    requires { Entered guest × (frames_of storage.now ≤ length keys.now) }
    ensures { (shut ≡ false → result ≡ false) × (shut ≡ true → (x : Progress)
        → InHand (host designation storage.now keys.now) x guest cpu text → result ≡ performs class x) }
{
    shut && ahead::performs(class, storage, keys, designation, guest, cpu, text)
}

// An instruction whose tests are clear.
fn cleared(
    class: Class,
    storage: &mut [u8],
    keys: &mut [u8],
    designation: u32,
    guest: Guest,
    clock: u64,
    shut: bool,
    cpu: Cpu,
    text: Text,
    t: Frames,
) -> Done
    requires { Ready storage.old keys.old guest text t }
    ensures { Tells shut (execute class) (host designation storage.old keys.old) guest clock cpu text t result storage.new keys.new }
{
    if foretells(shut, class, storage, keys, designation, guest, cpu, text) {
        return interruptions::with_psw(cpu, cpu.psw);
    }
    dispatch::perform(
        class,
        storage,
        keys,
        designation,
        guest,
        clock,
        cpu,
        text,
        t,
    )
}

// An instruction whose text is fetched, by what its tests come to.
fn decoded(
    storage: &mut [u8],
    keys: &mut [u8],
    designation: u32,
    guest: Guest,
    clock: u64,
    shut: bool,
    cpu: Cpu,
    text: Text,
    t: Frames,
    o: Opcode,
) -> Done
    requires { Ready storage.old keys.old guest text t × (0 < o.alignment) }
    ensures { Tells shut (λ x. decoded x o) (host designation storage.old keys.old) guest clock cpu text t result storage.new keys.new }
{
    let class = o.class;
    let tests = dispatch::tested(o, guest, cpu.psw, cpu.general, text);
    match tests {
        Tests::Excepted(code) => {
            let f = address::exception_of(code);
            execute::excepted(storage, keys, designation, guest, cpu, text, t, f)
        }
        Tests::Intercepted => dispatch::intercept_instruction(cpu, text),
        Tests::Clear => cleared(
            class,
            storage,
            keys,
            designation,
            guest,
            clock,
            shut,
            cpu,
            text,
            t,
        ),
    }
}

// The instruction at the PSW's address.
fn instruction(
    storage: &mut [u8],
    keys: &mut [u8],
    designation: u32,
    guest: Guest,
    clock: u64,
    shut: bool,
    cpu: Cpu,
) -> Done
    requires { Entered guest × (frames_of storage.old ≤ length keys.old) }
    ensures { Comes shut (host designation storage.old keys.old) guest cpu
        (instruction (started guest clock (view guest (host designation storage.old keys.old)) cpu 1)) result storage.new keys.new }
{
    let fetched = text::fetch(storage, keys, designation, guest, cpu.psw, cpu.control);
    let text = fetched.reading.text;
    let t = fetched.reading.frames;
    match fetched.reading.failure {
        Some(f) => execute::excepted(storage, keys, designation, guest, cpu, text, t, f),
        None => decoded(
            storage,
            keys,
            designation,
            guest,
            clock,
            shut,
            cpu,
            text,
            t,
            fetched.opcode,
        ),
    }
}

// A unit, by what the list before it comes to.
fn unit_after(
    storage: &mut [u8],
    keys: &mut [u8],
    designation: u32,
    guest: Guest,
    clock: u64,
    shut: bool,
    cpu: Cpu,
    before: Before,
) -> Done
    requires { Entered guest × (frames_of storage.old ≤ length keys.old) }
    ensures { Comes shut (host designation storage.old keys.old) guest cpu
        (unit_after guest clock (view guest (host designation storage.old keys.old)) cpu before) result storage.new keys.new }
{
    match before {
        Before::Ends(reason) => Done {
            event: Event::Intercepted(reason),
            ..interruptions::with_psw(cpu, cpu.psw)
        },
        Before::Malformed => {
            let f = address::exception_of(SPECIFICATION);
            let t = Frames::None;
            execute::excepted(storage, keys, designation, guest, cpu, unfetched(), t, f)
        }
        Before::Instruction => instruction(storage, keys, designation, guest, clock, shut, cpu),
    }
}

// One unit of the guest from this state at this host clock, with the interval timer's request or without; where the timer's word is shut,
// one that would complete is told and not done.
pub fn unit(
    storage: &mut [u8],
    keys: &mut [u8],
    designation: u32,
    guest: Guest,
    clock: u64,
    requested: bool,
    shut: bool,
    cpu: Cpu,
) -> Done
    requires { Entered guest × (frames_of storage.old ≤ length keys.old) }
    ensures { Comes shut (host designation storage.old keys.old) guest cpu
        (unit guest clock requested (view guest (host designation storage.old keys.old)) cpu) result storage.new keys.new }
{
    let before = cpu::before_unit(guest, clock, requested, cpu.psw, cpu.timer, cpu.control);
    unit_after(storage, keys, designation, guest, clock, shut, cpu, before)
}
