// What the instructions share: exceptions put into effect, and operands that are reached.
#![tactic(auto)]

ghost use Rattle.std.specs.Prelude.{◌≡◌, ℕ, ◌≤◌, ◌<◌, ◌&&◌, eqb, length};
ghost use Rattle.machine.specs.Psw.{wrap, with_psw};
ghost use Rattle.machine.specs.Words.{bit};
ghost use Rattle.machine.specs.Refusals.{frames_of};
ghost use Rattle.machine.specs.Failures.{operation, is_translation};
ghost use Rattle.machine.specs.Host.{host};
ghost use Rattle.machine.specs.Outcomes.{Progress};
ghost use Rattle.machine.specs.Interruptions.{program_areas, program_fields, after_exception, exception};
ghost use Rattle.storage.specs.Entered.{Entered};
ghost use Rattle.operands.specs.Operands.{operand_of};
ghost use Rattle.interruptions.specs.After.{WithKeys, left_by, Before, Standing, Left, areas_of, ilc_of, code_of, fields_of, InPrefixPage};
ghost use Rattle.execute.specs.Reaching.{Ready, InReach, Reaches, Within, Does};

use interruptions::{
    Done, Event, Frames, Interruption, OPERATION, PAGE_TRANSLATION, SEGMENT_TRANSLATION,
};
use machine::{Cpu, Failure, Guest, Psw, Reason, Text};
use operands::Operand;
use pieces::Pieces;

// What an instruction reaches of an operand: where its bytes stand, or how the unit ended.
pub type Reached = Result<Pieces, Done>;

// A segment or page translation exception.
fn translation(code: u32) -> bool
    ensures { result ≡ is_translation code }
{
    code == SEGMENT_TRANSLATION || code == PAGE_TRANSLATION
}

// The PSW behind an exception: at the instruction after a translation exception or with ILC 0, otherwise past it.
pub fn after_exception(psw: Psw, ilc: u8, code: u32) -> Psw
    requires { ilc ≤ 3 }
    ensures { (x : Progress) (c : Cpu) (f : Failure) → x.text.ilc ≡ ilc → f.code ≡ code → c.psw ≡ psw → with_psw c result ≡ after_exception x c f }
{
    if translation(code) || ilc == 0 {
        psw
    } else {
        cpu::advanced(psw, ilc as u32)
    }
}

// An operation exception that the guest's controls intercept.
fn intercepts_operation(guest: Guest, code: u32) -> bool
    ensures { result ≡ (eqb code operation && bit 8 0 guest.interceptions) }
{
    code == OPERATION && guest.interceptions / 128 % 2 == 1
}

// The program interruption of an exception.
pub fn program_interruption(ilc: u8, f: Failure) -> Interruption
    requires { (ilc ≤ 3) × (f.code < 65536) }
    ensures { InPrefixPage result × (areas_of result ≡ program_areas) × ((x : Progress) → x.text.ilc ≡ ilc → fields_of result ≡ program_fields x f)
        × (ilc_of result ≡ ilc) × (code_of result ≡ f.code) }
{
    Interruption {
        old: 40,
        code: 140,
        new: 104,
        word: ilc as u32 * 131072 + f.code,
        address: if translation(f.code) {
            Some(f.address)
        } else {
            None
        },
    }
}

// A program exception or a host fault: a fault, an interception or a program interruption.
pub fn exception(
    storage: &mut [u8],
    keys: &mut [u8],
    designation: u32,
    guest: Guest,
    start: Psw,
    after: Done,
    text: Text,
    f: Failure,
    t: Frames,
) -> Done
    requires entered { Entered guest × WithKeys keys.old t × (frames_of storage.old ≤ length keys.old) }
    requires ilc_bound { (text.ilc ≤ 3) × (f.code < 65536) }
    ensures { (x : Progress) (clock : ℕ) (c : Cpu)
        → Standing (host designation storage.old keys.old) x guest clock c text t → Before c start after
        → Left (host designation storage.old keys.old) guest c (exception x (left_by c after) f) result
        storage.new keys.new }
{
    if f.host {
        return interruptions::faulted(start, after, f);
    }
    let psw = after_exception(after.psw, text.ilc, f.code);
    if intercepts_operation(guest, f.code) {
        return Done {
            event: Event::Intercepted(Reason::Operation(text)),
            psw,
            ..after
        };
    }
    if guest.interceptions / 64 % 2 == 1 {
        let reason = Reason::Program {
            code: f.code as u16,
            ilc: text.ilc,
            address: f.address,
        };
        return Done {
            event: Event::Intercepted(reason),
            psw,
            ..after
        };
    }
    let i = program_interruption(text.ilc, f);
    let took = interruptions::take(storage, keys, designation, guest, psw, i, t);
    interruptions::interrupted(start, after, took)
}

// An exception of the state that the unit began with.
pub fn excepted(
    storage: &mut [u8],
    keys: &mut [u8],
    designation: u32,
    guest: Guest,
    cpu: Cpu,
    text: Text,
    t: Frames,
    f: Failure,
) -> Done
    requires ready { Ready storage.old keys.old guest text t }
    requires code_bound { f.code < 65536 }
    ensures { (clock : ℕ) → Does (λ x. exception x x.cpu f) (host designation storage.old keys.old) guest clock cpu text t result storage.new keys.new }
{
    let done = interruptions::with_psw(cpu, cpu.psw);
    exception(storage, keys, designation, guest, cpu.psw, done, text, f, t)
}

// Where the operand of n bytes at a wrapped logical address of this CPU stands.
fn operand_of(
    storage: &[u8],
    keys: &[u8],
    designation: u32,
    guest: Guest,
    cpu: Cpu,
    store: bool,
    a: u32,
    n: u32,
) -> Operand
    requires entered { Entered guest × (frames_of storage.now ≤ length keys.now) }
    requires a_value { (wrap cpu a ≡ a) × (1 ≤ n) × (n ≤ 4096) }
    ensures value { result ≡ operand_of guest (host designation storage.now keys.now) cpu store a n }
    ensures in_reach { InReach storage.now keys.now n result }
{
    operands::find_operand(
        storage,
        keys,
        designation,
        guest,
        cpu.psw,
        cpu.control,
        store,
        a,
        n,
    )
}

// Reaches the operand of n bytes at a wrapped logical address: every access is known good before anything is stored or marked.
pub fn reach(
    storage: &mut [u8],
    keys: &mut [u8],
    designation: u32,
    guest: Guest,
    cpu: Cpu,
    text: Text,
    t: Frames,
    store: bool,
    a: u32,
    n: u32,
) -> Reached
    requires ready { Ready storage.old keys.old guest text t }
    requires a_value { (wrap cpu a ≡ a) × (1 ≤ n) × (n ≤ 4096) }
    ensures reaches { (x : Progress) (clock : ℕ) → Standing (host designation storage.old keys.old) x guest clock cpu text t
        → Reaches (host designation storage.old keys.old) guest x cpu t store n result storage.new keys.new
        (operand_of guest (host designation storage.old keys.old) cpu store a n) }
    ensures within { Within storage.new n result }
{
    match operand_of(storage, keys, designation, guest, cpu, store, a, n) {
        Err(f) => Err(excepted(storage, keys, designation, guest, cpu, text, t, f)),
        Ok(at) => {
            interruptions::mark_text(keys, t);
            marks::mark_operand(keys, n, at, store);
            Ok(at)
        }
    }
}
