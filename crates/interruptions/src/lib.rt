// How a unit ends and what it leaves, and interruptions put into effect.
#![tactic(auto)]

ghost use Rattle.std.specs.Prelude.{◌≡◌, ◌+◌, ◌*◌, ◌/◌, ◌%◌, ◌≤◌, ◌<◌, length};
ghost use Rattle.std.proofs.lemmas.List.Edits.{sets};
ghost use Rattle.machine.specs.Record.{psw_of, psw_bytes};
ghost use Rattle.machine.specs.Psw.{with_psw, with_timer, with_general, old_psw};
ghost use Rattle.machine.specs.Refusals.{frames_of};
ghost use Rattle.machine.specs.Host.{host, referenced, changed};
ghost use Rattle.machine.specs.Interruptions.{fields_beside};
ghost use Rattle.marks.specs.Marks.{mark_frame};
ghost use Rattle.interruptions.specs.After.{WithKeys, mark_text, left_by, Before, ilc_of, code_of, fields_of, InPrefixPage, with_registers, event_by, cpu_by, Takes};
ghost use Rattle.storage.specs.Entered.{Entered};

use machine::{Cpu, Failure, Guest, Page, Psw, Reason, Registers};
use marks::Mark;

// How a unit ends.
#[derive(Clone, Copy)]
pub enum Event {
    Completed,
    Intercepted(Reason),
    Faulted(Failure),
}

// What a unit leaves: how it ended, and the state, in which one general register may have a new value.
#[derive(Clone, Copy)]
pub struct Done {
    pub event: Event,
    pub psw: Psw,
    pub timer: u64,
    pub control: Registers,
    pub set: Option<(u32, u32)>,
}

// The frames that an instruction's text was fetched from.
#[derive(Clone, Copy)]
pub enum Frames {
    None,
    One(u32),
    Two(u32, u32),
}

// An interruption: the real addresses of the old PSW, of the code fields and of the new PSW; the code's word, with the ILC in bits
// 13-14 and the code in bits 16-31; and the address that is stored behind it, if any.
#[derive(Clone, Copy)]
pub struct Interruption {
    pub old: u32,
    pub code: u32,
    pub new: u32,
    pub word: u32,
    pub address: Option<u32>,
}

// How an interruption comes out: the new PSW, or its areas cannot be stored into.
pub type Took = Result<Psw, Failure>;

// Codes of program interruptions.

pub const OPERATION: u32 = 1;

pub const PRIVILEGED_OPERATION: u32 = 2;

pub const PROTECTION: u32 = 4;

pub const SPECIFICATION: u32 = 6;

pub const FIXED_POINT_OVERFLOW: u32 = 8;

pub const SEGMENT_TRANSLATION: u32 = 16;

pub const PAGE_TRANSLATION: u32 = 17;

const FRAME: usize = 4096;

// A host fault: the state is the one before the unit.
#[tactic(auto, unfolding(crate::specs::After::left_by))]
pub fn faulted(start: Psw, after: Done, f: Failure) -> Done
    ensures { (result.event ≡ Event.Faulted f) × ((c : Cpu) → Before c start after → left_by c result ≡ c) }
{
    Done {
        event: Event::Faulted(f),
        psw: start,
        set: None,
        ..after
    }
}

// The unit completed with this PSW.
#[tactic(auto, unfolding(crate::specs::After::left_by, machine::specs::Psw::with_psw))]
pub fn with_psw(cpu: Cpu, psw: Psw) -> Done
    ensures { (result.event ≡ Event.Completed) × (left_by cpu result ≡ with_psw cpu psw) × Before cpu cpu.psw result }
{
    Done {
        event: Event::Completed,
        psw,
        timer: cpu.timer,
        control: cpu.control,
        set: None,
    }
}

// The unit completed with this PSW and a value in general register i.
#[tactic(auto, unfolding(crate::specs::After::left_by, machine::specs::Psw::with_psw, machine::specs::Psw::with_general))]
pub fn with_general(cpu: Cpu, psw: Psw, i: u32, value: u32) -> Done
    ensures { (result.event ≡ Event.Completed) × (left_by cpu result ≡ with_psw (with_general cpu i value) psw) × Before cpu cpu.psw result }
{
    Done {
        set: Some((i, value)),
        ..with_psw(cpu, psw)
    }
}

// The unit completed with this PSW and this CPU timer.
#[tactic(auto, unfolding(crate::specs::After::left_by, machine::specs::Psw::with_psw, machine::specs::Psw::with_timer))]
pub fn with_timer(cpu: Cpu, psw: Psw, timer: u64) -> Done
    ensures { (result.event ≡ Event.Completed) × (left_by cpu result ≡ with_psw (with_timer cpu timer) psw) }
{
    Done {
        timer,
        ..with_psw(cpu, psw)
    }
}

// The unit completed with this PSW and these control registers.
#[tactic(auto, unfolding(crate::specs::After::left_by, machine::specs::Psw::with_psw))]
pub fn with_controls(cpu: Cpu, psw: Psw, control: Registers) -> Done
    ensures { (result.event ≡ Event.Completed) × (left_by cpu result ≡ with_psw (with_registers cpu control) psw) }
{
    Done {
        control,
        ..with_psw(cpu, psw)
    }
}

// Marks the frames of the text.
#[tactic(auto, unfolding(crate::specs::After::mark_text))]
pub fn mark_text(keys: &mut [u8], t: Frames)
    requires { WithKeys keys.old t }
    ensures { keys.new ≡ mark_text t keys.old }
{
    match t {
        Frames::None => {}
        Frames::One(first) => marks::mark_frame(keys, first, Mark::Referenced),
        Frames::Two(first, second) => {
            marks::mark_frame(keys, first, Mark::Referenced);
            marks::mark_frame(keys, second, Mark::Referenced);
        }
    }
}

// Stores an old PSW and the code fields of an interruption in the frame's part of storage. A BC PSW takes ILC and code up itself, and
// nothing is stored beside it.
fn put_areas(part: &mut [u8], psw: Psw, i: Interruption)
    requires in_bounds { InPrefixPage i × (4096 ≤ length part.old) }
    ensures { (c : Cpu) → c.psw ≡ psw → part.new ≡ sets (sets part.old i.old (psw_bytes (old_psw c (ilc_of i) (code_of i)))) i.code (fields_beside c (fields_of i)) }
{
    let old = i.old as usize;
    let code = i.code as usize;
    if cpu::basic_control(psw) {
        let coded = cpu::old_psw(psw, i.word / 131072 % 4, i.word % 65536);
        words::put_psw(part, old, coded);
        return;
    }
    words::put_psw(part, old, psw);
    words::put_word(part, code, i.word);
    if let Some(address) = i.address {
        words::put_word(part, code + 4, address);
    }
}

// Stores the areas of an interruption in a frame that may be stored into, with `psw` as the old one. The new PSW comes back.
fn interrupt_open(
    storage: &mut [u8],
    keys: &mut [u8],
    psw: Psw,
    i: Interruption,
    t: Frames,
    frame: u32,
) -> Psw
    requires with_keys { WithKeys keys.old t × (frame < length keys.old) }
    requires in_prefix_page { InPrefixPage i × (frame * 4096 + 4096 ≤ length storage.old) × (frame < 524288) }
    ensures value { result ≡ psw_of psw.system370 storage.old (frame * 4096 + i.new) }
    ensures storage_after { (c : Cpu) → c.psw ≡ psw → storage.new ≡ sets (sets storage.old (frame * 4096 + i.old) (psw_bytes (old_psw c (ilc_of i) (code_of i))))
        (frame * 4096 + i.code) (fields_beside c (fields_of i)) }
    ensures keys_after { keys.new ≡ mark_frame changed frame (mark_frame referenced frame (mark_text t keys.old)) }
{
    let base = frame as usize * FRAME;
    let new = words::psw_at(storage, base + i.new as usize, psw.system370);
    put_areas(&mut storage[base..base + FRAME], psw, i);
    mark_text(keys, t);
    marks::mark_areas(keys, frame);
    new
}

// An interruption: the areas of every class stand in the prefix page. `psw` becomes the old one.
pub fn take(
    storage: &mut [u8],
    keys: &mut [u8],
    designation: u32,
    guest: Guest,
    psw: Psw,
    i: Interruption,
    t: Frames,
) -> Took
    requires entered { Entered guest }
    requires with_keys { WithKeys keys.old t × (frames_of storage.old ≤ length keys.old) × InPrefixPage i }
    ensures { Takes (host designation storage.old keys.old) guest psw i t result storage.new keys.new }
{
    let absolute = guest.prefix * 4096 + i.old;
    let page = storage::backing(storage, designation, guest.origin, guest.extent, absolute);
    let Page { frame, protected } = page?;
    if protected {
        return Err(Failure {
            host: true,
            code: PROTECTION,
            address: guest.origin as u32 * 65536 + absolute,
        });
    }
    Ok(interrupt_open(storage, keys, psw, i, t, frame))
}

// The unit, ended by an interruption. `start` is the PSW before the unit; the PSW of `after` does not matter.
#[tactic(auto, unfolding(crate::specs::After::event_by, crate::specs::After::cpu_by, crate::specs::After::left_by, machine::specs::Psw::with_psw))]
pub fn interrupted(start: Psw, after: Done, took: Took) -> Done
    ensures { (result.event ≡ event_by took) × ((c : Cpu) → Before c start after → left_by c result ≡ cpu_by c (left_by c after) took) }
{
    match took {
        Err(f) => faulted(start, after, f),
        Ok(psw) => Done {
            event: Event::Completed,
            psw,
            ..after
        },
    }
}
