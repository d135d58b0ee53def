// What follows a unit: how it ended, the state that it left, its charge, and the interval timer's update.
#![tactic(auto)]

ghost use Rattle.std.specs.Prelude.{◌≡◌, true, false, ◌&&◌, ◌≤◌, ◌<◌};
ghost use Rattle.machine.specs.Refusals.{most_time};
ghost use Rattle.machine.specs.Interval.{active, period, residue_after};
ghost use Rattle.machine.specs.Time.{charged};
ghost use Rattle.machine.specs.Record.{Sixteen, Bounded};
ghost use Rattle.storage.specs.Entered.{Entered};
ghost use Rattle.interruptions.specs.After.{set_by, left_by};
ghost use Rattle.charging.specs.Ending.{is_completed, end_of, of_mode};
ghost use Rattle.charging.specs.Ticking.{request_behind, DueFound, Reaches, is_shut, fault_end, Fallen};

use interruptions::{Done, Event};
use interval::Word;
use machine::{Cpu, End, Guest, Psw, Reason, Registers};

// The timer's word that falls at the end of a unit, if it does: where it stands, or why it cannot be stored into.
pub type Due = Option<Word>;

// The timer's request byte and its residue.
#[derive(Clone, Copy)]
pub struct Ticked {
    pub request: u8,
    pub residue: u32,
}

const INTERVAL: u16 = 0x0080;

// The unit completed.
#[tactic(auto, unfolding(crate::specs::Ending::is_completed))]
pub fn completed(event: Event) -> bool
    ensures { result ≡ is_completed event }
{
    matches!(event, Event::Completed)
}

// How an exit ends the run.
#[tactic(auto, unfolding(crate::specs::Ending::end_of))]
pub fn end_of(event: Event) -> End
    ensures { result ≡ end_of event }
{
    match event {
        Event::Completed => End::BudgetUsed,
        Event::Intercepted(reason) => End::Intercepted(reason),
        Event::Faulted(f) => End::HostFault(f),
    }
}

// The general registers with one of them set, or none.
#[tactic(auto, unfolding(interruptions::specs::After::set_by))]
fn general_after(general: Registers, set: Option<(u32, u32)>) -> Registers
    ensures { (result.words ≡ set_by set general.words) × Sixteen result.words }
{
    let mut after = general;
    match set {
        Some((register, value)) if register < 16 => after.words[register as usize] = value,
        _ => {}
    }
    after
}

// The state that a unit left. The PSW's architecture is that of the run.
pub fn state_after(cpu: Cpu, done: Done) -> Cpu
    ensures { (result ≡ of_mode cpu.psw.system370 (left_by cpu done)) × Bounded result }
{
    Cpu {
        psw: Psw {
            system370: cpu.psw.system370,
            ..done.psw
        },
        timer: done.timer,
        control: done.control,
        general: general_after(cpu.general, done.set),
    }
}

// The state of a completed unit, charged.
pub fn charged(cpu: Cpu, time: u32) -> Cpu
    ensures { (result ≡ charged cpu time) × Bounded result }
{
    Cpu {
        timer: clocks::timer_after(cpu.timer, time),
        ..cpu
    }
}

// The request byte behind a unit that no update of the timer follows: T is cleared by the exit that it makes.
#[tactic(auto, unfolding(crate::specs::Ticking::request_behind, machine::specs::Run::clears_t))]
fn request_behind(event: Event, request: u8) -> u8
    ensures { result ≡ request_behind event request }
{
    match event {
        Event::Intercepted(Reason::External(INTERVAL)) => interval::without_t(request),
        _ => request,
    }
}

// The same, where the timer is active.
pub fn behind_exit(timed: bool, event: Event, request: u8) -> u8
    ensures { timed ≡ true → result ≡ request_behind event request }
{
    if timed {
        request_behind(event, request)
    } else {
        request
    }
}

// What the word does at the end of the unit that begins here. The tables are looked at only where it falls.
#[tactic(auto, unfolding(crate::specs::Ticking::DueFound))]
pub fn find_due(
    storage: &[u8],
    designation: u32,
    guest: Guest,
    timed: bool,
    residue: u32,
    time: u32,
) -> Due
    requires { Entered guest × (timed ≡ active guest) }
    ensures { DueFound designation guest storage.now residue time result }
{
    if timed && interval::falls(residue, time) {
        Some(interval::find_word(storage, designation, guest))
    } else {
        None
    }
}

// The word that falls at the end of the unit cannot be stored into.
#[tactic(auto, unfolding(crate::specs::Ticking::is_shut))]
pub fn is_shut(due: Due) -> bool
    ensures { result ≡ is_shut due }
{
    matches!(due, Some(Err(_)))
}

// Such a unit would complete.
#[tactic(auto, unfolding(crate::specs::Ticking::is_shut))]
pub fn undone(due: Due, event: Event) -> bool
    ensures { result ≡ (is_shut due && is_completed event) }
{
    is_shut(due) && completed(event)
}

// How the run ends where it would.
#[tactic(auto, unfolding(crate::specs::Ticking::fault_end))]
pub fn fault_end(due: Due) -> End
    ensures { result ≡ fault_end due }
{
    match due {
        Some(Err(f)) => End::HostFault(f),
        _ => End::BudgetUsed,
    }
}

// The word falls where it is due, and the answer is the request byte behind that.
#[tactic(auto, unfolding(crate::specs::Ticking::Reaches, crate::specs::Ticking::Fallen))]
fn fallen(storage: &mut [u8], due: Due, request: u8) -> u8
    requires { Reaches storage.old due }
    ensures { Fallen due request storage.old result storage.new }
{
    match due {
        Some(Ok(at)) => {
            let word = interval::fall(storage, at);
            interval::request_after(request, word)
        }
        _ => request,
    }
}

// The timer's update behind a completed unit.
pub fn tick(
    storage: &mut [u8],
    timed: bool,
    due: Due,
    request: u8,
    residue: u32,
    time: u32,
) -> Ticked
    requires { (residue < period) × (time ≤ most_time) × Reaches storage.old due }
    ensures { (result.residue < period)
        × (timed ≡ true → Fallen due request storage.old result.request storage.new × (result.residue ≡ residue_after residue time))
        × (timed ≡ false → storage.new ≡ storage.old) }
{
    if timed {
        Ticked {
            request: fallen(storage, due, request),
            residue: interval::residue_after(residue, time),
        }
    } else {
        Ticked { request, residue }
    }
}
