// One unit with the interval timer's tick, done in full: a step of the definition, from a state in hand.
#![tactic(auto)]

ghost use Rattle.std.specs.Prelude.{◌≡◌, ◌&&◌, ◌≤◌, ◌<◌, length};
ghost use Rattle.machine.specs.Refusals.{most_time, frames_of};
ghost use Rattle.machine.specs.Interval.{active, period, pending};
ghost use Rattle.machine.specs.Record.{system370_mode, Bounded};
ghost use Rattle.storage.specs.Entered.{Entered};
ghost use Rattle.ticking.specs.Ticking.{Steps};

use machine::{Cpu, End, Guest};

// What it comes to: how it ends the run, if it does not complete; the state, the host clock, and the timer's request byte and residue.
#[derive(Clone, Copy)]
pub struct Step {
    pub end: Option<End>,
    pub cpu: Cpu,
    pub clock: u64,
    pub request: u8,
    pub residue: u32,
}

// The unit of a guest from a state, a host clock, and the timer's request byte and residue, which mean nothing where the timer is not
// active; requested where the timer asks for its interruption.
pub fn unit(
    storage: &mut [u8],
    keys: &mut [u8],
    designation: u32,
    guest: Guest,
    clock: u64,
    time: u32,
    start: Cpu,
    timed: bool,
    requested: bool,
    request: u8,
    residue: u32,
) -> Step
    requires entered { Entered guest × (frames_of storage.old ≤ length keys.old) × Bounded start × (start.psw.system370 ≡ system370_mode guest.mode) }
    requires timed_value { (timed ≡ active guest) × (requested ≡ (active guest && pending request)) × (residue < period) × (time ≤ most_time) }
    ensures { Steps designation guest clock time start request residue storage.old keys.old result storage.new keys.new }
{
    let due = charging::find_due(storage, designation, guest, timed, residue, time);
    let shut = charging::is_shut(due);
    let done = unit::unit(
        storage,
        keys,
        designation,
        guest,
        clock,
        requested,
        shut,
        start,
    );
    let event = done.event;
    if charging::undone(due, event) {
        return Step {
            end: Some(charging::fault_end(due)),
            cpu: start,
            clock,
            request,
            residue,
        };
    }
    let left = charging::state_after(start, done);
    if charging::completed(event) {
        let ticked = charging::tick(storage, timed, due, request, residue, time);
        return Step {
            end: None,
            cpu: charging::charged(left, time),
            clock: clocks::clock_after(clock, time),
            request: ticked.request,
            residue: ticked.residue,
        };
    }
    Step {
        end: Some(charging::end_of(event)),
        cpu: left,
        clock,
        request: charging::behind_exit(timed, event, request),
        residue,
    }
}
