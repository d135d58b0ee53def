// The run of a guest: units one after the other, each with the interval timer's tick where the timer is active. State, host clock,
// units, the timer's request byte and its residue are in hand, and the record is out of the loop.
#![tactic(auto)]

ghost use Rattle.std.specs.Prelude.{◌≡◌, ◌&&◌, ℕ, ◌≤◌, ◌<◌, List, length};
ghost use Rattle.machine.specs.declared.Numbers.{Numbers};
ghost use Rattle.machine.specs.Refusals.{most_time, frames_of};
ghost use Rattle.machine.specs.Interval.{period, pending};
ghost use Rattle.machine.specs.Record.{system370_mode};
ghost use Rattle.storage.specs.Entered.{Entered};
ghost use Rattle.run.specs.Running.{Runs};

use machine::{Cpu, End, Guest};
use streaks::Pace;

// How a run ended, the state that it left, the units completed, and the timer's request byte and residue.
#[derive(Clone, Copy)]
pub struct Ended {
    pub end: End,
    pub cpu: Cpu,
    pub units: u32,
    pub request: u8,
    pub residue: u32,
}

// The interval timer, where it is active, requests an interruption.
fn requests(active: bool, request: u8) -> bool
    ensures { result ≡ (active && pending request) }
{
    active && interval::pending(request)
}

// At most budget units of a guest from a state, a host clock, and the timer's request byte and residue, which mean nothing where the
// timer is not active.
pub fn run(
    storage: &mut [u8],
    keys: &mut [u8],
    designation: u32,
    guest: Guest,
    clock: u64,
    time: u32,
    budget: u32,
    start: Cpu,
    request: u8,
    residue: u32,
) -> Ended
    requires entered { Entered guest × (frames_of storage.old ≤ length keys.old) × (start.psw.system370 ≡ system370_mode guest.mode) }
    requires time_le_most_time { (time ≤ most_time) × (residue < period) }
    ensures { (n : Numbers) (d : List ℕ) → n.designation ≡ designation → n.time ≡ time
        → Runs n d guest clock budget start request residue storage.old keys.old result storage.new keys.new }
{
    let active = interval::active(guest);
    let mut cpu = start;
    let mut now = clock;
    let mut units: u32 = 0;
    let mut asked = request;
    let mut rest = residue;
    let mut pace = Pace { wait: 0, pause: 0 };
    while units < budget {
        let requested = requests(active, asked);
        let streak = streaks::paced_streak(
            storage,
            keys,
            designation,
            guest,
            now,
            time,
            budget - units,
            cpu,
            requested,
            active,
            rest,
            pace.wait,
        );
        cpu = streaks::after_streak(cpu, streak);
        now = streak.clock;
        rest = streak.residue;
        units += streak.units;
        pace = streaks::pace_after(pace, streak.units);
        if units < budget {
            let step = ticking::unit(
                storage,
                keys,
                designation,
                guest,
                now,
                time,
                cpu,
                active,
                requested,
                asked,
                rest,
            );
            cpu = step.cpu;
            asked = step.request;
            rest = step.residue;
            if let Some(end) = step.end {
                return Ended {
                    end,
                    cpu,
                    units,
                    request: asked,
                    residue: rest,
                };
            }
            now = step.clock;
            units += 1;
        }
    }
    Ended {
        end: End::BudgetUsed,
        cpu,
        units,
        request: asked,
        residue: rest,
    }
}
