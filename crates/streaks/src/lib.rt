// Streaks: units on kept blocks, many at a time, and when to try one. A streak is as many units of the definition, each with its
// tick.
#![tactic(auto)]

ghost use Rattle.std.specs.Prelude.{◌≡◌, ◌≤◌, ◌<◌, length};
ghost use Rattle.machine.specs.Refusals.{most_time, frames_of};
ghost use Rattle.machine.specs.Interval.{active, period};
ghost use Rattle.machine.specs.Record.{system370_mode, Bounded};
ghost use Rattle.storage.specs.Entered.{Entered};
ghost use Rattle.charging.specs.Ending.{of_mode};
ghost use Rattle.streaks.specs.Streaking.{after_streak, unbegun, Paced};

use machine::{Cpu, Guest, Psw, Registers};
use special::Want;
use turns::{Next, Stand};

// What a streak leaves: the state, the host clock, the units completed, and the interval timer's residue.
#[derive(Clone, Copy)]
pub struct Streak {
    pub psw: Psw,
    pub timer: u64,
    pub clock: u64,
    pub control: Registers,
    pub general: Registers,
    pub units: u32,
    pub residue: u32,
}

// When to try a streak: how many units to do without one first, and how many that was before.
#[derive(Clone, Copy)]
pub struct Pace {
    pub wait: u32,
    pub pause: u32,
}

// The streak of no units.
fn none(start: Cpu, clock: u64, residue: u32) -> Streak
    ensures { result ≡ unbegun start clock residue }
{
    let psw = start.psw;
    let control = start.control;
    let general = start.general;
    Streak {
        psw,
        timer: start.timer,
        clock,
        control,
        general,
        units: 0,
        residue,
    }
}

// Units on kept blocks, as long as blocks can be kept and instructions done there, at most budget of them, and up to the first before
// which the list could come to anything but the instruction, or at whose end the interval timer's word falls. A turn is a lap, one unit
// that a lap does not do, or a block or the prefix page's place kept. The blocks are kept anew in each streak, so that what other units
// store cannot matter.
fn run_streak(
    storage: &mut [u8],
    keys: &[u8],
    designation: u32,
    guest: Guest,
    clock: u64,
    time: u32,
    budget: u32,
    start: Cpu,
    requested: bool,
    timed: bool,
    residue: u32,
) -> Streak
    requires { Entered guest × (frames_of storage.old ≤ length keys.now) × Bounded start × (start.psw.system370 ≡ system370_mode guest.mode)
        × (timed ≡ active guest) × (residue < period) × (time ≤ most_time) }
    ensures { (result.units ≤ budget) × Paced designation guest clock time budget start requested residue storage.old keys.now result storage.new }
{
    let mut control = start.control;
    let cr0 = control.words[0];
    let psw = start.psw;
    let rising = calm::rising(timed, residue, time, budget);
    let horizon = calm::horizon(guest, clock, requested, psw, start.timer, cr0, time, rising);
    if horizon == 0 {
        return none(start, clock, residue);
    }
    let text = cpu::wrapped(psw, cpu::instruction_address(psw) as u64);
    let mut kept = [pages::NO_BLOCK; 32];
    let mut guard = [0; 64];
    let mut general = start.general;
    let mut s = Stand {
        psw,
        timer: start.timer,
        clock,
        residue,
        units: 0,
        most: horizon,
        next: Next::Block {
            single: false,
            store: false,
            a: text,
        },
        area: area::NO_AREA,
        tries: 0,
    };
    while s.most > 0 {
        s = match s.next {
            Next::Other => break,
            Next::Lap => {
                let l = lap::units(storage, &mut general.words, &kept, s.psw, s.most);
                turns::lapped(timed, time, s, l)
            }
            Next::Area | Next::Block { .. } => keeping::keep_turn(
                storage,
                keys,
                &mut guard,
                &mut kept,
                &control.words,
                designation,
                guest,
                s,
            ),
            Next::Denied { store, a } => {
                let cr0 = control.words[0];
                let cr1 = control.words[1];
                let r = denials::unit(
                    storage,
                    keys,
                    &control.words,
                    &general.words,
                    &kept,
                    s.area,
                    designation,
                    guest,
                    s.psw,
                    s.timer,
                    store,
                    a,
                );
                turns::passed(
                    &mut guard,
                    &mut kept,
                    &control.words,
                    guest,
                    requested,
                    timed,
                    time,
                    budget,
                    cr0,
                    cr1,
                    s,
                    r,
                )
            }
            Next::Single => {
                let cr0 = control.words[0];
                let cr1 = control.words[1];
                let r = single::unit(
                    storage,
                    &mut control.words,
                    &general.words,
                    &kept,
                    s.area,
                    guest,
                    s.clock,
                    s.psw,
                    s.timer,
                );
                match r {
                    Err(Want::Lap) => {
                        let l = lap::units(storage, &mut general.words, &kept, s.psw, s.most);
                        turns::lapped(timed, time, s, l)
                    }
                    Err(Want::Tests) => {
                        let x = exceptions::tested(
                            storage,
                            &general.words,
                            &kept,
                            s.area,
                            guest,
                            s.psw,
                            s.timer,
                        );
                        turns::passed(
                            &mut guard,
                            &mut kept,
                            &control.words,
                            guest,
                            requested,
                            timed,
                            time,
                            budget,
                            cr0,
                            cr1,
                            s,
                            x,
                        )
                    }
                    _ => turns::passed(
                        &mut guard,
                        &mut kept,
                        &control.words,
                        guest,
                        requested,
                        timed,
                        time,
                        budget,
                        cr0,
                        cr1,
                        s,
                        r,
                    ),
                }
            }
        };
    }
    Streak {
        psw: s.psw,
        timer: s.timer,
        clock: s.clock,
        control,
        general,
        units: s.units,
        residue: s.residue,
    }
}

// The state after a streak. The PSW's architecture is that of the run.
pub fn after_streak(cpu: Cpu, streak: Streak) -> Cpu
    ensures { result ≡ of_mode cpu.psw.system370 (after_streak streak) }
{
    let psw = Psw {
        left: streak.psw.left,
        right: streak.psw.right,
        system370: cpu.psw.system370,
    };
    let control = streak.control;
    let general = streak.general;
    Cpu {
        psw,
        timer: streak.timer,
        control,
        general,
    }
}

// The pace after a streak of so many units: the pause grows with each streak that came to nothing, up to 63 units, so that a guest
// whose instructions are for unit alone pays little for the trying.
pub fn pace_after(pace: Pace, units: u32) -> Pace {
    if pace.wait > 0 {
        return Pace {
            wait: pace.wait - 1,
            pause: pace.pause,
        };
    }
    if units > 0 {
        return Pace { wait: 0, pause: 0 };
    }
    if pace.pause < 32 {
        let pause = pace.pause * 2 + 1;
        return Pace { wait: pause, pause };
    }
    Pace {
        wait: 63,
        pause: 63,
    }
}

// A streak, or none where there is a wait or no budget.
pub fn paced_streak(
    storage: &mut [u8],
    keys: &[u8],
    designation: u32,
    guest: Guest,
    clock: u64,
    time: u32,
    budget: u32,
    start: Cpu,
    requested: bool,
    timed: bool,
    residue: u32,
    wait: u32,
) -> Streak
    requires { Entered guest × (frames_of storage.old ≤ length keys.now) × Bounded start × (start.psw.system370 ≡ system370_mode guest.mode)
        × (timed ≡ active guest) × (residue < period) × (time ≤ most_time) }
    ensures { (result.units ≤ budget) × Paced designation guest clock time budget start requested residue storage.old keys.now result storage.new }
{
    if wait > 0 || budget == 0 {
        return none(start, clock, residue);
    }
    run_streak(
        storage,
        keys,
        designation,
        guest,
        clock,
        time,
        budget,
        start,
        requested,
        timed,
        residue,
    )
}
