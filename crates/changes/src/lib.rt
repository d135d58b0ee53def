// What a change of a page's entry comes to: the entry, the frame that the page names and the number of valid pages after it, and whether
// the page's state allows it. Each contract equates with desk's definition.
#![tactic(auto)]

ghost use Rattle.std.specs.Prelude.{◌≡◌, ℕ, List};
ghost use Rattle.machine.specs.Refusals.{frames_of, Verdict};
ghost use Rattle.refusals.specs.Parts.{first_refusal};
ghost use Rattle.desk.specs.Desk.{entry_after, number_after, state_verdict};
ghost use Rattle.changes.specs.Changing.{frame_after, FrameFits};

use desk::Change;
use machine::{Refusal, Verdict};

// A number past every frame.
const NO_FRAME: u32 = 0xFFFFFFFF;

// The bits of an entry that say that a page is not valid, and that it is protected.
const INVALID: u32 = 1 << 10;

const PROTECTED: u32 = 1 << 9;

// The frame that a page names after the change of its entry.
#[tactic(auto, unfolding(crate::specs::Changing::frame_after))]
pub fn frame_after(c: Change, entry: u32) -> u32
    ensures { result ≡ frame_after c entry }
{
    match c {
        Change::Add(frame) => frame,
        Change::Remove => NO_FRAME,
        Change::Protect => entry / 4096 % 524288,
    }
}

// The entry after the change.
#[tactic(auto, unfolding(desk::specs::Desk::entry_after))]
pub fn entry_after(c: Change, entry: u32) -> u32
    requires { FrameFits c }
    ensures { result ≡ entry_after c entry }
{
    match c {
        Change::Add(frame) => frame * 4096,
        Change::Remove => entry | INVALID,
        Change::Protect => entry | PROTECTED,
    }
}

// The number of valid pages after the change.
#[tactic(auto, unfolding(desk::specs::Desk::number_after))]
pub fn number_after(c: Change, number: u32) -> u32
    ensures { result ≡ number_after c number }
{
    match c {
        Change::Add(_) => number.wrapping_add(1),
        Change::Remove => number.wrapping_sub(1),
        Change::Protect => number,
    }
}

// Whether the state of the page allows the change, and the frame lies in the storage.
#[tactic(auto, unfolding(desk::specs::Desk::state_verdict, refusals::specs::Parts::first_refusal))]
pub fn state_verdict(c: Change, frames: usize, valid: bool) -> Verdict
    ensures { (s : List ℕ) (later : Verdict) → frames_of s ≡ frames → state_verdict c s valid later ≡ first_refusal result later }
{
    match c {
        Change::Add(_) if valid => Err(Refusal::AlreadyValid),
        Change::Add(frame) if frame as usize >= frames => Err(Refusal::FrameOutside),
        Change::Remove | Change::Protect if !valid => Err(Refusal::NotValid),
        _ => Ok(()),
    }
}
