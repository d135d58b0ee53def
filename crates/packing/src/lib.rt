// An answer packed into a number, and what stands at the caller's place afterwards; the answers of run. Each contract equates with
// specs/Packing.
#![tactic(auto)]

ghost use Rattle.std.specs.Prelude.{◌≡◌, ◌+◌, ◌*◌, ◌%◌, ◌<◌};
ghost use Rattle.machine.specs.Answers.{refusal_number, reason_code, end_address, stage_number};
ghost use Rattle.machine.specs.Sought.{nowhere};
ghost use Rattle.packing.specs.Packing.{refused_kind, packed, packed_end, packed_answer, place_after_run};
ghost use Rattle.packing.specs.Kinds.{kind_number};

use machine::{Answer, End, Reason, Refusal, Sought, Stage, Stopped};

// What an answer is, by the number in its bits 0-7.
#[derive(Clone, Copy, PartialEq, Eq)]
pub enum Kind {
    Refused = 0,
    Intercepted = 1,
    HostFault = 2,
    BudgetUsed = 3,
    Exception = 4,
    Good = 5,
    None = 6,
}

// One in the places of kind, number and stage.
const KIND: u64 = 1 << 56;

const NUMBER: u64 = 1 << 48;

const STAGE: u64 = 1 << 40;

// An answer with its stage, without units.
pub fn pack_staged(kind: Kind, number: u32, stage: Stage) -> u64
    ensures { (result ≡ packed (kind_number kind) number (record { stage = stage; entry = 0 }) 0) × (result % 4294967296 ≡ 0) }
{
    kind as u64 * KIND + (number % 256) as u64 * NUMBER + stage as u64 * STAGE
}

// An answer that has no table, without units.
pub fn pack(kind: Kind, number: u32) -> u64
    ensures { result ≡ packed (kind_number kind) number nowhere 0 }
{
    pack_staged(kind, number, Stage::None)
}

// A refusal.
pub fn pack_refusal(refusal: Refusal) -> u64
    ensures { result ≡ packed refused_kind (refusal_number refusal) nowhere 0 }
{
    pack(Kind::Refused, refusal as u32)
}

// The address of a table entry and an address of the answer, as they stand at the caller's place.
pub fn placed(entry: u32, address: u32) -> u64
    ensures { result ≡ entry * 4294967296 + address }
{
    entry as u64 * 4294967296 + address as u64
}

// An interception code.
fn reason_code(reason: Reason) -> u32
    ensures { result ≡ reason_code reason }
{
    match reason {
        Reason::Instruction(_) => 4,
        Reason::Program { .. } => 8,
        Reason::ExternalRequest => 16,
        Reason::External(_) => 20,
        Reason::IoRequest => 24,
        Reason::Wait => 28,
        Reason::Validity => 32,
        Reason::Stop => 40,
        Reason::Operation(_) => 44,
    }
}

fn pack_end(end: End, s: Sought, units: u32) -> u64
    ensures { result ≡ packed_end end s units }
{
    let stage = s.stage;
    match end {
        End::Intercepted(reason) => {
            pack_staged(Kind::Intercepted, reason_code(reason), stage) + units as u64
        }
        End::HostFault(f) => pack_staged(Kind::HostFault, f.code, stage) + units as u64,
        End::BudgetUsed => pack_staged(Kind::BudgetUsed, 0, stage) + units as u64,
    }
}

pub fn pack_answer(x: Answer<Stopped>, s: Sought) -> u64
    ensures { result ≡ packed_answer x s }
{
    match x {
        Err(refusal) => pack_refusal(refusal),
        Ok(Stopped { end, units }) => pack_end(end, s, units),
    }
}

fn end_address(end: End) -> u32
    ensures { result ≡ end_address end }
{
    match end {
        End::HostFault(f) => f.address,
        End::Intercepted(_) | End::BudgetUsed => 0,
    }
}

// What stands at the caller's place after a run.
pub fn place_after_run(x: Answer<Stopped>, s: Sought, old: u64) -> u64
    ensures { result ≡ place_after_run x s old }
{
    match x {
        Err(_) => old,
        Ok(Stopped { end, .. }) => placed(s.entry, end_address(end)),
    }
}
