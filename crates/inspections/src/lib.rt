// The answers of check and translate packed into a number, and what stands at the caller's place after a translation. Each contract
// equates with specs/Inspecting.
#![tactic(auto)]

ghost use Rattle.std.specs.Prelude.{◌≡◌};
ghost use Rattle.inspections.specs.Inspecting.{packed_check, packed_failure, packed_translation, place_after};

use machine::{Answer, Checked, Failure, Sought, Translated};
use packing::Kind;

const VALIDITY: u32 = 32;

#[tactic(auto, unfolding(crate::specs::Inspecting::packed_check, packing::specs::Kinds::kind_number, machine::specs::Answers::reason_code))]
pub fn pack_check(x: Answer<Checked>) -> u64
    ensures { result ≡ packed_check x }
{
    match x {
        Err(why) => packing::pack_refusal(why),
        Ok(Checked::Good) => packing::pack(Kind::Good, 0),
        Ok(Checked::Validity) => packing::pack(Kind::Intercepted, VALIDITY),
    }
}

#[tactic(auto, unfolding(crate::specs::Inspecting::packed_failure, packing::specs::Kinds::kind_number, machine::specs::Answers::reason_code))]
fn pack_failure(f: Failure, s: Sought) -> u64
    ensures { result ≡ packed_failure f s }
{
    let kind = if f.host {
        Kind::HostFault
    } else {
        Kind::Exception
    };
    packing::pack_staged(kind, f.code, s.stage)
}

#[tactic(auto, unfolding(crate::specs::Inspecting::packed_translation, packing::specs::Kinds::kind_number, machine::specs::Answers::reason_code))]
pub fn pack_translation(x: Answer<Translated>) -> u64
    ensures { result ≡ packed_translation x }
{
    match x {
        Err(refusal) => packing::pack_refusal(refusal),
        Ok(Translated::Address(_)) => packing::pack(Kind::Good, 0),
        Ok(Translated::Validity) => packing::pack(Kind::Intercepted, VALIDITY),
        Ok(Translated::Failed { failure, sought }) => pack_failure(failure, sought),
    }
}

// What stands at the caller's place afterwards.
#[tactic(auto, unfolding(crate::specs::Inspecting::place_after, packing::specs::Kinds::kind_number, machine::specs::Answers::reason_code))]
pub fn place_after(x: Answer<Translated>, old: u64) -> u64
    ensures { result ≡ place_after x old }
{
    match x {
        Err(_) => old,
        Ok(Translated::Address(a)) => a as u64,
        Ok(Translated::Validity) => 0,
        Ok(Translated::Failed { failure, sought }) => {
            let address = if failure.host { failure.address } else { 0 };
            packing::placed(sought.entry, address)
        }
    }
}
