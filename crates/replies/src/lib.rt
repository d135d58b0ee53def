// The answers of the page desk and to the question for the first unbacked page packed into a number, and what stands at the caller's
// place after the question. Each contract equates with specs/Replying.
#![tactic(auto)]

ghost use Rattle.std.specs.Prelude.{◌≡◌};
ghost use Rattle.replies.specs.Replying.{packed_call, packed_listing, packed_found, place_after_found};

use desk::{Called, Found, Listed};
use machine::{Answer, Stage};
use packing::Kind;

const VALIDITY: u32 = 32;

#[tactic(auto, unfolding(crate::specs::Replying::packed_call, packing::specs::Kinds::kind_number, machine::specs::Answers::reason_code))]
pub fn pack_call(x: Answer<Called>) -> u64
    ensures { result ≡ packed_call x }
{
    match x {
        Err(refusal) => packing::pack_refusal(refusal),
        Ok(Called::Validity) => packing::pack(Kind::Intercepted, VALIDITY),
        Ok(Called::Done) => packing::pack(Kind::Good, 0),
    }
}

#[tactic(auto, unfolding(crate::specs::Replying::packed_listing, packing::specs::Kinds::kind_number, machine::specs::Answers::reason_code))]
pub fn pack_listing(x: Answer<Listed>) -> u64
    ensures { result ≡ packed_listing x }
{
    match x {
        Err(refusal) => packing::pack_refusal(refusal),
        Ok(Listed::Validity) => packing::pack(Kind::Intercepted, VALIDITY),
        Ok(Listed::Pages(valid)) => {
            packing::pack_staged(Kind::Good, 0, Stage::None) + valid as u64
        }
    }
}

#[tactic(auto, unfolding(crate::specs::Replying::packed_found, packing::specs::Kinds::kind_number, machine::specs::Answers::reason_code))]
pub fn pack_found(x: Answer<Found>) -> u64
    ensures { result ≡ packed_found x }
{
    match x {
        Err(refusal) => packing::pack_refusal(refusal),
        Ok(Found::Validity) => packing::pack(Kind::Intercepted, VALIDITY),
        Ok(Found::None) => packing::pack(Kind::None, 0),
        Ok(Found::Page(_)) => packing::pack(Kind::Good, 0),
    }
}

// What stands at the caller's place after the question for the first unbacked page.
#[tactic(auto, unfolding(crate::specs::Replying::place_after_found, packing::specs::Kinds::kind_number, machine::specs::Answers::reason_code))]
pub fn place_after_found(x: Answer<Found>, old: u64) -> u64
    ensures { result ≡ place_after_found x old }
{
    match x {
        Err(_) => old,
        Ok(Found::Page(page)) => page as u64,
        Ok(Found::Validity | Found::None) => 0,
    }
}
