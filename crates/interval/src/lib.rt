// The interval timer of a System/370 guest: its residue, its request T, and its word at guest real 80. Each contract equates with
// machine's Interval and Run.
#![tactic(auto)]

ghost use Rattle.std.specs.Prelude.{◌≡◌, ◌+◌, ◌*◌, ◌<◌, ◌≤◌, length};
ghost use Rattle.std.proofs.lemmas.List.Edits.{sets};
ghost use Rattle.machine.specs.Words.{word_at, word_bytes};
ghost use Rattle.machine.specs.Record.{guest_of};
ghost use Rattle.machine.specs.Interval.{active, period, falls, residue_after, word_after, turns_negative, pending, without_t, request_after};
ghost use Rattle.machine.specs.Refusals.{most_time};
ghost use Rattle.machine.specs.Run.{Machine};
ghost use Rattle.machine.specs.declared.Numbers.{Numbers};
ghost use Rattle.storage.specs.Entered.{Entered};
ghost use Rattle.interval.specs.Standing.{word_on, Short, Stands, InStorage};

use machine::{Failure, Guest, Page, Walk};

// Where the word stands, a host absolute address, or why it cannot be stored into.
pub type Word = Result<u32, Failure>;

const PERIOD: u64 = 40960000;

// By what the word falls.
const FALL: u32 = 256;

const PLACE: u32 = 80;

const PROTECTION: u32 = 4;

// The timer is active: a System/370 guest, and mode bit 7 is zero.
#[tactic(auto, unfolding(machine::specs::Interval::active))]
pub fn active(guest: Guest) -> bool
    ensures { result ≡ active guest }
{
    guest.mode / 4 % 4 == 1 && guest.mode % 2 != 1
}

// T is one.
pub fn pending(request: u8) -> bool
    ensures { result ≡ pending request }
{
    request / 128 % 2 == 1
}

// The request byte with T zero.
pub fn without_t(request: u8) -> u8
    ensures { result ≡ without_t request }
{
    request % 128
}

// A period is full after a unit of this time: the word falls.
#[tactic(auto, unfolding(machine::specs::Interval::falls))]
pub fn falls(residue: u32, time: u32) -> bool
    ensures { result ≡ falls residue time }
{
    PERIOD <= residue as u64 + 3 * time as u64
}

// The residue after a unit of this time.
#[tactic(auto, unfolding(machine::specs::Interval::residue_after, machine::specs::Interval::falls))]
pub fn residue_after(residue: u32, time: u32) -> u32
    requires { (residue < period) × (time ≤ most_time) }
    ensures { (result ≡ residue_after residue time) × (result < period) }
{
    let risen = residue as u64 + 3 * time as u64;
    if PERIOD <= risen {
        (risen - PERIOD) as u32
    } else {
        risen as u32
    }
}

// The word after a fall.
#[tactic(auto, unfolding(machine::specs::Interval::word_after))]
fn word_after(word: u32) -> u32
    ensures { result ≡ word_after word }
{
    word.wrapping_sub(FALL)
}

// The fall takes the signed word from nonnegative to negative.
#[tactic(auto, unfolding(machine::specs::Interval::turns_negative))]
fn turns_negative(word: u32) -> bool
    ensures { result ≡ turns_negative word }
{
    word / 2147483648 % 2 != 1 && word_after(word) / 2147483648 % 2 == 1
}

// The request byte after a fall of this word: T is set where the word turns negative.
#[tactic(auto, unfolding(machine::specs::Interval::request_after))]
pub fn request_after(request: u8, word: u32) -> u8
    ensures { result ≡ request_after request word }
{
    if turns_negative(word) && !pending(request) {
        request + 128
    } else {
        request
    }
}

// Where the word stands, by the host page behind it: its four bytes stand on the prefix page. Host page protection is not skipped.
fn word_in(guest: Guest, page: Walk) -> Word
    requires { Entered guest × Short page }
    ensures { result ≡ word_on guest page }
{
    let Page { frame, protected } = page?;
    if protected {
        return Err(Failure {
            host: true,
            code: PROTECTION,
            address: guest.origin as u32 * 65536 + (guest.prefix * 4096 + PLACE),
        });
    }
    Ok(frame * 4096 + PLACE)
}

// Where the word stands as a unit begins.
pub fn find_word(storage: &[u8], designation: u32, guest: Guest) -> Word
    requires { Entered guest }
    ensures stands { (n : Numbers) (m : Machine) → n.designation ≡ designation → m.storage ≡ storage.now → guest_of m.description ≡ guest → Stands n m result }
    ensures in_storage { InStorage storage.now result }
{
    let absolute = guest.prefix * 4096 + PLACE;
    let page = storage::backing(storage, designation, guest.origin, guest.extent, absolute);
    word_in(guest, page)
}

// The word falls, in its own part of storage; the answer is the word before.
pub fn fall(storage: &mut [u8], at: u32) -> u32
    requires { at + 4 ≤ length storage.old }
    ensures value { result ≡ word_at storage.old at }
    ensures storage_after { storage.new ≡ sets storage.old at (word_bytes (word_after (word_at storage.old at))) }
{
    let from = at as usize;
    let word = words::word_at(storage, from);
    writer::put_part(
        &mut storage[from..from + 4],
        &word_after(word).to_be_bytes(),
    );
    word
}
