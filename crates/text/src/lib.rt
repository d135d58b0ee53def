// The fetch of an instruction's text: up to three halfwords, which stand on one page or two, the first of which is looked up in the
// table of opcodes. Each contract equates with machine's Units.
#![tactic(auto)]

ghost use Rattle.std.specs.Prelude.{◌≡◌, false, ℕ, ◌%◌, ◌+◌, ◌≤◌, ◌<◌, length};
ghost use Rattle.machine.specs.declared.Cpu.{Cpu};
ghost use Rattle.machine.specs.Refusals.{frames_of};
ghost use Rattle.machine.specs.Words.{half_at};
ghost use Rattle.machine.specs.Host.{host, view};
ghost use Rattle.machine.specs.Opcodes.{opcode_of};
ghost use Rattle.machine.specs.Units.{second_text, third_text, fetch_third, fetch_second, started, instruction};
ghost use Rattle.storage.specs.Entered.{Entered};
ghost use Rattle.address.specs.Touching.{seen};
ghost use Rattle.operands.specs.Operands.{operand_of, in_pieces};
ghost use Rattle.interruptions.specs.After.{WithKeys};
ghost use Rattle.text.specs.Fetching.{FetchedAs, Fetches, Usable, Halfword, one_frame, and_frame, EndsIn, cut_short, whole, unfetched};

use interruptions::{Frames, SPECIFICATION};
use machine::{Class, Failure, Guest, Opcode, Psw, Registers, Text};
use operands::Operand;
use pieces::Pieces;

// The text of an instruction as far as it is fetched, the frames it was fetched from, and why the next halfword was not, if it was not.
#[derive(Clone, Copy)]
pub struct Reading {
    pub failure: Option<Failure>,
    pub text: Text,
    pub frames: Frames,
}

// What is read of an instruction, and what the table of opcodes says of its first halfword.
#[derive(Clone, Copy)]
pub struct Fetched {
    pub opcode: Opcode,
    pub reading: Reading,
}

// What addressing looks at, beside the storage and the keys.
#[derive(Clone, Copy)]
struct Addressing {
    designation: u32,
    guest: Guest,
    psw: Psw,
    control: Registers,
}

// The whole text.
fn whole(text: Text, frames: Frames) -> Reading
    ensures { result ≡ whole text frames }
{
    Reading {
        failure: None,
        text,
        frames,
    }
}

// The text without its next halfword, which cannot be read.
fn cut_short(failure: Failure, text: Text, frames: Frames) -> Reading
    ensures { result ≡ cut_short failure text frames }
{
    Reading {
        failure: Some(failure),
        text,
        frames,
    }
}

// No halfword is fetched.
fn unfetched(f: Failure) -> Fetched
    ensures { result ≡ unfetched f }
{
    let opcode = Opcode {
        length: 1,
        privileged: false,
        alignment: 1,
        class: Class::Unassigned,
    };
    let text = Text {
        ilc: 1,
        first: 0,
        second: 0,
        third: 0,
    };
    Fetched {
        opcode,
        reading: cut_short(f, text, Frames::None),
    }
}

// The frame of a place on another page, after the first.
#[tactic(auto, unfolding(crate::specs::Fetching::and_frame))]
fn and_frame(frames: Frames, place: u32) -> Frames
    ensures { result ≡ and_frame frames place }
{
    match frames {
        Frames::None => Frames::One(place / 4096),
        Frames::One(first) | Frames::Two(first, _) => Frames::Two(first, place / 4096),
    }
}

// The text with its second halfword.
fn with_second(storage: &[u8], text: Text, place: u32) -> Text
    requires { place + 2 ≤ length storage.now }
    ensures { result ≡ second_text text (half_at storage.now place) }
{
    Text {
        second: words::half_at(storage, place as usize),
        third: 0,
        ..text
    }
}

// The text with its third halfword.
fn with_third(storage: &[u8], text: Text, place: u32) -> Text
    requires { place + 2 ≤ length storage.now }
    ensures { result ≡ third_text text (half_at storage.now place) }
{
    Text {
        third: words::half_at(storage, place as usize),
        ..text
    }
}

// Where the halfword at an even wrapped logical address stands, or why it cannot be read: it never goes over a page.
fn find_half(storage: &[u8], keys: &[u8], by: Addressing, at: u32) -> Operand
    requires { Entered by.guest × (frames_of storage.now ≤ length keys.now) × (at % 2 ≡ 0) }
    ensures { result ≡ operand_of by.guest (host by.designation storage.now keys.now) (seen by.psw by.control) false at 2 }
{
    let place = address::touch(
        storage,
        keys,
        by.designation,
        by.guest,
        by.psw,
        by.control,
        false,
        at,
    );
    operands::one_page(2, place)
}

// What follows the second halfword, which stands at place.
fn fetch_third(
    storage: &[u8],
    keys: &[u8],
    by: Addressing,
    text: Text,
    frames: Frames,
    at: u32,
    place: u32,
) -> Reading
    requires entered { Entered by.guest × (frames_of storage.now ≤ length keys.now) }
    requires with_keys { WithKeys keys.now frames × (text.ilc ≤ 3) × EndsIn frames at place }
    requires halfword { Halfword (host by.designation storage.now keys.now) by.guest (seen by.psw by.control) 1 at (in_pieces place 2 0) }
    ensures fetches { Fetches (host by.designation storage.now keys.now) by.guest by.psw by.control text frames fetch_third (opcode_of by.psw.system370 text.first) result }
    ensures usable { Usable keys.now result }
{
    if text.ilc < 3 {
        return whole(text, frames);
    }
    if at % 4096 < 4094 {
        return whole(with_third(storage, text, place + 2), frames);
    }
    let next = address::wrapped(by.psw, at + 2);
    match find_half(storage, keys, by, next) {
        Err(failure) => cut_short(failure, text, frames),
        Ok(Pieces { first: place, .. }) => {
            whole(with_third(storage, text, place), and_frame(frames, place))
        }
    }
}

// What follows the first halfword, which stands at place.
fn fetch_second(
    storage: &[u8],
    keys: &[u8],
    by: Addressing,
    text: Text,
    at: u32,
    place: u32,
) -> Reading
    requires entered { Entered by.guest × (frames_of storage.now ≤ length keys.now) × (text.ilc ≤ 3) }
    requires halfword { Halfword (host by.designation storage.now keys.now) by.guest (seen by.psw by.control) 0 at (in_pieces place 2 0) }
    ensures fetches { Fetches (host by.designation storage.now keys.now) by.guest by.psw by.control text (one_frame place) fetch_second (opcode_of by.psw.system370 text.first) result }
    ensures usable { Usable keys.now result }
{
    let frames = Frames::One(place / 4096);
    if text.ilc < 2 {
        return whole(text, frames);
    }
    if at % 4096 < 4094 {
        let more = with_second(storage, text, place + 2);
        return fetch_third(storage, keys, by, more, frames, at + 2, place + 2);
    }
    let next = address::wrapped(by.psw, at + 2);
    match find_half(storage, keys, by, next) {
        Err(f) => cut_short(f, text, frames),
        Ok(Pieces { first: place, .. }) => {
            let more = with_second(storage, text, place);
            fetch_third(
                storage,
                keys,
                by,
                more,
                and_frame(frames, place),
                next,
                place,
            )
        }
    }
}

// The text of the instruction at the PSW's address: ILC is 1 at an odd address, and if the first halfword cannot be read.
pub fn fetch(
    storage: &[u8],
    keys: &[u8],
    designation: u32,
    guest: Guest,
    psw: Psw,
    control: Registers,
) -> Fetched
    requires { Entered guest × (frames_of storage.now ≤ length keys.now) }
    ensures fetched_as { (c : Cpu) (clock : ℕ) → c.psw ≡ psw → c.control ≡ control
        → FetchedAs (host designation storage.now keys.now) guest clock c
        (instruction (started guest clock (view guest (host designation storage.now keys.now)) c 1)) result.opcode result.reading }
    ensures usable { Usable keys.now result.reading × (0 < result.opcode.alignment) }
{
    let address = cpu::instruction_address(psw);
    if address % 2 == 1 {
        return unfetched(Failure {
            host: false,
            code: SPECIFICATION,
            address: 0,
        });
    }
    let by = Addressing {
        designation,
        guest,
        psw,
        control,
    };
    let at = address::wrapped(psw, address);
    match find_half(storage, keys, by, at) {
        Err(f) => unfetched(f),
        Ok(Pieces { first: place, .. }) => {
            let half = words::half_at(storage, place as usize);
            let opcode = decode::decode(by.psw.system370, half as u32);
            let text = Text {
                ilc: opcode.length,
                first: half,
                second: 0,
                third: 0,
            };
            let reading = fetch_second(storage, keys, by, text, at, place);
            Fetched { opcode, reading }
        }
    }
}
