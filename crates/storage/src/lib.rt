// The host's side of an address: what its tables say of a host virtual address, entry by entry, and the host page behind a guest
// absolute one. Each contract equates with machine's Walk and Host; keys play no part.
#![tactic(auto)]

ghost use Rattle.std.specs.Prelude.{◌≡◌, cond, List, [], ℕ, ◌+◌, ◌≤◌, ◌<◌};
ghost use Rattle.machine.specs.Words.{word_at};
ghost use Rattle.machine.specs.Failures.{addressing, host_fault};
ghost use Rattle.machine.specs.Walk.{segment_index, page_index, page_malformed, walk_page};
ghost use Rattle.machine.specs.Host.{host, in_storage, host_page, backing};
ghost use Rattle.machine.specs.declared.Guest.{Guest};
ghost use Rattle.storage.specs.Steps.{segment_leads, inside, held_entry};
ghost use Rattle.storage.specs.Found.{stopped, leads_on, page_found, Serves};

use machine::{Failure, Page, Walk};

const SEGMENT_TRANSLATION: u64 = 0x10;

const PAGE_TRANSLATION: u64 = 0x11;

const TRANSLATION_SPECIFICATION: u64 = 0x12;

const ADDRESSING: u64 = 5;

// Numbers from here on say a fault.
const STOPPED: u64 = 4294967296;

// The word at a host absolute address; beyond the storage, another number.
pub fn word_or(storage: &[u8], at: u32, other: u32) -> u32
    ensures { result ≡ cond (inside storage.now at) (word_at storage.now at) other }
{
    if at as usize + 4 <= storage.len() {
        words::word_at(storage, at as usize)
    } else {
        other
    }
}

// A fault by the entry at a host absolute address: its code, or addressing where the entry lies beyond the storage.
fn stop_at(storage: &[u8], at: u32, code: u64) -> u64
    requires { code < 32 }
    ensures { result ≡ stopped (cond (inside storage.now at) code addressing) }
{
    STOPPED
        + if at as usize + 4 <= storage.len() {
            code
        } else {
            ADDRESSING
        }
}

// What the host segment entry at a host absolute address says, by a number that is its word where it lies in the storage. Whether it
// does is tested last, and the word is any number where it does not: the compiler then has one load for the word's four bytes.
fn segment_by_word(storage: &[u8], at: u32, word: u32) -> u64
    ensures { (a : ℕ) → segment_leads (host_fault a) (page_index a) (held_entry storage.now a at word) ≡ leads_on a result }
{
    if word / 32 % 2 == 1 {
        stop_at(storage, at, SEGMENT_TRANSLATION)
    } else if word / 2147483648 % 2 == 1 {
        stop_at(storage, at, TRANSLATION_SPECIFICATION)
    } else if at as usize + 4 <= storage.len() {
        word as u64
    } else {
        STOPPED + ADDRESSING
    }
}

// What is found of the host segment entry of an index.
fn segment_found(storage: &[u8], designation: u32, index: u32) -> u64
    ensures { Serves designation storage.now index result }
{
    if designation % 128 < index / 16 {
        return STOPPED + SEGMENT_TRANSLATION;
    }
    let at = designation / 4096 % 524288 * 4096 + index * 4;
    segment_by_word(storage, at, word_or(storage, at, index))
}

// What was found of a host segment entry, kept for the next address of the segment.
#[derive(Clone, Copy)]
pub struct Segment {
    pub index: u32,
    pub found: u64,
}

// No segment entry: no address of 32 bits has this index.
pub fn no_segment() -> Segment
    ensures { (designation : ℕ) (storage : List ℕ) → Serves designation storage result.index result.found }
{
    Segment {
        index: 4096,
        found: 0,
    }
}

// What is found of the host segment entry of a host virtual address: what was kept, where that is of its segment.
pub fn segment_for(storage: &[u8], designation: u32, kept: Segment, a: u32) -> Segment
    requires { Serves designation storage.now kept.index kept.found }
    ensures { (result.index ≡ segment_index a) × Serves designation storage.now result.index result.found }
{
    let index = a / 1048576;
    if index == kept.index {
        kept
    } else {
        Segment {
            index,
            found: segment_found(storage, designation, index),
        }
    }
}

// One of the bits of a page entry that must be zero is one.
pub fn page_malformed(word: u32) -> bool
    ensures { result ≡ page_malformed word }
{
    word / 2147483648 % 2 == 1 || word / 2048 % 2 == 1 || word / 256 % 2 == 1
}

// What the host page entry at a host absolute address says, by a number as in segment_by_word.
fn page_by_word(storage: &[u8], at: u32, word: u32) -> u64
    ensures { (a : ℕ) → in_storage storage.now a (walk_page (host_fault a) (held_entry storage.now a at word)) ≡ page_found a result }
{
    if word / 1024 % 2 == 1 {
        stop_at(storage, at, PAGE_TRANSLATION)
    } else if page_malformed(word) {
        stop_at(storage, at, TRANSLATION_SPECIFICATION)
    } else if at as usize + 4 <= storage.len()
        && ((word / 4096 % 524288) as usize) < storage.len() / 4096
    {
        word as u64
    } else {
        STOPPED + ADDRESSING
    }
}

// What is found of the host page entry of a host virtual address, by what was found of its segment entry.
pub fn page_for(storage: &[u8], found: u64, a: u32) -> u64
    ensures { (designation : ℕ) → Serves designation storage.now (segment_index a) found
        → host_page (host designation storage.now []) a ≡ page_found a result }
{
    if found >= STOPPED {
        return found;
    }
    let segment = found as u32;
    let index = a / 4096 % 256;
    if segment % 16 < index / 16 {
        return STOPPED + PAGE_TRANSLATION;
    }
    let at = segment / 64 % 33554432 * 64 + index * 4;
    page_by_word(storage, at, word_or(storage, at, a))
}

// The host page that was found for a host virtual address.
fn page_of_found(a: u32, found: u64) -> Walk
    ensures { result ≡ page_found a found }
{
    if found < STOPPED {
        Ok(Page {
            frame: (found / 4096 % 524288) as u32,
            protected: found / 512 % 2 == 1,
        })
    } else {
        Err(Failure {
            host: true,
            code: (found % STOPPED) as u32,
            address: a,
        })
    }
}

// The host page of a host virtual address.
fn host_page(storage: &[u8], designation: u32, a: u32) -> Walk
    ensures { result ≡ host_page (host designation storage.now []) a }
{
    let segment = segment_found(storage, designation, a / 1048576);
    page_of_found(a, page_for(storage, segment, a))
}

// The host page behind a guest absolute address, for every guest of this origin and extent.
pub fn backing(storage: &[u8], designation: u32, origin: u16, extent: u16, a: u32) -> Walk
    requires { origin + extent ≤ 32768 }
    ensures { (g : Guest) → g.origin ≡ origin → g.extent ≡ extent → result ≡ backing g (host designation storage.now []) a }
{
    let absolute = a as u64;
    let virtual_address = origin as u64 * 65536 + absolute;
    if absolute < extent as u64 * 65536 {
        host_page(storage, designation, virtual_address as u32)
    } else {
        Err(Failure {
            host: false,
            code: ADDRESSING as u32,
            address: 0,
        })
    }
}
