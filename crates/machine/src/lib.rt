// The types that the definition of document 01 and the code share. The definition itself is in specs/, and the theorems
// about it in proofs/. No code stands here.
#![tactic(auto)]

// Sixteen registers, moved together as one value.
#[derive(Clone, Copy)]
pub struct Registers {
    pub words: [u32; 16],
}

// The program status word: bits 0-31, bits 32-63, and whether it is read as System/370's, BC or EC, or as 370-XA's.
#[derive(Clone, Copy)]
pub struct Psw {
    pub left: u32,
    pub right: u32,
    pub system370: bool,
}

// The part of the guest's state that units change.
#[derive(Clone, Copy)]
pub struct Cpu {
    pub psw: Psw,
    pub timer: u64,
    pub control: Registers,
    pub general: Registers,
}

// The part of the guest's state that no unit changes. The prefix is the number of its 4 KiB block; svc holds the SVC flags
// and svc1 to svc3 the SVC numbers.
#[derive(Clone, Copy)]
pub struct Guest {
    pub version: u8,
    pub interventions: u8,
    pub mode: u8,
    pub interceptions: u8,
    pub lctl: u16,
    pub prefix: u32,
    pub origin: u16,
    pub extent: u16,
    pub comparator: u64,
    pub epoch: u64,
    pub svc: u8,
    pub svc1: u8,
    pub svc2: u8,
    pub svc3: u8,
}

// The numbers handed in beside the record, the storage and the keys.
#[derive(Clone, Copy)]
pub struct Numbers {
    pub designation: u32,
    pub clock: u64,
    pub time: u32,
    pub budget: u32,
}

// Why an access cannot be made: a program exception of the guest, or a host fault. The code is the program code. The
// address is the host virtual address of a host fault, the virtual address of a guest segment or page translation
// exception with its last 12 bits zero, and zero for every other guest exception.
#[derive(Clone, Copy, PartialEq, Eq)]
pub struct Failure {
    pub host: bool,
    pub code: u32,
    pub address: u32,
}

// The table whose entry was sought when a walk ended: the guest's or the host's, for a segment or for a page; none where an access
// fails by no entry.
#[derive(Clone, Copy, PartialEq, Eq)]
pub enum Stage {
    None,
    GuestSegment,
    GuestPage,
    HostSegment,
    HostPage,
}

// Which table was bad: the stage, and the address of the entry, guest real or host absolute; zero where that entry was not read.
#[derive(Clone, Copy)]
pub struct Sought {
    pub stage: Stage,
    pub entry: u32,
}

// A page that a walk finds: its frame, and whether it is protected.
#[derive(Clone, Copy, PartialEq, Eq)]
pub struct Page {
    pub frame: u32,
    pub protected: bool,
}

// A table entry, or why it cannot be read.
pub type TableEntry = Result<u32, Failure>;

// What a walk of a segment and a page table finds.
pub type Walk = Result<Page, Failure>;

// An instruction's length code, and its halfwords as far as they are fetched, the others zero.
#[derive(Clone, Copy)]
pub struct Text {
    pub ilc: u8,
    pub first: u16,
    pub second: u16,
    pub third: u16,
}

// The class of an opcode: the instruction of document 01's list, by its mnemonic; one of mandatory interception; or none.
#[derive(Clone, Copy, PartialEq, Eq)]
pub enum Class {
    Lr,
    Ar,
    Sr,
    Bcr,
    Svc,
    La,
    Bc,
    St,
    L,
    Lpsw,
    Stctl,
    Lctl,
    Stck,
    Spt,
    Stpt,
    Mandatory,
    Unassigned,
}

// What the table of opcodes says of a first halfword. The length is counted in halfwords; the operand's address is a multiple
// of the alignment.
#[derive(Clone, Copy)]
pub struct Opcode {
    pub length: u8,
    pub privileged: bool,
    pub alignment: u32,
    pub class: Class,
}

// Why a guest is intercepted.
#[derive(Clone, Copy)]
pub enum Reason {
    Instruction(Text),
    Program { code: u16, ilc: u8, address: u32 },
    ExternalRequest,
    External(u16),
    IoRequest,
    Wait,
    Validity,
    Stop,
    Operation(Text),
}

// How a run that is not refused ends.
#[derive(Clone, Copy)]
pub enum End {
    Intercepted(Reason),
    HostFault(Failure),
    BudgetUsed,
}

// Why an operation is refused, by the number that its answer gives. Malformed is a case file's.
#[derive(Clone, Copy, PartialEq, Eq)]
pub enum Refusal {
    WrongLength = 1,
    WrongVersion = 2,
    WrongStorage = 3,
    WrongKeys = 4,
    WrongBudget = 5,
    WrongTime = 6,
    ReservedUsed = 7,
    WrongAccess = 8,
    Malformed = 9,
    OutOfReach = 10,
    AlreadyValid = 11,
    NotValid = 12,
    FrameOutside = 13,
    Entangled = 14,
    ShortWorkspace = 15,
    WrongRange = 16,
}

// The answer of an operation: refused, or what it comes to.
pub type Answer<T> = Result<T, Refusal>;

// Whether an operation's input is refused.
pub type Verdict = Answer<()>;

// What check comes to.
#[derive(Clone, Copy, PartialEq, Eq)]
pub enum Checked {
    Good,
    Validity,
}

// What translate comes to: the host absolute address, code 32, or a guest program exception or host fault, with the table that was bad.
#[derive(Clone, Copy)]
pub enum Translated {
    Address(u32),
    Validity,
    Failed { failure: Failure, sought: Sought },
}

// What run comes to: its end, with the units completed.
#[derive(Clone, Copy)]
pub struct Stopped {
    pub end: End,
    pub units: u32,
}
