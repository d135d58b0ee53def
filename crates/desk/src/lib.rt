// The types that the definition of the page desk and its code share. The definition itself is in specs/, and the theorems about it
// in proofs/. No code stands here.
#![tactic(auto)]

// The change of one host page entry that a call asks for: a page with this frame is added, or a page is removed or protected.
#[derive(Clone, Copy, PartialEq, Eq)]
pub enum Change {
    Add(u32),
    Remove,
    Protect,
}

// What a call that adds, removes or protects a page comes to: code 32, or done.
#[derive(Clone, Copy, PartialEq, Eq)]
pub enum Called {
    Validity,
    Done,
}

// What a listing comes to: code 32, or the number of valid pages.
#[derive(Clone, Copy, PartialEq, Eq)]
pub enum Listed {
    Validity,
    Pages(u32),
}

// What the question for the first unbacked page comes to: code 32, none, or the page.
#[derive(Clone, Copy, PartialEq, Eq)]
pub enum Found {
    Validity,
    None,
    Page(u32),
}
