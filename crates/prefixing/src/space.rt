// The space of a guest that entry lets through. Its type stands by itself: the specs that cite it cannot be imported beside its facts.

ghost use Rattle.std.specs.Prelude.{◌+◌, ◌^◌, ◌≤◌};
ghost use Rattle.machine.specs.Sizes.{page_bytes};

// What addressing looks at: the guest's origin, extent and prefix in bytes, the PSW's left word as addressing looks at it, control
// registers 0 and 1, and the host's designation.
#[derive(Clone, Copy)]
pub struct Space {
    pub origin: u32,
    pub extent: u32,
    pub prefix: u32,
    pub left: u32,
    pub cr0: u32,
    pub cr1: u32,
    pub designation: u32,
    pub ghost below: { origin + extent ≤ 2 ^ 31 },
    pub ghost prefixed: { prefix + page_bytes ≤ extent },
}
