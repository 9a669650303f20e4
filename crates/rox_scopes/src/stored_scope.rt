//! A scope as its table stores it, and the declarations of a tag as they are listed.

/// A stretch: the range `from..until` of the listed places.
#[derive(Clone, Copy)]
pub struct Stretch {
    pub from: u32,
    pub until: u32,
}

/// A scope that lists what two earlier scopes list: first `first`, then `rest`.
#[derive(Clone, Copy)]
pub struct Concat {
    pub first: u32,
    pub rest: u32,
    /// The number of places that it lists.
    pub count: u16,
    /// One more than the greater height of the two scopes. It is used to keep ropes low.
    pub height: u8,
}

/// A scope: what its elements list, in 16 bytes. Few places are a stretch, copied for each scope. Many are a rope of stretches.
/// Below an element that lists many, a scope joins own declarations and what is left of the rope of that element.
#[derive(Clone, Copy)]
pub enum Scope {
    /// A stretch of at most `FEW` places (see `prefix_set.rt`), in order.
    Few(Stretch),
    /// A stretch, in reverse order.
    Back(Stretch),
    Concat(Concat),
}

/// The declarations of a tag: the listed places from `from` on, and `xml` if the flag is true.
#[derive(Clone, Copy)]
pub struct OwnDeclarations {
    pub from: usize,
    pub xml: bool,
}
