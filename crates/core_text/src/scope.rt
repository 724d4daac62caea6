use core_sig::Signature;
use std::alloc::Global;

/// Where terms are read: the entries so far, and the name of the family that is being declared, or nothing.
#[derive(Clone, Copy)]
pub struct Scope<'a> {
    pub alloc: Global,
    pub sig: &'a Signature,
    pub own: &'a [u8],
}
