//! The core file of the signature that an accepted source file gives is verified with the same fuel; and laws of each
//! line that accepts a declaration.
pub mod lines;

ghost use Rattle.elim.specs.headline.verified_laws.Laws.{AcceptedIsVerified, CompiledIsVerified, CoreFileIsVerified, EachIsNamed, OutputVerifies, TextIsChecked};

/// Where no declaration of a source file is refused, each entry of the signature that they give is accepted by itself.
pub fn text_is_checked()
    ensures { TextIsChecked }
{}

/// The names of a core file are those of its entries after the prelude, in order.
pub fn each_is_named()
    ensures { EachIsNamed }
{}

/// A core file is verified line by line, where each of its entries is accepted by itself.
pub fn core_file_is_verified()
    ensures { CoreFileIsVerified }
{}

/// A core file of the signature that an accepted source file gives is verified with the same fuel.
pub fn accepted_is_verified()
    ensures { AcceptedIsVerified }
{}

/// So the output that is defined for `verify` on such a file has one line for each entry, and refuses nothing.
pub fn output_verifies()
    ensures { OutputVerifies }
{}

/// The output of `compile`, where no declaration is refused, is verified entry by entry with the same fuel.
pub fn compiled_is_verified()
    ensures { CompiledIsVerified }
{}
