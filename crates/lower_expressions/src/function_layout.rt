//! What the code of a function is emitted for.
ghost use Rattle.lower_expressions.specs.Fits.{LendersFit};

use lower_layout::Layout;
use lower_pieces::Bases;
use std::alloc::Global;

/// Where the things of the script stand, and where those of the function.
#[derive(Clone, Copy)]
pub struct FunctionLayout<'a> {
    pub alloc: Global,
    pub script: &'a Layout<'a>,
    pub bases: &'a Bases,
    ghost lent: { LendersFit script.now.program.now.lenders.items },
}
