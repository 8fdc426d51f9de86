//! The constants of the code of scripts have their widths, as a law.
//!
//! What limits the code of a script has, as the contract of a function that does nothing.
ghost use Rattle.std.specs.Prelude.{◌≡◌, ◌⊎◌, ℕ, List, length};
ghost use Rattle.mid_program.specs.Mid.{Program};
ghost use Rattle.mid_program.specs.Sorted.{IsSorted};
ghost use Rattle.wasm_types.specs.ModuleGrammar.{IsModule};
ghost use Rattle.lower_model.specs.Modules.{module_of};
ghost use Rattle.module_writer.specs.Size.{module_size};
ghost use Rattle.agreement.specs.Sizes.Past.{IsPast};

use crate::typed::typed;

/// The module of well-sorted code has bytes, as many as `module_size` counts, or else it has more than 16 MiB of them, a function with more than 50,000
/// locals, or one with more than 4,000 blocks in one another. So nothing else makes code too large: no constant, no index, no name.
pub fn code_has_bytes()
    ensures { (p : Program) → IsSorted p
        → ((bytes : List ℕ) × IsModule bytes (module_of p)
        × (length bytes ≡ module_size (module_of p))) ⊎ IsPast (module_of p) }
{
    typed();
}
