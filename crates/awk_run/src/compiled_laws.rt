//! Laws of what compiling answers, and of places that are counted.
ghost use Rattle.std.specs.Prelude.{◌≡◌, ◌⊎◌, ℕ, List, Ok, Some, slice_get};
ghost use Rattle.awk_grammar.specs.Trees.{Item};
ghost use Rattle.awk_parse.specs.Parsing.{IsParsed};
ghost use Rattle.run_modules.specs.SpotPlaces.{IsOfSpot};
ghost use Rattle.awk_tokens.specs.Cutting.{IsTokens, Spelled};
ghost use Rattle.run_report.specs.declared.compile_fault.CompileFault.{CompileFault};
ghost use Rattle.run_report.specs.declared.compile_fault.CompileFault.TheVariants.{NoMemory, TooLarge};
ghost use Rattle.script_compiler.specs.Compiled.{IsCompiled};
ghost use Rattle.script_compiler.specs.Refusals.{IsNotCompiled};
ghost use Rattle.script_places.specs.Passes.{nops_of};
ghost use Rattle.wasm_machine.specs.Places.{StandsAt};
ghost use Rattle.wasm_machine.specs.declared.places.Place.{Place};
ghost use Rattle.wasm_model.specs.Frames.{FrameForm};
ghost use Rattle.wasm_types.specs.ModuleGrammar.{IsModule};
ghost use Rattle.wasm_types.specs.Syntax.{FuncForm, ModuleForm};

/// What may be compiled may be refused for no cause but the limits of modules, and want of memory.
pub fn compiled_scripts_are_sound()
    ensures { (bytes compiled : List ℕ) (fault : CompileFault) → IsCompiled bytes compiled
        → IsNotCompiled bytes fault → (fault ≡ TooLarge) ⊎ (fault ≡ NoMemory) }
{}

/// Where the frame at work of a compiled script's module stands at a counted place, the code that comes next is that of the script's spot of this number, by
/// which `Passes` speaks of runs, and the line of the place is the spot's.
pub fn counted_places_are_of_spots()
    ensures { (bytes compiled : List ℕ) → IsCompiled bytes compiled
        → (tokens : List Spelled) (script : List Item) (whole : ModuleForm)
        → IsTokens bytes (Ok tokens) → IsParsed tokens script → IsModule compiled whole
        → (place : Place) (frame : FrameForm) (func : FuncForm) (k : ℕ)
        → StandsAt whole place (Some frame) → slice_get whole.funcs place.function ≡ Some func
        → slice_get (nops_of func) k ≡ Some place.at
        → IsOfSpot tokens script place.function k frame.code }
{}
