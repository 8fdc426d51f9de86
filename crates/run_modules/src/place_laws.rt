//! Laws of places that are told or counted.
ghost use Rattle.std.specs.Prelude.{◌≡◌, ℕ, List, None, Option, Some, slice_get};
ghost use Rattle.agreement.specs.Places.Statements.{starts_in};
ghost use Rattle.agreement.specs.Spots.InOrder.{spots_in};
ghost use Rattle.agreement.specs.Spots.Spots.{Home, StatementPath};
ghost use Rattle.awk_grammar.specs.Trees.{Item};
ghost use Rattle.awk_grammar.specs.TreeOf.{IsTreeOf};
ghost use Rattle.run_modules.specs.SpotPlaces.{HasSpotsLine, IsCountOfSpot};
ghost use Rattle.awk_tokens.specs.Cutting.{Spelled};
ghost use Rattle.awk_tree.specs.Lines.{line_of};
ghost use Rattle.run_report.specs.CountTexts.{at_line};
ghost use Rattle.run_report.specs.declared.counts.PlaceCount.{PlaceCount};
ghost use Rattle.script_places.specs.Passes.{AreFirsts, Moment, nops_of, places_counted};
ghost use Rattle.wasm_machine.specs.Amid.{Amid};
ghost use Rattle.wasm_machine.specs.Places.{HasStatement, StandsAt};
ghost use Rattle.wasm_machine.specs.declared.places.Place.{Place};
ghost use Rattle.wasm_model.specs.Frames.{FrameForm};
ghost use Rattle.wasm_model.specs.Machines.{ProgramForm};
ghost use Rattle.wasm_types.specs.Syntax.{FuncForm, Instructions, ModuleForm, Plain, Then};
ghost use Rattle.wasm_types.specs.declared.instr.Simple.TheVariants.{Nop};

/// Where the frame at work stands at the `nop` of a number in its function's flat code, the code that comes next is that of the function's place of this number. So a
/// step that is counted at a place passes it, in the sense of `Passes`.
pub fn counted_places_are_passed()
    ensures { (whole : ModuleForm) (place : Place) (frame : FrameForm) (func : FuncForm) (k : ℕ)
        → StandsAt whole place (Some frame) → slice_get whole.funcs place.function ≡ Some func
        → slice_get (nops_of func) k ≡ Some place.at
        → slice_get (starts_in func.body) k ≡ Some frame.code }
{}

/// The line of a place of a script's module is that of the script's spot of the same number, in the order of the code: a statement, or what it does by itself
/// beside it. A place without a spot has no line.
pub fn lines_are_of_spots()
    ensures line { (tokens : List Spelled) (script : List Item) → IsTreeOf tokens script
        → (function place : ℕ) (home : Home) (spot : StatementPath)
        → slice_get (spots_in script function) place ≡ Some (home, spot)
        → HasSpotsLine tokens script function place home spot }
    ensures none { (tokens : List Spelled) (script : List Item) (function place : ℕ)
        → slice_get (spots_in script function) place ≡ None
        → line_of tokens script function place ≡ None }
{}

/// What is told of a line (`lines` of `IsCounted`) is how often one place was passed: that of a spot of the script whose text begins on this line.
pub fn counts_are_of_spots()
    ensures { (tokens : List Spelled) (script : List Item) → IsTreeOf tokens script
        → (nops : List (List ℕ)) (moments : List Moment) (lines : List (Option PlaceCount))
        → AreFirsts tokens (places_counted script nops moments) lines
        → (n : ℕ) (first : PlaceCount) → at_line lines n ≡ Some first
        → IsCountOfSpot tokens script nops moments n first.count }
{}

/// Where the statement at work where a frame stands has the place of this number, the code of the function's place of this number begins with a `nop`, and the
/// frame's code is amid the code after it: no other statement began since, but in bodies that were left again.
pub fn told_places_are_at_work()
    ensures { (program : ProgramForm) (import : ℕ) (place : Place) (frame : FrameForm)
        (func : FuncForm) (number : ℕ) → StandsAt program.whole place (Some frame)
        → slice_get program.whole.funcs place.function ≡ Some func
        → HasStatement program import place (Some number)
        → (own : Instructions) × (slice_get (starts_in func.body) number ≡ Some (Then (Plain Nop) own))
        × Amid own frame.code }
{}
