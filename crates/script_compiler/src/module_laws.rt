//! Laws of compiled scripts, each the contract of a function that does nothing.
ghost use Rattle.std.specs.Prelude.{◌≡◌, ℕ, List};
ghost use Rattle.script_compiler.specs.Compiled.{IsCompiled};

/// A script has one module: whatever bytes it is compiled to, they are bytes of that module. So what runs of it do, and in how many steps, does not depend on
/// the call that compiled it.
pub fn scripts_have_one_module()
    ensures { (script a b : List ℕ) → (x : IsCompiled script a) → (y : IsCompiled script b)
        → x.whole ≡ y.whole }
{}
