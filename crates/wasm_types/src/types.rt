//! Types (Core 1.0, section 2.3).

ghost use Rattle.std.specs.Prelude.{◌≡◌, ◌↔◌, IsTrue};
ghost use Rattle.wasm_types.specs.View.{signature_of};

/// The type of a value. The floating-point types are left out.
#[derive(Clone, Copy, Debug, PartialEq, Eq)]
pub enum ValType {
    I32,
    I64,
}

/// The type of a function: its parameters, the first one first, and at most one result.
#[derive(Debug, Drop)]
pub struct FuncType {
    pub params: Vec<ValType>,
    pub result: Option<ValType>,
}

fn same_types(a: &[ValType], b: &[ValType]) -> bool
    ensures { IsTrue result ↔ a.now ≡ b.now }
{
    if a.len() != b.len() {
        return false;
    }
    for i in 0..a.len() {
        if a[i] != b[i] {
            return false;
        }
    }
    true
}

impl FuncType {
    /// Whether the two have the same parameters and the same result.
    pub fn same(&self, other: &FuncType) -> bool
        ensures { IsTrue result ↔ signature_of self.now ≡ signature_of other.now }
    {
        self.result == other.result && same_types(&self.params, &other.params)
    }
}

/// The size of a memory in pages of 65,536 bytes, or of a table in elements: at first, and at most if that is declared.
#[derive(Clone, Copy, Debug, PartialEq, Eq)]
pub struct Limits {
    pub min: u32,
    pub max: Option<u32>,
}

/// The type of a global, and whether it can be written.
#[derive(Clone, Copy, Debug, PartialEq, Eq)]
pub struct GlobalType {
    pub value: ValType,
    pub mutable: bool,
}
