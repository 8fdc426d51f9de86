//! The names that a script announced, and the assignments of the command line that are to be made.
ghost use Rattle.std.specs.Prelude.{◌≡◌, [], ◌∷◌, ◌++◌, IfErr, IfOk, None, Ok, OnErr, OnOk, false, is_some, map};
ghost use Rattle.sem_primitives.specs.Assignments.{assigned_global, declared};
ghost use Rattle.sem_primitives.specs.SharedState.{Inner};
ghost use Rattle.host_bytes.specs.Outcomes.{IsStopOf};
ghost use Rattle.host_texts.specs.NameForms.{PendsBy, Takes, announced, left_of, pair_of, with_names, with_pending};

use awk_values::{Bytes, Fault, Stop, Value};
use indexmap::IndexMap;
use sem_primitives::NameKind;
use std::alloc::{AllocError, Global};
use std::hash::RandomState;

/// A name and a text for it, as it stands on the command line.
#[derive(Drop)]
pub struct NamedText {
    pub name: Bytes,
    pub text: Bytes,
}

/// The names of the script with what they are, where the number of a name is that of its entry; the assignments of the command line (`-v`) of which so
/// many are made; and the name and the value of the one that is to be made now.
#[derive(Drop)]
pub struct Names {
    pub names: IndexMap<Bytes, NameKind, RandomState>,
    pub assigns: Vec<NamedText>,
    pub made: usize,
    pub pending: Option<(u32, Value)>,
}

impl Names {
    /// No name, and these assignments. Names are hashed by the state; no answer depends on it. It takes no memory.
    pub fn at_start(alloc: Global, assigns: Vec<NamedText>, state: RandomState) -> Names
        ensures names { announced result ≡ [] }
        ensures assigns { left_of result ≡ map pair_of assigns.items }
        ensures pending { result.pending ≡ None }
    {
        Names {
            names: IndexMap::with_hasher(alloc, state),
            assigns,
            made: 0,
            pending: None,
        }
    }

    /// Whether an assignment is to be made by the script now.
    pub fn is_pending(&self) -> bool
        ensures { result ≡ is_some self.now.pending }
    {
        self.pending.is_some()
    }

    /// The number and the kind of a name.
    pub(crate) fn declared(&self, text: &Bytes) -> Option<(usize, NameKind)>
        ensures { result ≡ declared 0 text.now (announced self.now) }
    {
        match self.names.get_full(text) {
            Some((at, _, kind)) => Some((at, *kind)),
            None => None,
        }
    }

    /// Adds a name that is not there yet.
    pub(crate) fn add(&mut self, text: Bytes, kind: NameKind) -> Result<(), AllocError>
        requires { is_some (declared 0 text (announced self.old)) ≡ false }
        ensures { OnOk result ((inner : Inner) → with_names self.new inner ≡ record
            (with_names self.old inner) { names = announced self.old ++ (text, kind) ∷ [] }) }
    {
        self.names.insert(text, kind)?;
        Ok(())
    }

    /// Takes the next assignment, which counts as made from then on.
    pub(crate) fn take_next(&mut self) -> Result<Option<(Bytes, Bytes)>, AllocError>
        ensures { IfOk result (λ next. Takes self.old next self.new) }
    {
        let Some(pair) = self.assigns.get(self.made) else {
            return Ok(None);
        };
        let name = pair.name.clone()?;
        let text = pair.text.clone()?;
        self.made += 1;
        Ok(Some((name, text)))
    }

    /// An assignment to a name that is no special variable: of a scalar it is to be made by the script, of a name that the script does not have it is none.
    pub(crate) fn keep(&mut self, name: &Bytes, text: Bytes) -> Result<bool, Stop>
        ensures ok { IfOk result
            (λ kept. (inner : Inner) → assigned_global (declared 0 name.now (announced self.old))
            text (with_names self.old inner) ≡ Ok (with_names self.new inner, kept)) }
        ensures err { IfErr result (λ stop. (inner : Inner) → IsStopOf (assigned_global
            (declared 0 name.now (announced self.old)) text (with_names self.old inner)) stop) }
        ensures refused { OnErr result (self.new ≡ self.old) }
        ensures rest { self.new ≡ with_pending self.new.pending self.old }
        ensures pending { IfOk result (λ kept. PendsBy kept self.old self.new) }
    {
        match self.declared(name) {
            None => Ok(false),
            Some((_, NameKind::ArrayOrFunction)) => Err(Stop::Fault(Fault::BadAssignment)),
            Some((number, NameKind::Scalar)) => {
                let Ok(number) = u32::try_from(number) else {
                    return Err(Stop::NoMemory);
                };
                self.pending = Some((number, Value::StrNum(text)));
                Ok(true)
            }
        }
    }
}
