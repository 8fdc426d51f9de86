//! Where the locals of a function stand.
ghost use Rattle.std.specs.Prelude.{◌≡◌, ◌≤◌};
ghost use Rattle.lower_model.specs.Places.{Bases as PlainBases, answer_local, handle_local, number_local, iterator_local, array_local};
ghost use Rattle.lower_pieces.specs.Bounds.{most_places};

use std::marker::Model;

/// How many places a function has: its parameters, then its answer, then temporaries with a local of 32 bits and one of 64 each, then
/// iterators, then arrays that are made for calls.
#[derive(Drop)]
pub struct Bases {
    parameters: u32,
    temporaries: u32,
    iterators: u32,
    arrays: u32,
}

impl Model for Bases {
    ghost use Rattle.std.specs.Prelude.{◌≤◌};
    ghost use Rattle.lower_model.specs.Places.{Bases as PlainBases};
    ghost use Rattle.lower_pieces.specs.Bounds.{most_places};

    ghost Value = { PlainBases };

    ghost view = { λ bases. record { parameters = bases.parameters; temporaries = bases.temporaries; iterators = bases.iterators; arrays = bases.arrays } };

    ghost invariant = { λ bases. (bases.parameters ≤ most_places) × (bases.temporaries ≤ most_places)
        × (bases.iterators ≤ most_places) × (bases.arrays ≤ most_places) };
}

impl Bases {
    /// The places of a function with so many of each.
    pub fn new(parameters: u32, temporaries: u32, iterators: u32, arrays: u32) -> Self
        requires parameters { parameters ≤ most_places }
        requires temporaries { temporaries ≤ most_places }
        requires iterators { iterators ≤ most_places }
        requires arrays { arrays ≤ most_places }
        ensures { result ≡ record {
          parameters = parameters;
          temporaries = temporaries;
          iterators =
              iterators;
          arrays = arrays;
        } }
    {
        Bases {
            parameters,
            temporaries,
            iterators,
            arrays,
        }
    }

    /// How many temporaries there are.
    pub fn temporaries(&self) -> u32
        ensures count { result ≡ self.now.temporaries }
        ensures few { result ≤ most_places }
    {
        self.temporaries
    }

    /// How many iterators there are.
    pub fn iterators(&self) -> u32
        ensures count { result ≡ self.now.iterators }
        ensures few { result ≤ most_places }
    {
        self.iterators
    }

    /// How many arrays that are made for calls there are.
    pub fn arrays(&self) -> u32
        ensures count { result ≡ self.now.arrays }
        ensures few { result ≤ most_places }
    {
        self.arrays
    }

    /// The local of the function's answer.
    pub fn answer(&self) -> u32
        ensures { result ≡ answer_local self.now }
    {
        self.parameters
    }

    /// The local of a temporary's handle.
    pub fn handle(&self, temporary: u32) -> u32
        requires { temporary ≤ most_places }
        ensures { result ≡ handle_local self.now temporary }
    {
        self.parameters + 1 + (temporary + temporary)
    }

    /// The local of a temporary's number.
    pub fn number(&self, temporary: u32) -> u32
        requires { temporary ≤ most_places }
        ensures { result ≡ number_local self.now temporary }
    {
        self.parameters + 2 + (temporary + temporary)
    }

    /// The local of an iterator.
    pub fn iterator(&self, iterator: u32) -> u32
        requires { iterator ≤ most_places }
        ensures { result ≡ iterator_local self.now iterator }
    {
        self.parameters + 1 + (self.temporaries + self.temporaries) + iterator
    }

    /// The local of an array that is made for a call.
    pub fn array(&self, array: u32) -> u32
        requires { array ≤ most_places }
        ensures { result ≡ array_local self.now array }
    {
        self.parameters + 1 + (self.temporaries + self.temporaries) + self.iterators + array
    }
}
