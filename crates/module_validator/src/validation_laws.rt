// Laws of the definitions.
ghost use Rattle.module_validator.specs.Forms.{AfterIsExact};

/// What the algorithm does to a stack of types is exactly what the typing allows.
pub fn after_is_exact()
    ensures { AfterIsExact }
{}
