// What holds of all files: laws of the definitions, which cost nothing when they run.
ghost use Rattle.glk_package.specs.Package.{IsOnePackage, IsSomePackage};
ghost use Rattle.glk_package.specs.NoMismatch.{HasNoMismatch};

/// By the same rules a file has one list of objects, or one first fault, and not both.
pub fn one_package()
    ensures { IsOnePackage }
{}

/// By all rules a file has a list of objects, or a first fault.
pub fn some_package()
    ensures { IsSomePackage }
{}

/// Where objects need have nothing in common, no file has the fault of another line.
pub fn no_mismatch()
    ensures { HasNoMismatch }
{}
