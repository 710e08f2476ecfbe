// What holds of all configurations and of all worlds: laws of the definitions, which are proved with
// these functions and cost nothing when they run.
ghost use Rattle.glk_arena.specs.Config.{IsOneFile, IsSomeConfig};
ghost use Rattle.glk_arena.specs.Waves.{IsOneLoad, IsSomeLoad, HasOwnPaths};

/// The lines of a configuration give a path one file, or none.
pub fn one_file()
    ensures { IsOneFile }
{}

/// Known files load to one list of packages, or have one first refusal, and not both.
pub fn one_load()
    ensures { IsOneLoad }
{}

/// A text lists the files of packages, or has a first bad line.
pub fn some_config()
    ensures { IsSomeConfig }
{}

/// Known files load to a list of packages, or have a first refusal: there are at most 65,536 packages,
/// and each wave has one at least.
pub fn some_load()
    ensures { IsSomeLoad }
{}

/// No two of the packages that known files load to have one path, and the first is the main file's.
pub fn own_paths()
    ensures { HasOwnPaths }
{}
