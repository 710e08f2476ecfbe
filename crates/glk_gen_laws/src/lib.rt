//! What holds of all worlds as a linker reads them: laws of the definitions, which are proved with these
//! functions and cost nothing when they run.
#![tactic(auto)]

ghost use Rattle.std.specs.Prelude.{◌≤◌};
ghost use Rattle.glk_base.specs.Limits.{function_limit};
ghost use Rattle.glk_gen_laws.specs.Listed.{ListsPackages};

/// The import configuration of a world of `n` functions has no bad line, and gives each package but
/// the main one its file.
pub fn lists_packages(n: u32)
    requires { n ≤ function_limit }
    ensures { ListsPackages n }
{
    let _ = n;
}
