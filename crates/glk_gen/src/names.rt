// Names of packages, files and symbols.
ghost use Rattle.std.specs.Prelude.{◌≡◌, ◌++◌, IfOk, OnOk};
ghost use Rattle.glk_gen.specs.Packages.{package_path, package_file, function_name};
ghost use Rattle.glk_gen.specs.Objects.{data_name};
ghost use Rattle.glk_gen.specs.Configs.{config_line};

use glk_base::{OutOfMemory, StrText, Text};
use std::alloc::Global;

/// How many names data without a package have.
pub(crate) const DATA_NAMES: u32 = 16;

/// The path of package `k`.
pub(crate) fn package_path(alloc: Global, k: u32) -> Result<Text, OutOfMemory>
    ensures { IfOk result (λ path. path ≡ package_path k) }
{
    Ok(Text::of(format!(in alloc; "p{k}")?.into_bytes()))
}

/// The path of its file.
pub(crate) fn package_file(alloc: Global, k: u32) -> Result<StrText, OutOfMemory>
    ensures { IfOk result (λ path. path ≡ package_file k) }
{
    Ok(StrText::of(format!(in alloc; "p{k}.a")?))
}

/// The name of function `i`, which is one of package `k`.
pub(crate) fn function_name(alloc: Global, k: u32, i: u32) -> Result<Text, OutOfMemory>
    ensures { IfOk result (λ name. name ≡ function_name k i) }
{
    Ok(Text::of(format!(in alloc; "p{k}.f{i}")?.into_bytes()))
}

/// The name of the data of package `k`.
pub(crate) fn data_name(alloc: Global, k: u32) -> Result<Text, OutOfMemory>
    ensures { IfOk result (λ name. name ≡ data_name k) }
{
    let number = k % DATA_NAMES;
    Ok(Text::of(format!(in alloc; "gen.d{number}")?.into_bytes()))
}

/// Adds the line of package `k` to an import configuration.
pub(crate) fn push_config_line(alloc: Global, out: &mut Vec<u8>, k: u32) -> Result<(), OutOfMemory>
    ensures { OnOk result (out.new.items ≡ out.old.items ++ config_line k) }
{
    let line = format!(in alloc; "packagefile p{k}=p{k}.a\n")?;
    out.extend_from_slice(line.as_bytes())?;
    Ok(())
}
