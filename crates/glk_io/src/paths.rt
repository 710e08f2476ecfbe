// Looking up a path in a list of files, and putting bytes at it.
ghost use Rattle.std.specs.Prelude.{◌≡◌, None, MatchOption, OnOk, OnErr};
ghost use Rattle.glk_io.specs.Contents.{file_in, Replaces};
ghost use Rattle.glk_io.specs.Paths.{FoundAt, IsOnce};

use glk_base::{OutOfMemory, StrText, Text};
use std::alloc::Global;

// The index of the path.
pub fn index_of(files: &[(StrText, Text)], path: &str) -> Option<usize>
    ensures { MatchOption result (file_in files.now path.now ≡ None) (FoundAt files.now path.now) }
{
    for (i, entry) in files.iter().enumerate() {
        if path == entry.0.as_str() {
            return Some(i);
        }
    }
    None
}

// Makes the bytes the file at the path: in place of the one that is there, else at the end.
pub fn put(
    alloc: Global,
    files: &mut Vec<(StrText, Text)>,
    path: &str,
    bytes: &[u8],
) -> Result<(), OutOfMemory>
    requires { IsOnce files.old.items }
    ensures ok { OnOk result (Replaces files.old.items files.new.items path.now bytes.now) }
    ensures err { OnErr result (files.new.items ≡ files.old.items) }
    ensures once { IsOnce files.new.items }
{
    let text = Text::new(alloc, bytes)?;
    match index_of(files, path) {
        Some(i) => files[i].1 = text,
        None => {
            let name = String::from_str(alloc, path)?;
            let entry = (StrText::of(name), text);
            files.push(entry)?;
        }
    }
    Ok(())
}
