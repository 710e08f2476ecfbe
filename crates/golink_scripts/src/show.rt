// Bytes as a message shows them.
ghost use Rattle.std.specs.Prelude.{◌≡◌, OnOk};

use crate::stop::Stop;
use std::alloc::Global;

// How many bytes a message shows.
const SHOWN: usize = 48;

/// The first bytes of these: in quotes where they are printable, else in hexadecimal.
pub(crate) fn shown(alloc: Global, bytes: &[u8]) -> Result<String, Stop> {
    let prefix = bytes.get(..SHOWN).unwrap_or(bytes);
    let more = if prefix.len() < bytes.len() { ".." } else { "" };
    if bytes.is_empty() {
        return Ok(String::from_str(alloc, "nothing")?);
    }
    if let Some(text) = printable(alloc, prefix)? {
        return Ok(format!(in alloc; "'{text}'{more}")?);
    }
    let digits = hex::encode(alloc, prefix)?;
    Ok(format!(in alloc; "{digits}{more}")?)
}

// The text of these bytes as it is between quotes, where they are printable.
fn printable(alloc: Global, bytes: &[u8]) -> Result<Option<String>, Stop> {
    let mut text = String::new(alloc);
    for byte in bytes {
        match *byte {
            b'\n' => text.push_str("\\n")?,
            b'\\' => text.push_str("\\\\")?,
            b' '..=b'~' => text.push(char::from(*byte))?,
            _ => return Ok(None),
        }
    }
    Ok(Some(text))
}

/// Both are the same, or the message has the offset from which on they differ. The first byte of both
/// is at `start`.
pub(crate) fn same(alloc: Global, wanted: &[u8], found: &[u8], start: usize) -> Result<(), Stop>
    ensures { OnOk result (wanted.now ≡ found.now) }
{
    if wanted == found {
        return Ok(());
    }
    let mut equal = 0usize;
    for (want, have) in wanted.iter().zip(found.iter()) {
        if want != have {
            break;
        }
        equal = equal.saturating_add(1);
    }
    let want = shown(alloc, wanted.get(equal..).unwrap_or(wanted))?;
    let have = shown(alloc, found.get(equal..).unwrap_or(found))?;
    let at = start.saturating_add(equal);
    Err(Stop::Line(format!(in alloc; "from {at:#x} on: wanted {want}, found {have}")?))
}
