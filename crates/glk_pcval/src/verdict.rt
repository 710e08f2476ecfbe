// Whether bytes are a pc table.
ghost use Rattle.std.specs.Prelude.{◌≡◌, ◌↔◌, ◌<◌, ◌^◌, length, IfErr, OnOk, IsOk, None, Some};
ghost use Rattle.glk_pcval.specs.Table.{fault, IsTable};

use crate::step::{Next, START, after, next_step};
use thiserror::Error;

/// Bytes that are no pc table. `offset` is that of the first varint that breaks a rule, else that
/// of the first byte after the end, or, where the end is missing, the number of bytes.
#[derive(Clone, Copy, Debug, PartialEq, Eq, Error)]
#[error("not a pc table: wrong at byte {offset}")]
pub struct PcBad {
    pub offset: u32,
}

/// Whether the bytes are a pc table: none at all, or steps and an end that takes the last byte.
/// It takes no memory, and one pass.
///
/// # Errors
/// The one offset that says why not.
pub fn check(table: &[u8]) -> Result<(), PcBad>
    requires { length table.now < 2 ^ 32 }
    ensures accepts { IsOk result ↔ IsTable table.now }
    ensures whole { OnOk result (fault table.now ≡ None) }
    ensures offset { IfErr result (λ bad. fault table.now ≡ Some bad.offset) }
{
    if table.is_empty() {
        return Ok(());
    }
    let mut at = 0;
    let mut from = START;
    loop {
        match next_step(from, after(table, at)) {
            Next::Broken { at: more } => return Err(PcBad {
                offset: (at + more) as u32,
            }),
            Next::Stop { size } => {
                if table.len() - at == size {
                    return Ok(());
                }
                return Err(PcBad {
                    offset: (at + size) as u32,
                });
            }
            Next::Range { state, size } => {
                from = state;
                at += size;
            }
        }
    }
}
