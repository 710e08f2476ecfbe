// Writes the archive with one object.
ghost use Rattle.std.specs.Prelude.{◌≡◌, ◌+◌, ◌<◌, ◌≤◌, ◌^◌, ◌++◌, length, OnOk, IfOk, IfErr, Err};
ghost use Rattle.glk_base.specs.declared.fault.Fault.TheVariants as fault;
ghost use Rattle.glk_ar.specs.Member.{name_width};
ghost use Rattle.glk_ar.specs.Written.{padded_field, header_with, body_with, archive_with, archive_length, IsReadBack, IsRefusalFor};
ghost use Rattle.glk_base.specs.Limits.{file_limit};

use crate::headers::{HEADER_END, HEADER_LENGTH, NAME_WIDTH, SIZE_WIDTH};
use crate::object_parts::MARK;
use crate::walk::MAGIC;
use glk_base::{FILE_LIMIT, Fault, OutOfMemory, TooBig};
use itoa::Buffer;
use std::alloc::Global;

// The name of the member, as Go's assembler and compiler give it.
const OBJECT_NAME: &[u8] = b"_go_.o";
// The line of the object in it.
const OBJECT_LINE: &[u8; 27] = b"go object linux amd64 mkobj";

// The widths of the fields between the name and the size.
const TIME_WIDTH: usize = 12;

const USER_WIDTH: usize = 6;

const GROUP_WIDTH: usize = 6;

const MODE_WIDTH: usize = 8;

// Writes a field: the text, and spaces after it.
fn push_field(out: &mut Vec<u8>, text: &[u8], width: usize) -> Result<(), OutOfMemory>
    requires fits { length text.now ≤ width }
    requires narrow { width ≤ name_width }
    ensures { OnOk result (out.new.items ≡ out.old.items ++ padded_field width text.now) }
{
    let end = out.len() + width;
    out.extend_from_slice(text)?;
    out.resize(end, b' ')?;
    Ok(())
}

// The number of bytes of the body of an object's member with these data.
fn body_size(goobj: &[u8]) -> usize
    ensures size { result ≡ length (body_with goobj.now) }
    ensures small { result < 2 ^ 63 + 30 }
{
    OBJECT_LINE.len() + MARK.len() + goobj.len()
}

// Writes the header of an object's member with a body of `size` bytes.
fn push_header(out: &mut Vec<u8>, size: u64) -> Result<(), OutOfMemory>
    requires { size < 10 ^ 10 }
    ensures { OnOk result (out.new.items ≡ out.old.items ++ header_with size) }
{
    push_field(out, OBJECT_NAME, NAME_WIDTH)?;
    push_field(out, b"0", TIME_WIDTH)?;
    push_field(out, b"0", USER_WIDTH)?;
    push_field(out, b"0", GROUP_WIDTH)?;
    push_field(out, b"644", MODE_WIDTH)?;
    let mut digits = Buffer::new();
    push_field(out, digits.format(size).as_bytes(), SIZE_WIDTH)?;
    out.extend_from_slice(HEADER_END)?;
    Ok(())
}

// Writes the body of an object's member with these data.
fn push_body(out: &mut Vec<u8>, goobj: &[u8]) -> Result<(), OutOfMemory>
    ensures { OnOk result (out.new.items ≡ out.old.items ++ body_with goobj.now) }
{
    out.extend_from_slice(OBJECT_LINE)?;
    out.extend_from_slice(MARK)?;
    out.extend_from_slice(goobj)?;
    Ok(())
}

// Writes the archive with these data; `length` is that of the archive.
fn write_archive(alloc: Global, goobj: &[u8], length: usize) -> Result<Vec<u8>, OutOfMemory>
    requires whole { length ≡ archive_length goobj.now }
    requires small { length ≤ file_limit }
    ensures { IfOk result (λ archive. archive.items ≡ archive_with goobj.now) }
{
    let mut archive = Vec::with_capacity(alloc, length)?;
    archive.extend_from_slice(MAGIC)?;
    push_header(&mut archive, body_size(goobj) as u64)?;
    push_body(&mut archive, goobj)?;
    archive.resize(length, b'\n')?;
    Ok(archive)
}

/// The archive with the single member `_go_.o`, whose object has these data and the line
/// `go object linux amd64 mkobj`.
///
/// # Errors
/// `TooBig`, with the length that the archive would have, exactly where that is more than
/// `FILE_LIMIT` bytes; else only out of memory.
pub fn one_member(alloc: Global, goobj: &[u8]) -> Result<Vec<u8>, Fault<TooBig>>
    ensures bytes { IfOk result (λ archive. archive.items ≡ archive_with goobj.now) }
    ensures small { OnOk result (archive_length goobj.now ≤ file_limit) }
    ensures length { IfOk result (λ archive. length archive.items ≡ archive_length goobj.now) }
    ensures err { IfErr result (IsRefusalFor (archive_length goobj.now)) }
    ensures too_big { file_limit < archive_length goobj.now
        → result ≡ Err (fault.Bad (record { number = archive_length goobj.now })) }
    ensures read_back { IfOk result (λ archive. IsReadBack goobj.now archive.items) }
{
    let size = body_size(goobj);
    let length = MAGIC.len() + HEADER_LENGTH + size + size % 2;
    if length as u64 > FILE_LIMIT {
        return Err(Fault::Bad(TooBig {
            number: length as u64,
        }));
    }
    Ok(write_archive(alloc, goobj, length)?)
}
