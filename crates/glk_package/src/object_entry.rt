// The object that a member of a package file holds.
ghost use Rattle.std.specs.Prelude.{◌≡◌, ◌+◌, ◌≤◌, length, IfOk, OnOk, IfErr};
ghost use Rattle.std.specs.Option.{option_copied};
ghost use Rattle.glk_base.specs.Limits.{file_limit};
ghost use Rattle.glk_obj.specs.Object.{IsObject};
ghost use Rattle.glk_obj.specs.Views.{IsShapeOf};
ghost use Rattle.glk_obj.specs.Records.{hash_width};
ghost use Rattle.glk_package.specs.WidthRule.{width_view, FitsWidth};
ghost use Rattle.glk_package.specs.ObjectRules.{rules_view};
ghost use Rattle.glk_package.specs.Members.{IsObjectIn, IsObjectFault, IsBodyFault};
ghost use Rattle.glk_package.specs.Package.{OrOutOfMemory};

use crate::object_rules::{ObjectRules, WidthRule, fits_width, mismatch, other_line};
use crate::refusal::PackageBad;
use glk_ar::{MARK_RULE, PartBad, object_part};
use glk_base::{Fault, RuleFamily};
use glk_obj::{ObjBad, ObjShape, ObjView};
use std::alloc::Global;
use std::marker::Model;

/// An object of a package file, borrowed from it. It breaks no rule. Contracts see its member's
/// number and name, its line, its data, and their offset in the file.
#[derive(Drop)]
pub struct ObjectEntry<'a> {
    member: u32,
    name: Option<&'a [u8]>,
    line: &'a [u8],
    goobj: &'a [u8],
    at: u64,
    shape: ObjShape,
}

impl<'a> Model for ObjectEntry<'a> {
    ghost use Rattle.std.specs.Option.{option_copied};
    ghost use Rattle.glk_obj.specs.Views.{IsShapeOf};
    ghost use Rattle.glk_package.specs.ObjectEntry.{ObjectEntry};

    ghost Value = { ObjectEntry };

    ghost view = { λ o. record { member = o.member; name = option_copied o.name; line = o.line.now; goobj = o.goobj.now; at = o.at } };

    ghost invariant = { λ o. IsShapeOf o.goobj.now o.shape };
}

impl<'a> ObjectEntry<'a> {
    /// The number of its member, counted from 0 over all members of the file.
    pub fn member(&self) -> u32
        ensures { result ≡ self.now.member }
    {
        self.member
    }

    /// The name of its member, or nothing for a bare object.
    pub fn name(&self) -> Option<&'a [u8]>
        ensures { option_copied result ≡ self.now.name }
    {
        self.name
    }

    /// Its first line, without the newline.
    pub fn line(&self) -> &'a [u8]
        ensures { result.now ≡ self.now.line }
    {
        self.line
    }

    /// Its data, from the magic on.
    pub fn goobj(&self) -> &'a [u8]
        ensures { result.now ≡ self.now.goobj }
    {
        self.goobj
    }

    /// The offset of its data in the file.
    pub fn at(&self) -> u64
        ensures { result ≡ self.now.at }
    {
        self.at
    }

    /// The shape of its data, which makes views of them.
    pub fn shape(&self) -> ObjShape
        ensures { IsShapeOf self.now.goobj result }
    {
        self.shape
    }

    /// A view of its data, without another check.
    pub fn view(&self) -> ObjView<'a>
        ensures object { IsObject self.now.goobj }
        ensures value { result ≡ self.now.goobj }
    {
        self.shape.view(self.goobj)
    }
}

// The number of the rule that the long hashes of all objects of a link have one length.
const WIDTH_RULE: u8 = 17;

// Where the header of an object says where its long hashes begin.
const WIDTH_OFFSET: u64 = 60;

// The shape of an object whose long hashes have the length that is asked, or its first broken rule.
fn shape_of(widths: WidthRule, goobj: &[u8]) -> Result<ObjShape, ObjBad>
    ensures shape { IfOk result (λ shape. IsShapeOf goobj.now shape) }
    ensures fits { OnOk result (FitsWidth (width_view widths) (hash_width goobj.now)) }
    ensures err { IfErr result (λ bad. IsObjectFault (width_view widths) goobj.now bad.rule bad.offset) }
{
    match ObjShape::check(goobj) {
        Ok(shape) => {
            if fits_width(widths, shape.view(goobj).hash_width()) {
                return Ok(shape);
            }
            Err(ObjBad {
                rule: WIDTH_RULE,
                offset: WIDTH_OFFSET,
            })
        }
        Err(bad) => Err(bad),
    }
}

// The object in a body that is at this offset in the file, or the first fault of the body.
pub(crate) fn object_in<'a>(
    alloc: Global,
    rules: ObjectRules<'_>,
    member: u32,
    name: Option<&'a [u8]>,
    body: &'a [u8],
    at: u64,
) -> Result<ObjectEntry<'a>, Fault<PackageBad>>
    requires { at + length body.now ≤ file_limit }
    ensures ok { IfOk result
        (IsObjectIn (rules_view rules.entry) member at (option_copied name.entry) body.now) }
    ensures err { IfErr result (OrOutOfMemory (IsBodyFault (rules_view rules.entry) member at body.now)) }
{
    let part = match object_part(body) {
        Ok(part) => part,
        Err(PartBad::NotGo) => return Err(Fault::Bad(PackageBad::NotGo { member })),
        Err(PartBad::NoMark) => {
            return Err(Fault::Bad(PackageBad::Malformed {
                member,
                family: RuleFamily::Archive,
                rule: MARK_RULE,
                offset: at,
            }));
        }
    };
    if let Some(first) = mismatch(rules.headers, part.line) {
        return Err(Fault::Bad(other_line(alloc, member, first, part.line)?));
    }
    match shape_of(rules.widths, part.goobj) {
        Ok(shape) => Ok(ObjectEntry {
            member,
            name,
            line: part.line,
            goobj: part.goobj,
            at: at + part.at,
            shape,
        }),
        Err(bad) => Err(Fault::Bad(PackageBad::Malformed {
            member,
            family: RuleFamily::Object,
            rule: bad.rule,
            offset: bad.offset,
        })),
    }
}
