// The methods of a type: the uncommon part, the entries, and the METHODOFF relocations that fill them.
ghost use Rattle.std.specs.Prelude.{◌≡◌, ◌+◌, ◌*◌, ◌<◌, ◌≤◌, ◌^◌, length, Some, None, IfOk, OnOk, IfErr};
ghost use Rattle.glk_types.specs.Abi.{abi_method};
ghost use Rattle.glk_types.specs.Faults.{fault_of, uncommon_fault, inside_fault, offsets_fault, methods_fault, other_from};
ghost use Rattle.glk_types.specs.Methods.{count_of, start_of, AreMethodsOf, AreInside};
ghost use Rattle.glk_types.specs.Rules.{HasHeader, HasUncommonInside};
ghost use Rattle.glk_types.specs.Types.{can_have_methods as can_have_methods_in, has_uncommon_inside as has_uncommon_inside_in, has_methods_inside as has_methods_inside_in, method_count as method_count_of, methods_offset as methods_offset_in, entry_offset, methodoff_field as methodoff_field_of, methodoff_offset as methodoff_offset_of};

use crate::abi::{
    KIND_INTERFACE, METHOD_BYTES, METHOD_IFN, METHOD_MTYP, METHOD_TFN, TYPE_TFLAG, UNCOMMON_BYTES,
    UNCOMMON_MCOUNT, UNCOMMON_MOFF,
};
use crate::entries::Methods;
use crate::header::{TypeBad, check_header, has_uncommon, kind_of, uncommon_offset};
use glk_base::{le16, le32};

impl Methods {
    /// The methods of the type with these data, whose METHODOFF relocations have these offsets, in
    /// their order. It looks at each offset once.
    ///
    /// # Errors
    /// Y1 at the data's length, Y3 at the flags, Y4 where the uncommon part starts, or Y5 at the first
    /// offset that is not that of the methods, else at the entry that lacks one.
    #[tactic(auto, unfolding(crate::specs::Faults::methods_fault))]
    pub fn read(bytes: &[u8], offsets: &[u32]) -> Result<Methods, TypeBad>
        requires { length bytes.now < 2 ^ 32 }
        ensures ok { IfOk result (λ methods. AreMethodsOf bytes.now methods) }
        ensures inside { IfOk result (λ methods. AreInside (length bytes.now) methods) }
        ensures offsets { OnOk result (length offsets.now ≡ 3 * method_count_of bytes.now) }
        ensures kept { OnOk result (methods_fault bytes.now offsets.now ≡ None) }
        ensures err { IfErr result (λ bad. methods_fault bytes.now offsets.now ≡ Some (fault_of bad)) }
    {
        check_header(bytes)?;
        check_uncommon(bytes)?;
        let methods = methods_inside(bytes)?;
        check_offsets(bytes, methods, offsets)?;
        Ok(methods)
    }

    /// How many methods there are.
    pub fn count(self) -> u32
        ensures { result ≡ count_of self }
    {
        u32::from(self.count)
    }

    /// The offset of entry `k`, which is inside the data.
    pub fn entry(self, k: u32) -> u32
        requires { k < count_of self }
        ensures value { result ≡ entry_offset (start_of self) k }
        ensures room { result + abi_method.bytes < 2 ^ 32 }
    {
        self.start as u32 + METHOD_BYTES * k
    }
}

// Whether the type may have methods.
fn can_have_methods(bytes: &[u8]) -> bool
    requires { HasHeader bytes.now }
    ensures { result ≡ can_have_methods_in bytes.now }
{
    kind_of(bytes) != KIND_INTERFACE && has_uncommon(bytes)
}

// Y3: whether the type may have methods.
#[tactic(auto, unfolding(crate::specs::Faults::uncommon_fault))]
fn check_uncommon(bytes: &[u8]) -> Result<(), TypeBad>
    requires { HasHeader bytes.now }
    ensures ok { OnOk result (uncommon_fault bytes.now ≡ None) }
    ensures err { IfErr result (λ bad. uncommon_fault bytes.now ≡ Some (fault_of bad)) }
{
    if !can_have_methods(bytes) {
        return Err(TypeBad {
            rule: 3,
            offset: TYPE_TFLAG,
        });
    }
    Ok(())
}

// How many methods there are.
#[tactic(auto, unfolding(crate::specs::Types::method_count))]
fn method_count(bytes: &[u8]) -> u16
    requires header { HasHeader bytes.now }
    requires inside { HasUncommonInside bytes.now }
    ensures { result ≡ method_count_of bytes.now }
{
    le16(bytes, (uncommon_offset(bytes) + UNCOMMON_MCOUNT) as usize).unwrap()
}

// Where the entries of the methods start.
#[tactic(auto, unfolding(crate::specs::Types::methods_offset))]
fn methods_offset(bytes: &[u8]) -> u64
    requires header { HasHeader bytes.now }
    requires inside { HasUncommonInside bytes.now }
    ensures value { result ≡ methods_offset_in bytes.now }
    ensures small { result < 2 ^ 33 }
{
    let uncommon = uncommon_offset(bytes);
    u64::from(uncommon) + u64::from(le32(bytes, (uncommon + UNCOMMON_MOFF) as usize).unwrap())
}

// Y4: the methods, which are inside the data.
#[tactic(auto, unfolding(crate::specs::Faults::inside_fault))]
fn methods_inside(bytes: &[u8]) -> Result<Methods, TypeBad>
    requires header { HasHeader bytes.now }
    requires small { length bytes.now < 2 ^ 32 }
    ensures ok { IfOk result (λ methods. AreMethodsOf bytes.now methods) }
    ensures inside { IfOk result (λ methods. AreInside (length bytes.now) methods) }
    ensures kept { OnOk result (inside_fault bytes.now ≡ None) }
    ensures err { IfErr result (λ bad. inside_fault bytes.now ≡ Some (fault_of bad)) }
{
    let uncommon = uncommon_offset(bytes);
    let outside = TypeBad {
        rule: 4,
        offset: uncommon,
    };
    if bytes.len() < (uncommon + UNCOMMON_BYTES) as usize {
        return Err(outside);
    }
    let count = method_count(bytes);
    let start = methods_offset(bytes);
    if count != 0 && start + u64::from(METHOD_BYTES) * u64::from(count) > bytes.len() as u64 {
        return Err(outside);
    }
    Ok(Methods { count, start })
}

// The fields of a method's entry that METHODOFF relocations fill, in their order.
fn methodoff_field(i: u32) -> u32
    requires { i < 3 }
    ensures value { result ≡ methodoff_field_of i }
    ensures small { result ≤ 12 }
{
    match i {
        0 => METHOD_MTYP,
        1 => METHOD_IFN,
        _ => METHOD_TFN,
    }
}

// The offset of METHODOFF number `j` of the methods.
#[tactic(auto, unfolding(crate::specs::Types::methodoff_offset))]
fn methodoff_offset(methods: Methods, j: u32) -> u32
    requires { j < 3 * count_of methods }
    ensures { result ≡ methodoff_offset_of (start_of methods) j }
{
    methods.entry(j / 3) + methodoff_field(j % 3)
}

// The first METHODOFF offset that is not that of the methods, else the entry that lacks one.
fn other_offset(methods: Methods, offsets: &[u32]) -> Option<u32>
    ensures { result ≡ other_from (start_of methods) (count_of methods) 0 offsets.now }
{
    let wanted = 3 * methods.count();
    let mut rest = offsets;
    let mut j = 0;
    while let [offset, after @ ..] = rest {
        if j >= wanted || *offset != methodoff_offset(methods, j) {
            return Some(*offset);
        }
        rest = after;
        j += 1;
    }
    if j < wanted {
        return Some(methods.entry(j / 3));
    }
    None
}

// Y5: whether the METHODOFF offsets are those of the methods.
#[tactic(auto, unfolding(crate::specs::Faults::offsets_fault))]
fn check_offsets(bytes: &[u8], methods: Methods, offsets: &[u32]) -> Result<(), TypeBad>
    requires { AreMethodsOf bytes.now methods }
    ensures ok { OnOk result (offsets_fault bytes.now offsets.now ≡ None) }
    ensures count { OnOk result (length offsets.now ≡ 3 * count_of methods) }
    ensures err { IfErr result (λ bad. offsets_fault bytes.now offsets.now ≡ Some (fault_of bad)) }
{
    let _ = bytes;
    match other_offset(methods, offsets) {
        Some(offset) => Err(TypeBad { rule: 5, offset }),
        None => Ok(()),
    }
}

/// Where the entry of method `k` is in the type with these data, whose METHODOFF relocations have
/// these offsets, in their order. Each call looks at all the offsets: `Methods::read` is for more
/// than one entry.
///
/// # Errors
/// As `Methods::read`.
pub fn method_at(bytes: &[u8], triples: &[u32], k: u32) -> Result<u32, TypeBad>
    requires small { length bytes.now < 2 ^ 32 }
    requires index { 3 * k + 2 < length triples.now }
    ensures ok { IfOk result (λ at. at ≡ entry_offset (methods_offset_in bytes.now) k) }
    ensures inside { IfOk result (λ at. at + abi_method.bytes ≤ length bytes.now) }
    ensures index { OnOk result (k < method_count_of bytes.now) }
    ensures kept { OnOk result (methods_fault bytes.now triples.now ≡ None) }
    ensures err { IfErr result (λ bad. methods_fault bytes.now triples.now ≡ Some (fault_of bad)) }
{
    let methods = Methods::read(bytes, triples)?;
    Ok(methods.entry(k))
}
