// A type whose data hold the name of its method.
ghost use Rattle.std.specs.Prelude.{◌≡◌, ◌<◌, ◌^◌, length, map};
ghost use Rattle.glk_readings.specs.Sample.{sample_reloc as sample_reloc_of, sample_table};

use super::{
    MethodTriple, OffsetIndex, Relocation, Relocations, Symbols, TargetSymbol, method_triples,
    methodoff_offsets, type_string_read,
};
use std::test::Fail;

// One symbol, whatever the key: its data, and the offsets of its relocations.
#[derive(Drop)]
struct Sample {
    data: Vec<u8>,
    offsets: Vec<u32>,
    ghost short: { length data.items < 2 ^ 32 },
    ghost few: { length offsets.items < 2 ^ 32 },
}

impl Symbols for Sample {
    ghost table = { λ s. sample_table s.data.items s.offsets.items };

    fn is_defined(&self, _key: u32) -> bool {
        true
    }

    fn data(&self, _key: u32) -> &[u8] {
        self.data.as_slice()
    }

    fn reloc_count(&self, _key: u32) -> u32 {
        self.offsets.len() as u32
    }

    fn reloc(&self, _key: u32, i: u32) -> Relocation {
        sample_reloc(self.offsets[i as usize])
    }

    #[tactic(auto, unfolding(crate::specs::References::reference_at))]
    fn reloc_at(&self, _key: u32, offset: u32) -> Option<Relocation> {
        self.offsets
            .as_slice()
            .iter()
            .map(|at| sample_reloc(*at))
            .find(|reloc| reloc.offset == offset && reloc.target.is_some())
    }
}

impl Relocations for Sample {
    ghost list = { λ s. map sample_reloc_of s.offsets.items };

    fn count(&self) -> u32 {
        self.offsets.len() as u32
    }

    fn reloc(&self, i: u32) -> Relocation {
        sample_reloc(self.offsets[i as usize])
    }
}

// The relocation at this offset: to the symbol's own name in its first bytes, else a METHODOFF.
#[tactic(auto, unfolding(crate::specs::Sample::sample_reloc))]
fn sample_reloc(offset: u32) -> Relocation
    ensures { result ≡ sample_reloc_of offset }
{
    if offset < 68 {
        return Relocation {
            offset,
            addend: 80,
            target: Some(TargetSymbol::Key(0)),
            is_methodoff: false,
        };
    }
    Relocation {
        offset,
        addend: 0,
        target: None,
        is_methodoff: true,
    }
}

#[test]
fn a_type_with_a_method(rt: HostRuntime) -> Result<(), Fail> {
    let alloc = rt.alloc();
    let mut data = vec![in alloc; 0u8; 88]?;
    assert_eq!(rt; data.len(), 88);
    // TFlag: uncommon; Kind_: 25, a struct would have Fields; 1, a bool
    data[20] = 1;
    data[23] = 1;
    // UncommonType at 48: Mcount 1, Moff 16
    data[52] = 1;
    data[56] = 16;
    // at 80 a name: flags, length, bytes
    data[81] = 3;
    data[82] = b'R';
    data[83] = b'u';
    data[84] = b'n';
    let offsets = vec![in alloc; 40, 64, 68, 72, 76]?;
    let sample = Sample { data, offsets };
    let mut found = Vec::new(alloc);
    methodoff_offsets(&sample, 0, &mut found)?;
    assert_eq!(rt; found.as_slice(), [68, 72, 76].as_slice());
    let mut triples = Vec::new(alloc);
    method_triples(&sample, 0, &mut triples)?;
    let triple = MethodTriple {
        index: 2,
        first: None,
        second: None,
        third: None,
    };
    assert_eq!(rt; triples.as_slice(), [triple].as_slice());
    assert_eq!(rt; type_string_read(&sample, 0), Ok(b"Run".as_slice()));
    Ok(())
}

#[test]
fn offsets_that_fall(rt: HostRuntime) -> Result<(), Fail> {
    let alloc = rt.alloc();
    let data = Vec::new(alloc);
    let offsets = vec![in alloc; 64, 40, 72]?;
    let sample = Sample { data, offsets };
    let index = OffsetIndex::new(alloc, &sample)?;
    assert_eq!(rt; index.find(&sample, 40), Some(sample_reloc(40)));
    assert_eq!(rt; index.find(&sample, 72), None);
    Ok(())
}
