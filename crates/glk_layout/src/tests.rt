// What takes memory, once with memory: places that follow from the rules by hand.
use crate::{KeptSymbol, Layout, MadeContent, PlacedContents, SizeLimit, Tables, TooLarge, place};
use glk_base::Fault;
use glk_obj::SymKind;
use std::alloc::Global;
use std::test::Fail;

const NO_TABLES: Tables = Tables {
    typelink: 0,
    itablink: 0,
    gopclntab: 0,
    go_module: 0,
    tbss: 8,
};

fn symbol(kind: Option<SymKind>, align: u32, size: u32, name_len: u32) -> KeptSymbol {
    KeptSymbol {
        kind,
        align,
        size,
        name_len,
    }
}

// Where these symbols are, with two made contents.
fn addresses(alloc: Global, symbols: &[KeptSymbol]) -> Option<Result<Layout, TooLarge>> {
    if symbols.len() > 1000 {
        return None;
    }
    let made = [
        MadeContent { align: 8, size: 16 },
        MadeContent { align: 4, size: 3 },
    ];
    let contents = PlacedContents {
        symbols,
        made: &made,
        tables: NO_TABLES,
    };
    match place(alloc, &contents) {
        Ok(layout) => Some(Ok(layout)),
        Err(Fault::Bad(refusal)) => Some(Err(refusal)),
        Err(Fault::OutOfMemory) => None,
    }
}

// Two functions, data of each kind between them, and a made name.
fn some_symbols() -> [KeptSymbol; 9] {
    [
        symbol(Some(SymKind::Text), 0, 5, 9),
        symbol(Some(SymKind::Rodata), 0, 24, 4),
        symbol(Some(SymKind::Text), 0, 40, 0),
        symbol(Some(SymKind::Rodata), 0, 7, 0),
        symbol(Some(SymKind::NoptrData), 4096, 1, 0),
        symbol(Some(SymKind::Data), 0, 1, 0),
        symbol(Some(SymKind::Data), 0, 8, 0),
        symbol(Some(SymKind::Bss), 0, 0, 0),
        symbol(None, 0, 0, 12),
    ]
}

#[test]
fn symbols_have_their_places(rt: HostRuntime) -> Result<(), Fail> {
    let symbols = some_symbols();
    match addresses(rt.alloc(), &symbols) {
        Some(Ok(layout)) => {
            assert_eq!(rt;
                layout.symbols.as_slice(),
                [
                    0x401000, 0x402000, 0x401020, 0x402018, 0x403000, 0x403020, 0x403028, 0x403040,
                    0,
                ]
                .as_slice()
            );
            assert_eq!(rt; layout.made.as_slice(), [0x402020, 0x402030].as_slice());
            assert_eq!(rt;
                layout.addrs.as_slice(),
                [
                    0x401000, 0x402000, 0x402040, 0x402040, 0x402040, 0x403000, 0x403000, 0x403020,
                    0x403040, 0x403040, 0x403040,
                ]
                .as_slice()
            );
            assert_eq!(rt;
                layout.sizes.as_slice(),
                [72, 51, 0, 0, 0, 0, 1, 16, 0, 0, 8].as_slice()
            );
            Ok(())
        }
        _ => Err(Fail::from("no layout")),
    }
}

#[test]
fn the_first_limit_is_told(rt: HostRuntime) {
    for (kind, size, name_len, limit, number) in [
        (
            SymKind::Data,
            u32::MAX,
            u32::MAX,
            SizeLimit::File,
            0x1_0000_1fff,
        ),
        (SymKind::Bss, 0, u32::MAX, SizeLimit::Names, 1 << 32),
    ] {
        match addresses(rt.alloc(), &[symbol(Some(kind), 0, size, name_len)]) {
            Some(Err(refusal)) => assert_eq!(rt; refusal, TooLarge { limit, number }),
            _ => assert!(rt; false),
        }
    }
}

// As many zeros as 256 symbols of the greatest size have: the end passes 2^40.
#[test]
fn addresses_have_a_limit(rt: HostRuntime) {
    let symbols = [symbol(Some(SymKind::Bss), 0, u32::MAX, 0); 256];
    match addresses(rt.alloc(), &symbols) {
        Some(Err(refusal)) => {
            assert_eq!(rt;
                refusal,
                TooLarge {
                    limit: SizeLimit::Address,
                    number: 0x100_0040_2000
                }
            )
        }
        _ => assert!(rt; false),
    }
}
