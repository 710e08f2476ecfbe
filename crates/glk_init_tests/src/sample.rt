// Three tasks: `main..inittask` waits for `b..inittask` and `a..inittask`, the latter of eight bytes.
ghost use Rattle.std.specs.Prelude.{◌≡◌};
ghost use Rattle.glk_init_tests.specs.Sample.{graph_of};

use glk_base::OutOfMemory;
use glk_init::{InitEdge, InitProgram};

// What `b..inittask` and `a..inittask` wait for: nothing, each other, or each for a symbol without a
// definition.
#[derive(Clone, Copy)]
pub(crate) enum Sample {
    Sound,
    Cyclic,
    Undefined,
}

fn edge(relocation: u32, target: Option<u32>) -> InitEdge
    ensures { result ≡ record { relocation = relocation; target = target } }
{
    InitEdge { relocation, target }
}

impl InitProgram for Sample {
    ghost graph = { graph_of };

    fn keys(&self) -> u32 {
        4
    }

    fn is_defined(&self, _key: u32) -> bool {
        true
    }

    fn name(&self, key: u32) -> &[u8] {
        match key {
            0 => b"main..inittask",
            1 => b"b..inittask",
            _ => b"a..inittask",
        }
    }

    fn position(&self, key: u32) -> u32 {
        key
    }

    fn size(&self, key: u32) -> u32 {
        if key == 2 { 8 } else { 16 }
    }

    fn edges(&self, key: u32, out: &mut Vec<InitEdge>) -> Result<(), OutOfMemory> {
        out.clear();
        match (key, *self) {
            (0, _) => {
                out.push(edge(0, Some(1)))?;
                out.push(edge(1, Some(2)))?;
            }
            (1, Sample::Cyclic) => out.push(edge(0, Some(2)))?,
            (1, Sample::Undefined) => out.push(edge(7, None))?,
            (2, Sample::Cyclic) => out.push(edge(0, Some(1)))?,
            (2, Sample::Undefined) => out.push(edge(3, None))?,
            _ => {}
        }
        Ok(())
    }
}
