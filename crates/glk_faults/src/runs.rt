// Q3: the runs of METHODOFF relocations.
ghost use Rattle.std.specs.Prelude.{◌≡◌, ◌<◌, ◌≤◌, length};
ghost use Rattle.glk_reach.specs.Chosen.{key_relocs, relocations_of};
ghost use Rattle.glk_reach.specs.RelocFaults.{begins_run as begins_run_in, begins_uneven_run as begins_uneven_run_in, run_from};

use crate::relocs::SymbolRelocs;

impl SymbolRelocs<'_, '_> {
    // Whether a longest run begins at relocation `i`.
    fn begins_run(&self, i: u32) -> bool
        requires { i < length (key_relocs self.now.merged.now.program self.now.key) }
        ensures { result ≡ begins_run_in (relocations_of self.now.merged.now.program self.now.key) i }
    {
        self.is_methodoff(i) && (i == 0 || !self.is_methodoff(i - 1))
    }

    // How many METHODOFF relocations stand from relocation `i` on.
    fn run_length(&self, i: u32) -> u32
        requires { i ≤ length (key_relocs self.now.merged.now.program self.now.key) }
        ensures { result ≡ run_from (relocations_of self.now.merged.now.program self.now.key) i }
    {
        for end in i..self.count() {
            if !self.is_methodoff(end) {
                return end - i;
            }
        }
        self.count() - i
    }

    // Whether a longest run begins at relocation `i` that is not made of threes. Each run is gone over
    // once.
    pub(crate) fn begins_uneven_run(&self, i: u32) -> bool
        requires { i < length (key_relocs self.now.merged.now.program self.now.key) }
        ensures { result ≡ begins_uneven_run_in self.now.merged.now.program self.now.key i }
    {
        self.begins_run(i) && self.run_length(i) % 3 != 0
    }
}
