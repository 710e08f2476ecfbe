// Why addresses are not answered.
use glk_elf::ElfBad;

/// Why addresses are not answered.
#[derive(Clone, Copy, Debug, PartialEq, Eq)]
pub enum LineFault {
    /// The image has no functions: rule E12 or E13.
    Elf(ElfBad),
    /// A write failed, and the sink's count of faults rose.
    Failed,
}
