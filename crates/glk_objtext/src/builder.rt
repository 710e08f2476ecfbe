// A description that grows line by line.
ghost use Rattle.std.specs.Prelude.{◌≡◌, OnOk, IfOk, List, [], ◌∷◌};
ghost use Rattle.glk_objtext.specs.Building.{IsClosed, EndsParts, Takes, description_with};
ghost use Rattle.glk_objtext.specs.Description.{description_of_lines};
ghost use Rattle.glk_objtext.specs.declared.line.Line.{Line as SpecLine};
ghost use Rattle.glk_objtext.specs.declared.line.Line.TheVariants.{Content, Relocation, Auxiliary};

use crate::line::{DefBlock, Line};
use glk_base::{OutOfMemory, Seq, Text};
use glk_obj::{AuxRec, RefFlagsRec, RelocRec};
use glk_objdesc::{AutolibDesc, DefDesc, ObjDesc, RefNameDesc, SymDesc};
use std::alloc::Global;

/// The definition that is open, and its parts so far.
#[derive(Drop)]
pub(crate) struct OpenDef {
    block: DefBlock,
    sym: SymDesc,
    hash: Text,
    content: Text,
    relocs: Vec<RelocRec>,
    auxes: Vec<AuxRec>,
}

/// What the lines so far describe.
#[derive(Drop)]
pub(crate) struct Builder {
    flags: u32,
    fingerprint: [u8; 8],
    autolib: Vec<AutolibDesc>,
    pkgs: Vec<Text>,
    files: Vec<Text>,
    defs: Vec<DefDesc>,
    hash64: Vec<DefDesc>,
    hashed: Vec<DefDesc>,
    ndefs: Vec<DefDesc>,
    open: Option<OpenDef>,
    refs: Vec<SymDesc>,
    ref_flags: Vec<RefFlagsRec>,
    ref_names: Vec<RefNameDesc>,
}

impl Builder {
    /// Before the first line.
    pub(crate) fn new(alloc: Global) -> Builder
        ensures { (more : List SpecLine) → description_with result more ≡ description_of_lines more }
    {
        Builder {
            flags: 0,
            fingerprint: [0; 8],
            autolib: Vec::new(alloc),
            pkgs: Vec::new(alloc),
            files: Vec::new(alloc),
            defs: Vec::new(alloc),
            hash64: Vec::new(alloc),
            hashed: Vec::new(alloc),
            ndefs: Vec::new(alloc),
            open: None,
            refs: Vec::new(alloc),
            ref_flags: Vec::new(alloc),
            ref_names: Vec::new(alloc),
        }
    }

    // No part of a definition follows: the open one is whole.
    fn close(&mut self) -> Result<(), OutOfMemory>
        ensures { OnOk result (IsClosed self.old self.new) }
    {
        match self.open.take() {
            None => Ok(()),
            Some(open) => {
                let OpenDef {
                    block,
                    sym,
                    hash,
                    content,
                    relocs,
                    auxes,
                } = open;
                let definition = DefDesc {
                    sym,
                    hash,
                    content,
                    relocs: Seq::new(relocs),
                    auxes: Seq::new(auxes),
                };
                match block {
                    DefBlock::Symdef => self.defs.push(definition)?,
                    DefBlock::Hashed64def => self.hash64.push(definition)?,
                    DefBlock::Hasheddef => self.hashed.push(definition)?,
                    DefBlock::Nonpkgdef => self.ndefs.push(definition)?,
                }
                Ok(())
            }
        }
    }

    /// Takes what the next line says.
    pub(crate) fn add(&mut self, alloc: Global, line: Line) -> Result<(), OutOfMemory>
        ensures { OnOk result (Takes self.old line self.new) }
    {
        match line {
            Line::Content(bytes) => {
                self.fill(bytes);
                Ok(())
            }
            Line::Relocation(reloc) => self.push_reloc(reloc),
            Line::Auxiliary(aux) => self.push_aux(aux),
            whole => {
                self.close()?;
                self.push(alloc, whole)
            }
        }
    }

    // The data of the open definition.
    fn fill(&mut self, bytes: Text)
        ensures { Takes self.old (Content bytes) self.new }
    {
        if let Some(open) = &mut self.open {
            open.content = bytes;
        }
    }

    fn push_reloc(&mut self, reloc: RelocRec) -> Result<(), OutOfMemory>
        ensures { OnOk result (Takes self.old (Relocation reloc) self.new) }
    {
        if let Some(open) = &mut self.open {
            open.relocs.push(reloc)?;
        }
        Ok(())
    }

    fn push_aux(&mut self, aux: AuxRec) -> Result<(), OutOfMemory>
        ensures { OnOk result (Takes self.old (Auxiliary aux) self.new) }
    {
        if let Some(open) = &mut self.open {
            open.auxes.push(aux)?;
        }
        Ok(())
    }

    // Takes a line that is no part of a definition, while none is open.
    fn push(&mut self, alloc: Global, line: Line) -> Result<(), OutOfMemory>
        requires closed { self.old.open ≡ None }
        requires whole { EndsParts (line ∷ []) }
        ensures { OnOk result (Takes self.old line self.new) }
    {
        match line {
            Line::Header { flags, fingerprint } => {
                self.flags = flags;
                self.fingerprint = fingerprint;
                Ok(())
            }
            Line::Import(autolib) => {
                self.autolib.push(autolib)?;
                Ok(())
            }
            Line::Package(path) => {
                self.pkgs.push(path)?;
                Ok(())
            }
            Line::Source(file) => {
                self.files.push(file)?;
                Ok(())
            }
            Line::Symbol { block, sym, hash } => {
                self.open = Some(OpenDef {
                    block,
                    sym,
                    hash,
                    content: Text::of(Vec::new(alloc)),
                    relocs: Vec::new(alloc),
                    auxes: Vec::new(alloc),
                });
                Ok(())
            }
            Line::Reference(sym) => {
                self.refs.push(sym)?;
                Ok(())
            }
            Line::Flags(flags) => {
                self.ref_flags.push(flags)?;
                Ok(())
            }
            Line::Named(name) => {
                self.ref_names.push(name)?;
                Ok(())
            }
            Line::Content(_) | Line::Relocation(_) | Line::Auxiliary(_) => Ok(()),
        }
    }

    /// The description that the lines make.
    pub(crate) fn finish(mut self) -> Result<ObjDesc, OutOfMemory>
        ensures { IfOk result (λ d. d ≡ description_with self []) }
    {
        self.close()?;
        let Builder {
            flags,
            fingerprint,
            autolib,
            pkgs,
            files,
            defs,
            hash64,
            hashed,
            ndefs,
            open: _,
            refs,
            ref_flags,
            ref_names,
        } = self;
        Ok(ObjDesc {
            flags,
            fingerprint,
            autolib: Seq::new(autolib),
            pkgs: Seq::new(pkgs),
            files: Seq::new(files),
            defs: Seq::new(defs),
            hash64: Seq::new(hash64),
            hashed: Seq::new(hashed),
            ndefs: Seq::new(ndefs),
            refs: Seq::new(refs),
            ref_flags: Seq::new(ref_flags),
            ref_names: Seq::new(ref_names),
        })
    }
}
