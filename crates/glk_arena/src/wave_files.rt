// The files of a wave, whose objects may be checked side by side before they are asked for in order.
ghost use Rattle.std.specs.Prelude.{◌≡◌, ◌≤◌, length, IfOk, IfErr, IfSome};
ghost use Rattle.glk_base.specs.Limits.{file_limit};
ghost use Rattle.glk_package.specs.ObjectRules.{rules_view};
ghost use Rattle.glk_package.specs.Package.{IsRefusalOf};
ghost use Rattle.glk_arena.specs.Stored.{AreStored};
ghost use Rattle.glk_arena.specs.LoadParts.{HoldsStored};
ghost use Rattle.glk_arena.specs.WaveFiles.{IsFoundUniform};

use crate::stored::{StoredObjects, store_objects};
use glk_base::{Fault, Text};
use glk_package::{ObjectRules, PackageBad, objects};
use rayon::prelude::*;
use std::alloc::Global;
use std::collections::VecDeque;
use std::marker::Model;
use std::thread::Threads;

// How many bytes a wave has at least whose files are checked in more than one thread.
const SHARED_BYTES: u64 = 1 << 20;

// What is stored of the objects of a file, which have in common what these rules ask.
pub(crate) fn stored_objects(
    alloc: Global,
    rules: ObjectRules<'_>,
    file: &[u8],
) -> Result<StoredObjects, Fault<PackageBad>>
    requires { length file.now ≤ file_limit }
    ensures ok { IfOk result (HoldsStored (rules_view rules.entry) file.now) }
    ensures stored { IfOk result (λ kept. AreStored file.now kept.list.items) }
    ensures err { IfErr result (IsRefusalOf (rules_view rules.entry) file.now) }
{
    match objects(alloc, file, rules) {
        Ok(entries) => {
            let kept = store_objects(alloc, file, &entries)?;
            Ok(kept)
        }
        Err(fault) => Err(fault),
    }
}

// A file of a wave. Contracts see its bytes. Where its objects were checked, and have one line and one
// length of long hashes, it keeps what is stored of them.
#[derive(Drop)]
pub(crate) struct WaveFile {
    file: Text,
    found: Option<StoredObjects>,
}

impl Model for WaveFile {
    ghost use Rattle.std.specs.Prelude.{List, ℕ};
    ghost use Rattle.glk_arena.specs.WaveFiles.{IsWaveFile};

    ghost Value = { List ℕ };

    ghost view = { λ f. f.file };

    ghost invariant = { λ f. IsWaveFile f.file f.found };
}

impl WaveFile {
    // A file that is not checked.
    pub(crate) fn new(file: Text) -> WaveFile
        requires { length file ≤ file_limit }
        ensures { result ≡ file }
    {
        WaveFile { file, found: None }
    }

    // How many bytes it has.
    fn bytes(&self) -> usize
        ensures { result ≡ length self.now }
    {
        self.file.as_bytes().len()
    }

    // Checks its objects.
    fn check(&mut self, alloc: Global)
        ensures { self.new ≡ self.old }
    {
        match stored_objects(alloc, ObjectRules::uniform(), self.file.as_bytes()) {
            Ok(found) => self.found = Some(found),
            Err(_) => {}
        }
    }

    // The file, and what was found of its objects.
    pub(crate) fn into_parts(self) -> (Text, Option<StoredObjects>)
        ensures file { result.0 ≡ self }
        ensures short { length self ≤ file_limit }
        ensures found { IfSome result.1 (IsFoundUniform self) }
    {
        let WaveFile { file, found } = self;
        (file, found)
    }
}

// Whether the files of a wave have bytes for more than one thread.
fn are_shared(files: &VecDeque<WaveFile>) -> bool {
    let mut bytes = 0u64;
    for file in files.iter() {
        bytes = bytes.saturating_add(file.bytes() as u64);
    }
    files.len() > 1 && bytes >= SHARED_BYTES
}

// Checks the objects of the files of a wave, each file in one of the threads, where there are bytes
// enough. Of the files nothing changes.
pub(crate) fn check_files<R: Threads + Sync>(rt: &R, alloc: Global, files: &mut VecDeque<WaveFile>)
    ensures { files.new.items ≡ files.old.items }
{
    if are_shared(files) {
        par_for_each_mut(
            rt,
            files.make_contiguous(),
            |_place: usize, file: &mut WaveFile|
                ensures { file.new ≡ file.old }
            { file.check(alloc) },
        );
    }
}
