// A loaded package, which owns its file and stores where its objects are in it.
ghost use Rattle.std.specs.Prelude.{◌≡◌, ◌<◌, ◌≤◌, ℕ, List, [], length, map, get_or, All, IfOk, option_copied};
ghost use Rattle.glk_obj.specs.Object.{IsObject};
ghost use Rattle.glk_package.specs.ObjectEntry.{IsFoundIn};
ghost use Rattle.glk_package.specs.HeaderRule.{first_line};
ghost use Rattle.glk_package.specs.WidthRule.{first_width};
ghost use Rattle.glk_arena.specs.World.{package_symbols};
ghost use Rattle.glk_base.specs.Limits.{file_limit};
ghost use Rattle.glk_arena.specs.Imports.{package_fingerprint};
ghost use Rattle.glk_arena.specs.Stored.{AreStored, IsStored, IsWhole, Stores, stored_data, first_set};

use glk_base::{OutOfMemory, Text};
use glk_obj::{ObjShape, ObjView};
use glk_package::ObjectEntry;
use std::alloc::Global;
use std::marker::Model;

// The fingerprint of a package that has none.
const NO_FINGERPRINT: [u8; 8] = [0; 8];

// An object of a file, by the offsets of its data there.
#[derive(Drop)]
pub(crate) struct StoredObject {
    at: usize,
    end: usize,
    shape: ObjShape,
}

// What is stored of the objects of a file: the header line of the first, and where each is.
#[derive(Drop)]
pub(crate) struct StoredObjects {
    pub header: Option<Text>,
    pub list: Vec<StoredObject>,
}

impl StoredObjects {
    // The header line of the first object.
    pub(crate) fn line(&self) -> Option<&[u8]>
        ensures { option_copied result ≡ self.now.header }
    {
        match &self.header {
            Some(line) => Some(line.as_bytes()),
            None => None,
        }
    }
}

// A copy of a header line.
pub(crate) fn copy_line(alloc: Global, line: Option<&[u8]>) -> Result<Option<Text>, OutOfMemory>
    ensures { IfOk result (λ copy. copy ≡ option_copied line.entry) }
{
    match line {
        Some(line) => {
            let copy = Text::new(alloc, line)?;
            Ok(Some(copy))
        }
        None => Ok(None),
    }
}

// The header line of the first of these objects.
fn line_of_first<'a>(objects: &[ObjectEntry<'a>]) -> Option<&'a [u8]>
    ensures { option_copied result ≡ first_line objects.now }
{
    match objects.first() {
        Some(object) => Some(object.line()),
        None => None,
    }
}

// What is stored of an object of a file.
fn store_object(file: &[u8], object: &ObjectEntry<'_>) -> StoredObject
    requires { IsFoundIn file.now object.now }
    ensures same { stored_data file.now result ≡ object.now.goobj }
    ensures stored { IsStored file.now result }
{
    let _ = file;
    let at = object.at() as usize;
    StoredObject {
        at,
        end: at + object.goobj().len(),
        shape: object.shape(),
    }
}

// What is stored of each of these objects of a file.
fn store_list(
    alloc: Global,
    file: &[u8],
    objects: &[ObjectEntry<'_>],
) -> Result<Vec<StoredObject>, OutOfMemory>
    requires { All (IsFoundIn file.now) objects.now }
    ensures same { IfOk result (λ list.
        map (stored_data file.now) list.items ≡ map (λ o. o.goobj) objects.now) }
    ensures stored { IfOk result (λ list. All (IsStored file.now) list.items) }
{
    let mut list = Vec::with_capacity(alloc, objects.len())?;
    for object in objects {
        list.push(store_object(file, object))?;
    }
    Ok(list)
}

// What is stored of the objects of a file.
pub(crate) fn store_objects(
    alloc: Global,
    file: &[u8],
    objects: &[ObjectEntry<'_>],
) -> Result<StoredObjects, OutOfMemory>
    requires { All (IsFoundIn file.now) objects.now }
    ensures same { IfOk result (Stores file.now objects.now) }
    ensures stored { IfOk result (λ kept. All (IsStored file.now) kept.list.items) }
{
    let header = copy_line(alloc, line_of_first(objects))?;
    let list = store_list(alloc, file, objects)?;
    Ok(StoredObjects { header, list })
}

// The first fingerprint of these objects that is not zero, else zero.
fn first_fingerprint(file: &[u8], objects: &[StoredObject]) -> [u8; 8]
    requires { All (IsStored file.now) objects.now }
    ensures { result ≡ first_set (map (stored_data file.now) objects.now) }
{
    for object in objects {
        let view = object.shape.view(&file[object.at..object.end]);
        let print = view.fingerprint();
        if print != NO_FINGERPRINT {
            return print;
        }
    }
    NO_FINGERPRINT
}

// The length of the long hashes of the first of these objects that has any.
pub(crate) fn first_hash_width(file: &[u8], objects: &[StoredObject]) -> Option<u32>
    requires { All (IsStored file.now) objects.now }
    ensures { result ≡ first_width (map (stored_data file.now) objects.now) }
{
    for object in objects {
        let view = object.shape.view(&file[object.at..object.end]);
        if let Some(width) = view.hash_width() {
            return Some(width);
        }
    }
    None
}

// A loaded package. Contracts see its path, its file, the header line of its first object, and the
// data of its objects.
#[derive(Drop)]
pub(crate) struct LoadedPackage {
    path: Text,
    file: Text,
    header: Option<Text>,
    objects: Vec<StoredObject>,
    print: [u8; 8],
}

impl Model for LoadedPackage {
    ghost use Rattle.std.specs.Prelude.{map};
    ghost use Rattle.glk_arena.specs.World.{Package};

    ghost Value = { Package };

    ghost use Rattle.glk_arena.specs.Stored.{AreStored, HasFingerprint, stored_data};

    ghost view = { λ p. record { path = p.path; file = p.file; header = p.header; objects = map (stored_data p.file) p.objects.items } };

    ghost invariant = { λ p. HasFingerprint p.file p.objects.items p.print };
}

impl LoadedPackage {
    pub(crate) fn new(path: Text, file: Text, objects: StoredObjects) -> LoadedPackage
        requires { AreStored file objects.list.items }
        ensures value { result ≡ record {
          path = path;
          file = file;
          header = objects.header;
          objects = map (stored_data file) objects.list.items;
        } }
        ensures whole { IsWhole result }
    {
        let StoredObjects { header, list } = objects;
        let print = first_fingerprint(file.as_bytes(), &list);
        LoadedPackage {
            path,
            file,
            header,
            objects: list,
            print,
        }
    }

    pub(crate) fn path(&self) -> &[u8]
        ensures { result.now ≡ self.now.path }
    {
        self.path.as_bytes()
    }

    // How many bytes its file has.
    pub(crate) fn bytes(&self) -> usize
        ensures { result ≡ length self.now.file }
    {
        self.file.as_bytes().len()
    }

    // How many objects it has.
    pub(crate) fn objects(&self) -> usize
        ensures { result ≡ length self.now.objects }
    {
        self.objects.len()
    }

    // Its object `i`, without another check.
    pub(crate) fn object(&self, i: usize) -> ObjView<'_>
        requires { i < length self.now.objects }
        ensures object { IsObject (get_or self.now.objects i []) }
        ensures value { result ≡ get_or self.now.objects i [] }
    {
        let object = &self.objects[i];
        object
            .shape
            .view(&self.file.as_bytes()[object.at..object.end])
    }

    // The header line of its first object.
    pub(crate) fn header(&self) -> Option<&[u8]>
        ensures { option_copied result ≡ self.now.header }
    {
        match &self.header {
            Some(line) => Some(line.as_bytes()),
            None => None,
        }
    }

    // Its fingerprint: the first among its objects that is not zero, else zero.
    pub(crate) fn fingerprint(&self) -> [u8; 8]
        ensures { result ≡ package_fingerprint self.now }
    {
        self.print
    }

    // The length of the long hashes of its first object that has any.
    pub(crate) fn hash_width(&self) -> Option<u32>
        ensures { result ≡ first_width self.now.objects }
    {
        first_hash_width(self.file.as_bytes(), &self.objects)
    }

    // How many symbols its objects have.
    pub(crate) fn symbols(&self) -> u32
        requires whole { IsWhole self.now }
        requires small { length self.now.file ≤ file_limit }
        ensures { result ≡ package_symbols self.now }
    {
        let mut symbols = 0;
        for i in 0..self.objects() {
            symbols += self.object(i).symbols();
        }
        symbols
    }
}
