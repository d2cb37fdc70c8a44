ghost use Rattle.std.specs.Prelude.{◌≡◌, ◌<◌, ◌-◌, ◌^◌, ◌++◌, min, false, codes, string_bytes, IsTrue, IfOk, [], Some, Err};
ghost use Rattle.std.proofs.Math.Nat.{min-le_right};
ghost use Rattle.ds_port.specs.Causes.{HasCause};
ghost use Rattle.ds_port.specs.FileMap.{no_files};

use crate::file_id::{FileId, Standing};
use crate::printed::write_once;
use crate::{DeviceFault, Files, FindFault, MakeFault, Sink, Source};
use ds_value::Name;
use std::alloc::{AllocError, Global};
use std::fs::File;
use std::io::{ErrorKind, Read};
use std::path::Path;
use std::rt::Files as System;
use std::{fs, io};

/// The files of the working folder, from which their names lead. A file is written under its name
/// with `.part`, and renamed at commit. Only plain files are written over, and none that this very
/// object has opened: a name that leads to one is a fault of the device.
#[derive(Drop)]
pub struct DiskFiles<R: System<File = File>> {
    system: R,
    opened: Vec<FileId>,
    faults: u64,
    lent: u64,
}

/// A file that is read.
#[derive(Drop)]
pub struct DiskInput {
    file: File,
    faults: u64,
}

/// A file that is being written.
#[derive(Drop)]
pub struct DiskOutput {
    file: File,
    id: FileId,
    name: Name,
    path: String,
    part: String,
    faults: u64,
    ghost path_of_name: { string_bytes path ≡ name },
    ghost part_of_name: { string_bytes part ≡ name ++ codes ".part" },
}

impl Source for DiskInput {
    ghost tells = { false };

    ghost rest = { λ _. [] };

    ghost faults = { λ s. min s.faults (2 ^ 64 - 1) };

    ghost bounded = { λ s. min-le_right s.faults (2 ^ 64 - 1) };

    fn read(&mut self, buf: &mut [u8]) -> Result<usize, DeviceFault> {
        match self.file.read(buf) {
            Ok(count) => Ok(count),
            Err(_) => {
                self.faults = self.faults.saturating_add(1);
                Err(DeviceFault)
            }
        }
    }
}

impl Sink for DiskOutput {
    ghost tells = { false };

    ghost held = { λ _. [] };

    ghost name = { λ s. Some s.name };

    ghost faults = { λ s. min s.faults (2 ^ 64 - 1) };

    ghost bounded = { λ s. min-le_right s.faults (2 ^ 64 - 1) };

    fn write(&mut self, bytes: &[u8]) -> Result<usize, DeviceFault> {
        write_once(&mut self.file, &mut self.faults, bytes)
    }

    fn finish(&mut self) -> Result<(), DeviceFault> {
        match self.file.sync_all() {
            Ok(()) => Ok(()),
            Err(_) => {
                self.faults = self.faults.saturating_add(1);
                Err(DeviceFault)
            }
        }
    }
}

/// The name as a path, with something behind it.
#[tactic(auto, using(crate::proofs::Paths::name_is_text))]
fn path_of(alloc: Global, name: &Name, ending: &str) -> Result<String, AllocError>
    ensures { IfOk result (λ text. string_bytes text ≡ name.now ++ ending.now) }
{
    let mut text = String::from_utf8_lossy(alloc, name.as_slice())?;
    text.push_str(ending)?;
    Ok(text)
}

/// Has the device keep what the folder of this path now lists.
fn sync_folder<R: System<File = File>>(system: &R, path: &str) -> io::Result<()> {
    let folder = match Path::new(path).parent() {
        Some(folder) => folder.as_str(),
        None => "",
    };
    let folder = if folder.is_empty() { "." } else { folder };
    fs::open(system, folder)?.sync_all()
}

impl<R: System<File = File>> DiskFiles<R> {
    pub fn new(alloc: Global, system: R) -> DiskFiles<R>
        ensures faults { ⟦<DiskFiles<R> as Files>⟧.faults result ≡ 0 }
        ensures lent { ⟦<DiskFiles<R> as Files>⟧.lent result ≡ 0 }
    {
        DiskFiles {
            system,
            opened: Vec::new(alloc),
            faults: 0,
            lent: 0,
        }
    }

    fn count_fault(&mut self)
        ensures cause { HasCause (min self.old.faults (2 ^ 64 - 1)) (min self.new.faults (2 ^ 64 - 1)) (Unit {0}) }
        ensures lent { self.new.lent ≡ self.old.lent }
    {
        self.faults = self.faults.saturating_add(1);
    }

    fn take_back(&mut self, failed: bool)
        ensures cause { HasCause (min self.old.faults (2 ^ 64 - 1)) (min self.new.faults (2 ^ 64 - 1)) (IsTrue failed) }
        ensures lent { self.new.lent ≡ self.old.lent - 1 }
    {
        self.lent = self.lent.saturating_sub(1);
        if failed {
            self.count_fault();
        }
    }

    /// Notes which file was opened.
    fn note(&mut self, file: &File) -> Result<FileId, MakeFault>
        ensures cause { HasCause (min self.old.faults (2 ^ 64 - 1)) (min self.new.faults (2 ^ 64 - 1)) (result ≡ Err MakeFault.Device) }
        ensures lent { self.new.lent ≡ self.old.lent }
    {
        let Ok(found) = file.metadata() else {
            self.count_fault();
            return Err(MakeFault::Device);
        };
        let id = FileId::of(&found);
        match self.opened.push(id) {
            Ok(()) => Ok(id),
            Err(_) => Err(MakeFault::Memory),
        }
    }

    /// Whether nothing is lost by a file that is put there.
    fn is_free(&self, path: &str) -> bool {
        match Standing::at(&self.system, path) {
            Standing::Nothing => true,
            Standing::Plain(id) => !self.opened.contains(&id),
            Standing::Other => false,
        }
    }

    /// A new part. One that was left behind goes, so that no other name of it is written to.
    fn make_part(&self, part: &str) -> io::Result<File> {
        if Standing::at(&self.system, part) != Standing::Nothing {
            fs::remove_file(&self.system, part)?;
        }
        File::create_new(&self.system, part)
    }

    /// Removes a part, unless another file stands there by now.
    fn remove_part(&self, output: &DiskOutput) -> Result<(), DeviceFault> {
        if Standing::at(&self.system, output.part.as_str()) != Standing::Plain(output.id) {
            return Err(DeviceFault);
        }
        match fs::remove_file(&self.system, output.part.as_str()) {
            Ok(()) => Ok(()),
            Err(_) => Err(DeviceFault),
        }
    }

    fn put_in_place(&self, output: &DiskOutput) -> io::Result<()> {
        let path = output.path.as_str();
        let part = output.part.as_str();
        if !self.is_free(path) || Standing::at(&self.system, part) != Standing::Plain(output.id) {
            return Err(io::Error::from(ErrorKind::AlreadyExists));
        }
        fs::rename(&self.system, part, path)?;
        sync_folder(&self.system, path)
    }
}

impl<R: System<File = File>> Files for DiskFiles<R> {
    type Input = DiskInput;

    type Output = DiskOutput;

    ghost tells = { false };

    ghost holds = { λ _. no_files };

    ghost faults = { λ f. min f.faults (2 ^ 64 - 1) };

    ghost bounded = { λ f. min-le_right f.faults (2 ^ 64 - 1) };

    ghost lent = { λ f. f.lent };

    ghost inputs_tell = { λ t. t };

    ghost outputs_tell = { λ t. t };

    fn find(&mut self, alloc: Global, name: &Name) -> Result<DiskInput, FindFault> {
        let (Some(lent), Ok(path)) = (self.lent.checked_add(1), path_of(alloc, name, "")) else {
            return Err(FindFault::Memory);
        };
        let file = match fs::open(&self.system, path.as_str()) {
            Ok(file) => file,
            Err(error) if error.kind() == ErrorKind::NotFound => return Err(FindFault::Absent),
            Err(_) => {
                self.count_fault();
                return Err(FindFault::Device);
            }
        };
        match self.note(&file) {
            Ok(_) => {
                self.lent = lent;
                Ok(DiskInput { file, faults: 0 })
            }
            Err(MakeFault::Device) => Err(FindFault::Device),
            Err(MakeFault::Memory) => Err(FindFault::Memory),
        }
    }

    fn create(&mut self, alloc: Global, name: &Name) -> Result<DiskOutput, MakeFault> {
        let (Some(lent), Ok(path), Ok(part), Ok(name)) = (
            self.lent.checked_add(1),
            path_of(alloc, name, ""),
            path_of(alloc, name, ".part"),
            name.copied(),
        ) else {
            return Err(MakeFault::Memory);
        };
        if !self.is_free(path.as_str()) || !self.is_free(part.as_str()) {
            self.count_fault();
            return Err(MakeFault::Device);
        }
        let Ok(file) = self.make_part(part.as_str()) else {
            self.count_fault();
            return Err(MakeFault::Device);
        };
        match self.note(&file) {
            Ok(id) => {
                self.lent = lent;
                Ok(DiskOutput {
                    file,
                    id,
                    name,
                    path,
                    part,
                    faults: 0,
                })
            }
            Err(fault) => {
                let _ = fs::remove_file(&self.system, part.as_str());
                Err(fault)
            }
        }
    }

    fn commit(&mut self, output: DiskOutput) -> Result<(), DeviceFault> {
        self.take_back(output.faults > 0);
        match self.put_in_place(&output) {
            Ok(()) => Ok(()),
            Err(_) => {
                let _ = self.remove_part(&output);
                self.count_fault();
                Err(DeviceFault)
            }
        }
    }

    fn discard(&mut self, output: DiskOutput) {
        let removed = self.remove_part(&output);
        self.take_back(output.faults > 0 || removed.is_err());
    }

    fn settle(&mut self, input: DiskInput) {
        self.take_back(input.faults > 0);
    }
}
