ghost use Rattle.std.specs.Prelude.{◌≡◌, ◌↔◌, IfOk, IsTrue};
ghost use Rattle.std.specs.Option.{SomeIff};
ghost use Rattle.ds_value.specs.Names.{IsName, IsName0, is_name_byte};

use crate::NoMemory;
use std::alloc::Global;
use std::marker::Model;

/// A name of a file: 1 to 255 bytes, each 32 to 126 and not a quote.
#[derive(Debug, Drop)]
pub struct Name {
    bytes: Vec<u8>,
}

impl Model for Name {
    ghost use Rattle.std.specs.Prelude.{List, ℕ};
    ghost use Rattle.ds_value.specs.Names.{IsName};

    ghost Value = { List ℕ };

    ghost view = { λ n. n.bytes.items };

    ghost invariant = { λ n. IsName n.bytes.items };
}

/// A name that may be empty.
#[derive(Debug, Drop)]
pub struct Name0 {
    bytes: Vec<u8>,
}

impl Model for Name0 {
    ghost use Rattle.std.specs.Prelude.{List, ℕ};
    ghost use Rattle.ds_value.specs.Names.{IsName0};

    ghost Value = { List ℕ };

    ghost view = { λ n. n.bytes.items };

    ghost invariant = { λ n. IsName0 n.bytes.items };
}

fn is_name_byte(byte: u8) -> bool
    ensures { result ≡ is_name_byte byte }
{
    byte >= 32 && byte <= 126 && byte != b'"' && byte != b'\''
}

fn is_name(bytes: &[u8]) -> bool
    ensures { IsTrue result ↔ IsName bytes.now }
{
    bytes.len() >= 1 && bytes.len() <= 255 && bytes.iter().all(|byte| is_name_byte(*byte))
}

fn is_name0(bytes: &[u8]) -> bool
    ensures { IsTrue result ↔ IsName0 bytes.now }
{
    bytes.len() <= 255 && bytes.iter().all(|byte| is_name_byte(*byte))
}

impl Name {
    pub fn from_bytes(alloc: Global, bytes: &[u8]) -> Result<Option<Name>, NoMemory>
        ensures { IfOk result (λ name. SomeIff name (IsName bytes.now) bytes.now) }
    {
        if !is_name(bytes) {
            return Ok(None);
        }
        let bytes = bytes.to_vec(alloc)?;
        Ok(Some(Name { bytes }))
    }

    pub fn as_slice(&self) -> &[u8]
        ensures bytes { result.now ≡ self.now }
        ensures name { IsName self.now }
    {
        self.bytes.as_slice()
    }

    pub fn copied(&self) -> Result<Name, NoMemory>
        ensures { IfOk result (λ copy. copy ≡ self.now) }
    {
        Ok(Name {
            bytes: self.bytes.clone()?,
        })
    }
}

impl Name0 {
    pub fn from_bytes(alloc: Global, bytes: &[u8]) -> Result<Option<Name0>, NoMemory>
        ensures { IfOk result (λ name. SomeIff name (IsName0 bytes.now) bytes.now) }
    {
        if !is_name0(bytes) {
            return Ok(None);
        }
        let bytes = bytes.to_vec(alloc)?;
        Ok(Some(Name0 { bytes }))
    }

    pub fn as_slice(&self) -> &[u8]
        ensures bytes { result.now ≡ self.now }
        ensures name { IsName0 self.now }
    {
        self.bytes.as_slice()
    }

    pub fn copied(&self) -> Result<Name0, NoMemory>
        ensures { IfOk result (λ copy. copy ≡ self.now) }
    {
        Ok(Name0 {
            bytes: self.bytes.clone()?,
        })
    }
}
