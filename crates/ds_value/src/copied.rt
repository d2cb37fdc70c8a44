ghost use Rattle.std.specs.Prelude.{◌≡◌, IfOk};

use crate::{Bytes, Items, Name, Name0, NoMemory};
use std::alloc::Global;

/// What can be copied, where there is memory.
pub trait Copied {
    fn copied(&self) -> Result<Self, NoMemory>
    where
        Self: Sized,
        ensures { IfOk result (λ copy. copy ≡ self.now) };
}

impl Copied for Bytes {
    fn copied(&self) -> Result<Bytes, NoMemory> {
        Bytes::copied(self)
    }
}

impl Copied for Name {
    fn copied(&self) -> Result<Name, NoMemory> {
        Name::copied(self)
    }
}

impl Copied for Name0 {
    fn copied(&self) -> Result<Name0, NoMemory> {
        Name0::copied(self)
    }
}

impl Copied for bool {
    fn copied(&self) -> Result<bool, NoMemory> {
        Ok(*self)
    }
}

impl Copied for u32 {
    fn copied(&self) -> Result<u32, NoMemory> {
        Ok(*self)
    }
}

impl Copied for i64 {
    fn copied(&self) -> Result<i64, NoMemory> {
        Ok(*self)
    }
}

impl<A: Copied + Drop, B: Copied + Drop> Copied for (A, B) {
    fn copied(&self) -> Result<(A, B), NoMemory> {
        let (a, b) = self;
        Ok((a.copied()?, b.copied()?))
    }
}

impl<T: Copied + Drop> Copied for Option<T> {
    fn copied(&self) -> Result<Option<T>, NoMemory> {
        match self {
            None => Ok(None),
            Some(it) => Ok(Some(it.copied()?)),
        }
    }
}

impl<T: Copied + Drop> Copied for Items<T> {
    fn copied(&self) -> Result<Items<T>, NoMemory> {
        copied_items(self.allocator(), self)
    }
}

/// A list of copies.
pub fn copied_items<T: Copied + Drop>(alloc: Global, items: &Items<T>) -> Result<Items<T>, NoMemory>
    ensures { IfOk result (λ copy. copy ≡ items.now) }
{
    let mut copies = Items::new(alloc);
    for item in items.as_slice() {
        copies.push(item.copied()?)?;
    }
    Ok(copies)
}
