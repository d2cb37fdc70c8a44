//! Printing lists.

ghost use Rattle.std.specs.Prelude.{◌≡◌, ◌++◌, IfOk, OnOk};
ghost use Rattle.ds_schema.specs.ColumnText.{desc_text, key_text, keys_text, names_text};

use ds_value::{Bytes, Name, NoMemory};
use std::alloc::Global;

/// The names with commas between them.
pub fn print_names(alloc: Global, names: &[Name]) -> Result<Bytes, NoMemory>
    ensures { IfOk result (λ text. text ≡ names_text names.now) }
{
    let mut text = Bytes::new(alloc);
    let [first, others @ ..] = names else {
        return Ok(text);
    };
    text.append(first.as_slice())?;
    for name in others {
        text.append(b",")?;
        text.append(name.as_slice())?;
    }
    Ok(text)
}

fn desc_text(desc: bool) -> &'static [u8]
    ensures { result.now ≡ desc_text desc }
{
    if desc { b" desc" } else { b"" }
}

fn append_key(text: &mut Bytes, key: &(Name, bool)) -> Result<(), NoMemory>
    ensures { OnOk result (text.new ≡ text.old ++ key_text key.now) }
{
    let (name, desc) = key;
    text.append(name.as_slice())?;
    text.append(desc_text(*desc))?;
    Ok(())
}

/// The names with commas between them, `desc` behind those whose order is descending.
pub fn print_keys(alloc: Global, keys: &[(Name, bool)]) -> Result<Bytes, NoMemory>
    ensures { IfOk result (λ text. text ≡ keys_text keys.now) }
{
    let mut text = Bytes::new(alloc);
    let [first, others @ ..] = keys else {
        return Ok(text);
    };
    append_key(&mut text, first)?;
    for key in others {
        text.append(b",")?;
        append_key(&mut text, key)?;
    }
    Ok(text)
}
