//! Printing methods.

ghost use Rattle.std.specs.Prelude.{◌≡◌, ◌++◌, OnOk, string_bytes};
ghost use Rattle.osh_print.specs.LinkText.{bracketed, kind_text, link_flag, link_name, method_text};

use crate::value::decimal_text;
use ds_schema::{print_keys, print_names};
use ds_value::{Bytes, NoMemory};
use flow_graph::{Flag, Method};
use std::alloc::Global;

fn append_kind(alloc: Global, text: &mut Bytes, method: &Method) -> Result<(), NoMemory>
    ensures { OnOk result (text.new ≡ text.old ++ kind_text method.now) }
{
    match method {
        Method::Auto => text.append(b"auto"),
        Method::Same => text.append(b"same"),
        Method::RoundRobin => text.append(b"rr"),
        Method::Entire => text.append(b"entire"),
        Method::Hash(names) => {
            let printed = print_names(alloc, names.as_slice())?;
            text.append(b"hash ")?;
            text.append(printed.as_slice())
        }
        Method::Modulus(name) => {
            text.append(b"modulus ")?;
            text.append(name.as_slice())
        }
        Method::Any => text.append(b"any"),
        Method::Ordered => text.append(b"ordered"),
        Method::Merge(keys) => {
            let printed = print_keys(alloc, keys.as_slice())?;
            text.append(b"merge ")?;
            text.append(printed.as_slice())
        }
    }
}

fn link_flag(flag: Flag) -> &'static [u8]
    ensures { result.now ≡ link_flag flag }
{
    match flag {
        Flag::Set => b" set",
        Flag::Clear => b" clear",
        Flag::Prop => b"",
    }
}

fn append_bracketed(
    alloc: Global,
    text: &mut Bytes,
    method: &Method,
    flag: Flag,
) -> Result<(), NoMemory>
    ensures { OnOk result (text.new ≡ text.old ++ bracketed method.now flag) }
{
    text.append(b"[")?;
    append_kind(alloc, text, method)?;
    text.append(link_flag(flag))?;
    text.append(b"]")
}

/// A method in its brackets; nothing for auto with prop.
pub fn append_method(
    alloc: Global,
    text: &mut Bytes,
    method: &Method,
    flag: Flag,
) -> Result<(), NoMemory>
    ensures { OnOk result (text.new ≡ text.old ++ method_text method.now flag) }
{
    match (method, flag) {
        (Method::Auto, Flag::Prop) => Ok(()),
        _ => append_bracketed(alloc, text, method, flag),
    }
}

/// The data set of a link.
pub fn append_link(alloc: Global, text: &mut Bytes, number: usize) -> Result<(), NoMemory>
    ensures { OnOk result (text.new ≡ text.old ++ link_name number) }
{
    let printed = decimal_text(alloc, number)?;
    text.append(b"k")?;
    text.append(printed.as_bytes())?;
    text.append(b".v")
}
