//! Printing values.

ghost use Rattle.std.specs.Prelude.{◌≡◌, ◌++◌, ◌∷◌, [], OnOk, IfOk, string_bytes};
ghost use Rattle.std.specs.Fmt.{decimal, signed_decimal};
ghost use Rattle.ds_schema.specs.SchemaText.{kind_text};
ghost use Rattle.osh_print.specs.OptionText.{has_quote, option_text, pair_text, quote_of, quoted, set_text, with_commas};
ghost use Rattle.osh_value.specs.ValueGrammar.{missing_word};

use ds_value::{Bytes, Kind, Name, NoMemory};
use flow_graph::SetSpec;
use op_base::Missing;
use osh_table::{OptName, option_word};
use std::alloc::{AllocError, Global};

fn has_quote(bytes: &[u8]) -> bool
    ensures { result ≡ has_quote bytes.now }
{
    bytes.iter().any(|byte| *byte == b'"')
}

fn quote_of(bytes: &[u8]) -> u8
    ensures { result ≡ quote_of bytes.now }
{
    if has_quote(bytes) { b'\'' } else { b'"' }
}

fn append_quoted(text: &mut Bytes, bytes: &[u8]) -> Result<(), NoMemory>
    ensures { OnOk result (text.new ≡ text.old ++ quoted bytes.now) }
{
    let quote = quote_of(bytes);
    text.push(quote)?;
    text.append(bytes)?;
    text.push(quote)
}

/// An option with its value.
pub fn append_option(text: &mut Bytes, opt: OptName, value: &[u8]) -> Result<(), NoMemory>
    ensures { OnOk result (text.new ≡ text.old ++ option_text opt value.now) }
{
    text.append(b" ")?;
    text.append(option_word(opt))?;
    text.append(b" ")?;
    append_quoted(text, value)
}

pub fn decimal_text(alloc: Global, number: usize) -> Result<String, AllocError>
    ensures { IfOk result (λ text. string_bytes text ≡ decimal number) }
{
    format!(in alloc; "{number}")
}

fn append_width(alloc: Global, text: &mut Bytes, width: u32) -> Result<(), NoMemory>
    ensures { OnOk result (text.new ≡ text.old ++ decimal width) }
{
    let number = decimal_text(alloc, width as usize)?;
    text.append(number.as_bytes())
}

pub fn print_widths(alloc: Global, widths: &[u32]) -> Result<Bytes, NoMemory>
    ensures { IfOk result (λ text. text ≡ with_commas decimal widths.now) }
{
    let mut text = Bytes::new(alloc);
    let [first, others @ ..] = widths else {
        return Ok(text);
    };
    append_width(alloc, &mut text, *first)?;
    for width in others {
        text.append(b",")?;
        append_width(alloc, &mut text, *width)?;
    }
    Ok(text)
}

fn append_pair(text: &mut Bytes, pair: &(Name, Name)) -> Result<(), NoMemory>
    ensures { OnOk result (text.new ≡ text.old ++ pair_text pair.now) }
{
    text.append(pair.0.as_slice())?;
    text.append(b"=")?;
    text.append(pair.1.as_slice())
}

pub fn print_pairs(alloc: Global, pairs: &[(Name, Name)]) -> Result<Bytes, NoMemory>
    ensures { IfOk result (λ text. text ≡ with_commas pair_text pairs.now) }
{
    let mut text = Bytes::new(alloc);
    let [first, others @ ..] = pairs else {
        return Ok(text);
    };
    append_pair(&mut text, first)?;
    for pair in others {
        text.append(b",")?;
        append_pair(&mut text, pair)?;
    }
    Ok(text)
}

fn append_case(alloc: Global, text: &mut Bytes, case: i64) -> Result<(), NoMemory>
    ensures { OnOk result (text.new ≡ text.old ++ signed_decimal case) }
{
    let number = format!(in alloc; "{case}")?;
    text.append(number.as_bytes())
}

pub fn print_cases(alloc: Global, cases: &[i64]) -> Result<Bytes, NoMemory>
    ensures { IfOk result (λ text. text ≡ with_commas signed_decimal cases.now) }
{
    let mut text = Bytes::new(alloc);
    let [first, others @ ..] = cases else {
        return Ok(text);
    };
    append_case(alloc, &mut text, *first)?;
    for case in others {
        text.append(b",")?;
        append_case(alloc, &mut text, *case)?;
    }
    Ok(text)
}

fn kind_text(alloc: Global, kind: Kind) -> Result<String, AllocError>
    ensures { IfOk result (λ text. string_bytes text ≡ kind_text kind) }
{
    match kind {
        Kind::Int(bits) => format!(in alloc; "int{bits}"),
        Kind::UInt(bits) => format!(in alloc; "uint{bits}"),
        Kind::Dec { p, s } => format!(in alloc; "decimal[{p},{s}]"),
        Kind::Text { max, fixed: true } => format!(in alloc; "string[{max}]"),
        Kind::Text { max, fixed: false } => format!(in alloc; "string[max={max}]"),
        Kind::Date => format!(in alloc; "date"),
    }
}

pub fn print_set(alloc: Global, spec: &SetSpec) -> Result<Bytes, NoMemory>
    ensures { IfOk result (λ text. text ≡ set_text spec.now) }
{
    let kind = kind_text(alloc, spec.field.kind)?;
    let nullable: &[u8] = if spec.field.nullable {
        b"nullable "
    } else {
        b""
    };
    let mut text = Bytes::new(alloc);
    text.append(spec.field.name.as_slice())?;
    text.append(b": ")?;
    text.append(nullable)?;
    text.append(kind.as_bytes())?;
    text.append(b" = ")?;
    text.append(spec.expr.as_slice())?;
    Ok(text)
}

pub fn missing_word(missing: Missing) -> &'static [u8]
    ensures { result.now ≡ missing_word missing }
{
    match missing {
        Missing::Continue => b"continue",
        Missing::Drop => b"drop",
        Missing::Fail => b"fail",
        Missing::Reject => b"reject",
    }
}
