//! The line of an answer on err.

ghost use Rattle.std.specs.Prelude.{◌≡◌, ◌++◌, IfOk, string_bytes, codes};
ghost use Rattle.std.specs.Fmt.{decimal};
ghost use Rattle.osh_ends.specs.Ends.{bad_flow, bad_config, bad_shape, absent, mismatch, crowded};
ghost use Rattle.osh_ends.specs.Leaves.{line, flow_why_text, config_why_text, shape_why_text};

use config_read::ConfigWhy;
use ds_value::{Bytes, Name, NoMemory};
use op_shape::ShapeWhy;
use osh_read::OshWhy;
use std::alloc::{AllocError, Global};

fn flow_why(why: OshWhy) -> &'static str
    ensures { result.now ≡ flow_why_text why }
{
    match why {
        OshWhy::TooLong => "TooLong",
        OshWhy::Token => "Token",
        OshWhy::Syntax => "Syntax",
        OshWhy::UnknownOperator => "UnknownOperator",
        OshWhy::UnknownOption => "UnknownOption",
        OshWhy::BadValue => "BadValue",
        OshWhy::DoubleOption => "DoubleOption",
        OshWhy::MissingOption => "MissingOption",
        OshWhy::Constraint => "Constraint",
        OshWhy::TooMany => "TooMany",
        OshWhy::Unjoined => "Unjoined",
    }
}

fn config_why(why: ConfigWhy) -> &'static str
    ensures { result.now ≡ config_why_text why }
{
    match why {
        ConfigWhy::TooLong => "TooLong",
        ConfigWhy::Token => "Token",
        ConfigWhy::Syntax => "Syntax",
        ConfigWhy::Name => "Name",
        ConfigWhy::DoubleNode => "DoubleNode",
        ConfigWhy::TooMany => "TooMany",
        ConfigWhy::NoDefault => "NoDefault",
    }
}

fn shape_why(why: ShapeWhy) -> &'static str
    ensures { result.now ≡ shape_why_text why }
{
    match why {
        ShapeWhy::Ports => "Ports",
        ShapeWhy::Cycle => "Cycle",
        ShapeWhy::Method => "Method",
        ShapeWhy::Field => "Field",
        ShapeWhy::Kind => "Kind",
        ShapeWhy::Expression => "Expression",
        ShapeWhy::Schemas => "Schemas",
        ShapeWhy::Double => "Double",
        ShapeWhy::Wide => "Wide",
        ShapeWhy::Files => "Files",
    }
}

pub fn flow_line(alloc: Global, at: usize, why: OshWhy) -> Result<String, AllocError>
    ensures { IfOk result (λ text. string_bytes text ≡ line (bad_flow at why)) }
{
    let why = flow_why(why);
    format!(in alloc; "osh: flow {at} {why}\n")
}

pub fn config_line(alloc: Global, at: usize, why: ConfigWhy) -> Result<String, AllocError>
    ensures { IfOk result (λ text. string_bytes text ≡ line (bad_config at why)) }
{
    let why = config_why(why);
    format!(in alloc; "osh: configuration {at} {why}\n")
}

pub fn shape_line(alloc: Global, why: ShapeWhy, op: u32) -> Result<String, AllocError>
    ensures { IfOk result (λ text. string_bytes text ≡ line (bad_shape why op)) }
{
    let why = shape_why(why);
    format!(in alloc; "osh: shape {why} op {op}\n")
}

pub fn mismatch_line(alloc: Global, link: u32, from: u32, to: u32) -> Result<String, AllocError>
    ensures { IfOk result (λ text. string_bytes text ≡ line (mismatch link from to)) }
{
    format!(in alloc; "osh: degree link {link} {from} {to}\n")
}

pub fn players_line(alloc: Global, players: u32) -> Result<String, AllocError>
    ensures { IfOk result (λ text. string_bytes text ≡ line (crowded players)) }
{
    format!(in alloc; "osh: players {players}\n")
}

pub fn absent_line(alloc: Global, name: &Name) -> Result<Bytes, NoMemory>
    ensures { IfOk result (λ text. text ≡ line (absent name.now)) }
{
    let mut line = Bytes::new(alloc);
    line.append(b"osh: absent \"")?;
    line.append(name.as_slice())?;
    line.append(b"\"\n")?;
    Ok(line)
}
