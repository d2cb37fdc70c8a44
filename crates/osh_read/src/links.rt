//! Joining the stages of a flow. Ports and operators are numbered in `u32`, which no text that
//! fits into memory exceeds.

ghost use Rattle.std.specs.Prelude.{◌≡◌, ◌&&◌, ◌==◌, ◌+◌, ◌++◌, IfOk, OnOk, length, filter};
ghost use Rattle.std.specs.Option.{option_copied};
ghost use Rattle.osh_read.specs.Joining.{all_redirects, is_joined, link_from, link_of, links, links_from, links_of, name_of, next_input, next_output, ops, output_of, outputs, outputs_of, pipe_link, pipe_ports, place_of, ports_before, reads, source, unjoined, unjoined_in, writes};

use crate::stage::{Joint, Redirect, Stage};
use ds_value::{Bytes, Copied, Items, NoMemory};
use flow_graph::{LinkSpec, OpSpec};
use std::alloc::Global;

/// An output to a virtual data set.
#[derive(Debug, Drop)]
pub struct Output {
    pub name: Bytes,
    pub from: u32,
    pub out: u32,
}

impl Copied for Redirect {
    fn copied(&self) -> Result<Redirect, NoMemory> {
        match self {
            Redirect::In {
                at,
                name,
                method,
                flag,
            } => Ok(Redirect::In {
                at: *at,
                name: name.copied()?,
                method: method.copied()?,
                flag: *flag,
            }),
            Redirect::Out { at, name } => Ok(Redirect::Out {
                at: *at,
                name: name.copied()?,
            }),
        }
    }
}

fn name_of(redirect: &Redirect) -> &[u8]
    ensures { result.now ≡ name_of redirect.now }
{
    match redirect {
        Redirect::In {
            at: _,
            name,
            method: _,
            flag: _,
        } => name.as_slice(),
        Redirect::Out { at: _, name } => name.as_slice(),
    }
}

fn place_of(redirect: &Redirect) -> usize
    ensures { result ≡ place_of redirect.now }
{
    match redirect {
        Redirect::In {
            at,
            name: _,
            method: _,
            flag: _,
        } => *at,
        Redirect::Out { at, name: _ } => *at,
    }
}

fn writes(name: &[u8], redirect: &Redirect) -> bool
    ensures { result ≡ writes name.now redirect.now }
{
    match redirect {
        Redirect::In {
            at: _,
            name: _,
            method: _,
            flag: _,
        } => false,
        Redirect::Out { at: _, name: other } => other.as_slice() == name,
    }
}

fn reads(name: &[u8], redirect: &Redirect) -> bool
    ensures { result ≡ reads name.now redirect.now }
{
    match redirect {
        Redirect::In {
            at: _,
            name: other,
            method: _,
            flag: _,
        } => other.as_slice() == name,
        Redirect::Out { at: _, name: _ } => false,
    }
}

fn write_count(all: &[Redirect], name: &[u8]) -> usize
    ensures { result ≡ length (filter (writes name.now) all.now) }
{
    all.iter()
        .filter(|redirect| writes(name, *redirect))
        .count()
}

fn read_count(all: &[Redirect], name: &[u8]) -> usize
    ensures { result ≡ length (filter (reads name.now) all.now) }
{
    all.iter().filter(|redirect| reads(name, *redirect)).count()
}

#[tactic(auto, unfolding(crate::specs::Joining::is_joined))]
fn is_joined(all: &[Redirect], name: &[u8]) -> bool
    ensures { result ≡ is_joined all.now name.now }
{
    write_count(all, name) == 1 && read_count(all, name) == 1
}

fn unjoined_in(all: &[Redirect], rest: &[Redirect]) -> Option<usize>
    ensures { result ≡ unjoined_in all.now rest.now }
{
    for redirect in rest {
        if !is_joined(all, name_of(redirect)) {
            return Some(place_of(redirect));
        }
    }
    None
}

fn append(all: &mut Items<Redirect>, more: &[Redirect]) -> Result<(), NoMemory>
    ensures { OnOk result (all.new ≡ all.old ++ more.now) }
{
    for redirect in more {
        all.push(redirect.copied()?)?;
    }
    Ok(())
}

fn all_redirects(alloc: Global, stages: &[Stage]) -> Result<Items<Redirect>, NoMemory>
    ensures { IfOk result (λ all. all ≡ all_redirects stages.now) }
{
    let mut all = Items::new(alloc);
    for stage in stages {
        append(&mut all, stage.redirects.as_slice())?;
    }
    Ok(all)
}

/// The place of the first redirect whose name isn't written once and read once.
pub fn unjoined(alloc: Global, stages: &[Stage]) -> Result<Option<usize>, NoMemory>
    ensures { IfOk result (λ at. at ≡ unjoined stages.now) }
{
    let all = all_redirects(alloc, stages)?;
    Ok(unjoined_in(all.as_slice(), all.as_slice()))
}

fn next(number: u32) -> Result<u32, NoMemory>
    ensures { IfOk result (λ more. more ≡ number + 1) }
{
    match number.checked_add(1) {
        Some(more) => Ok(more),
        None => Err(NoMemory),
    }
}

fn pipe_ports(joined: &Joint) -> u32
    ensures { result ≡ pipe_ports joined.now }
{
    match joined {
        Joint::Apart => 0,
        Joint::Piped(_, _) => 1,
    }
}

fn ports_before(stages: &[Stage]) -> u32
    ensures { result ≡ ports_before stages.now }
{
    match stages {
        [] => 0,
        [stage, ..] => pipe_ports(&stage.joined),
    }
}

/// Appends the output to a data set, and gives the next port.
fn output_of(
    outs: &mut Items<Output>,
    from: u32,
    out: u32,
    redirect: &Redirect,
) -> Result<u32, NoMemory>
    ensures outputs { OnOk result (outs.new ≡ outs.old ++ output_of from out redirect.now) }
    ensures port { IfOk result (λ port. port ≡ next_output out redirect.now) }
{
    match redirect {
        Redirect::In {
            at: _,
            name: _,
            method: _,
            flag: _,
        } => Ok(out),
        Redirect::Out { at: _, name } => {
            let name = name.copied()?;
            outs.push(Output { name, from, out })?;
            next(out)
        }
    }
}

fn outputs_of(
    outs: &mut Items<Output>,
    from: u32,
    out: u32,
    redirects: &[Redirect],
) -> Result<(), NoMemory>
    ensures { OnOk result (outs.new ≡ outs.old ++ outputs_of from out redirects.now) }
{
    let mut port = out;
    for redirect in redirects {
        port = output_of(outs, from, port, redirect)?;
    }
    Ok(())
}

/// All outputs to data sets.
fn outputs(alloc: Global, stages: &[Stage]) -> Result<Items<Output>, NoMemory>
    ensures { IfOk result (λ outs. outs ≡ outputs 0 stages.now) }
{
    let mut outs = Items::new(alloc);
    let mut from = 0;
    let mut rest = stages;
    while let [stage, more @ ..] = rest {
        let redirects = stage.redirects.as_slice();
        outputs_of(&mut outs, from, ports_before(more), redirects)?;
        from = next(from)?;
        rest = more;
    }
    Ok(outs)
}

fn source<'a>(outs: &'a [Output], name: &[u8]) -> Option<&'a Output>
    ensures { option_copied result ≡ source outs.now name.now }
{
    for output in outs {
        if output.name.as_slice() == name {
            return Some(output);
        }
    }
    None
}

fn link_from(
    links: &mut Items<LinkSpec>,
    output: Option<&Output>,
    to: u32,
    port: u32,
    redirect: &Redirect,
) -> Result<(), NoMemory>
    ensures { OnOk result (links.new ≡ links.old ++ link_from (option_copied output.entry) to port redirect.now) }
{
    match (output, redirect) {
        (
            Some(output),
            Redirect::In {
                at: _,
                name: _,
                method,
                flag,
            },
        ) => {
            let method = method.copied()?;
            links.push(LinkSpec {
                from: output.from,
                out: output.out,
                to,
                port,
                method,
                flag: *flag,
            })
        }
        _ => Ok(()),
    }
}

fn next_input(port: u32, redirect: &Redirect) -> Result<u32, NoMemory>
    ensures { IfOk result (λ more. more ≡ next_input port redirect.now) }
{
    match redirect {
        Redirect::In {
            at: _,
            name: _,
            method: _,
            flag: _,
        } => next(port),
        Redirect::Out { at: _, name: _ } => Ok(port),
    }
}

/// Appends the link of an input from a data set, and gives the next port.
fn link_of(
    links: &mut Items<LinkSpec>,
    outs: &[Output],
    to: u32,
    port: u32,
    redirect: &Redirect,
) -> Result<u32, NoMemory>
    ensures links { OnOk result (links.new ≡ links.old ++ link_of outs.now to port redirect.now) }
    ensures port { IfOk result (λ more. more ≡ next_input port redirect.now) }
{
    let output = source(outs, name_of(redirect));
    link_from(links, output, to, port, redirect)?;
    next_input(port, redirect)
}

fn links_of(
    links: &mut Items<LinkSpec>,
    outs: &[Output],
    to: u32,
    first: u32,
    redirects: &[Redirect],
) -> Result<(), NoMemory>
    ensures { OnOk result (links.new ≡ links.old ++ links_of outs.now to first redirects.now) }
{
    let mut port = first;
    for redirect in redirects {
        port = link_of(links, outs, to, port, redirect)?;
    }
    Ok(())
}

fn pipe_link(links: &mut Items<LinkSpec>, to: u32, joined: &Joint) -> Result<(), NoMemory>
    ensures { OnOk result (links.new ≡ links.old ++ pipe_link to joined.now) }
{
    match joined {
        Joint::Apart => Ok(()),
        Joint::Piped(method, flag) => {
            let method = method.copied()?;
            links.push(LinkSpec {
                from: to.saturating_sub(1),
                out: 0,
                to,
                port: 0,
                method,
                flag: *flag,
            })
        }
    }
}

fn links_from(alloc: Global, outs: &[Output], stages: &[Stage]) -> Result<Items<LinkSpec>, NoMemory>
    ensures { IfOk result (λ links. links ≡ links_from outs.now 0 stages.now) }
{
    let mut links = Items::new(alloc);
    let mut to = 0;
    for stage in stages {
        pipe_link(&mut links, to, &stage.joined)?;
        let first = pipe_ports(&stage.joined);
        links_of(&mut links, outs, to, first, stage.redirects.as_slice())?;
        to = next(to)?;
    }
    Ok(links)
}

/// The links of all stages.
pub fn links(alloc: Global, stages: &[Stage]) -> Result<Items<LinkSpec>, NoMemory>
    ensures { IfOk result (λ all. all ≡ links stages.now) }
{
    let outs = outputs(alloc, stages)?;
    links_from(alloc, outs.as_slice(), stages)
}

/// The operators of all stages.
pub fn ops(alloc: Global, stages: &[Stage]) -> Result<Items<OpSpec>, NoMemory>
    ensures { IfOk result (λ all. all ≡ ops stages.now) }
{
    let mut all = Items::new(alloc);
    for stage in stages {
        let kind = stage.kind.copied()?;
        all.push(OpSpec {
            kind,
            mark: stage.mark,
        })?;
    }
    Ok(all)
}
