ghost use Rattle.std.specs.Prelude.{◌≡◌, ◌<◌, ◌↔◌, ℕ, length, IfOk, IsTrue};
ghost use Rattle.op_base.specs.Columns.{Passing};
ghost use Rattle.flow_graph.specs.Charts.{op_at, link_at, is_seq};
ghost use Rattle.flow_graph.specs.Forms.{sort_key};
ghost use Rattle.flow_derive.specs.Outlines.{outline_form};
ghost use Rattle.flow_rules.specs.Verdicts.{IsRouted, routed_at, unsorted};

use ds_value::NoMemory;
use flow_derive::{Outline, into_seq, keys_of, link_at, link_count, outline_at};
use flow_graph::{Mark, Shaped};
use std::alloc::Global;

/// Whether an input needs no order of its rows.
fn unsorted(outline: &Outline, port: u32) -> Result<bool, NoMemory>
    ensures { IfOk result (λ free. (passes : ℕ → Passing) → free ≡ unsorted (sort_key (outline_form outline.now passes) port)) }
{
    match outline {
        Outline::Import
        | Outline::Dsread(_, _)
        | Outline::ByRow
        | Outline::Tsort(_)
        | Outline::Lookup(_, _) => Ok(true),
        Outline::Remdup(keys) | Outline::Changecapture(keys) => Ok(keys.as_slice().is_empty()),
        Outline::Group(keys, hashes, _) => Ok(*hashes || keys.as_slice().is_empty()),
        Outline::Join(left, right) => {
            if port == 0 {
                Ok(left.as_slice().is_empty())
            } else {
                Ok(right.as_slice().is_empty())
            }
        }
        Outline::Merge(keys) => Ok(keys_of(keys, port as usize)?.as_slice().is_empty()),
        Outline::Funnel(sequence, keys) => Ok(*sequence || keys.as_slice().is_empty()),
    }
}

/// Whether a link's producer is sequential.
fn from_seq(shaped: &Shaped, link: u32) -> bool
    requires { link < length shaped.now.flow.links }
    ensures { result ≡ is_seq (op_at shaped.now (link_at shaped.now link).from).mark }
{
    shaped.is_shaped();
    let op = link_at(shaped, link).from;
    match shaped.flow().ops.as_slice()[op as usize].mark {
        Mark::Seq => true,
        Mark::Par | Mark::Stored => false,
    }
}

fn routed_at(shaped: &Shaped, link: u32) -> Result<bool, NoMemory>
    requires { link < length shaped.now.flow.links }
    ensures { IfOk result (λ routed. routed ≡ routed_at shaped.now link) }
{
    shaped.is_shaped();
    if shaped.written(link).is_some() {
        return Ok(true);
    }
    if !from_seq(shaped, link) || !into_seq(shaped, link) {
        return Ok(false);
    }
    let spec = link_at(shaped, link);
    let outline = outline_at(shaped, spec.to)?;
    let free = unsorted(&outline, spec.port)?;
    Ok(free)
}

/// Whether `choices` says what is chosen for each link of this flow.
#[tactic(auto, using(crate::proofs::Routing::none_routed, crate::proofs::Routing::more_routed, crate::proofs::Routing::all_routed, crate::proofs::Routing::not_routed))]
pub fn is_routed(shaped: &Shaped) -> Result<bool, NoMemory>
    ensures { IfOk result (λ routed. IsTrue routed ↔ IsRouted shaped.now) }
{
    for link in 0..link_count(shaped) {
        if !routed_at(shaped, link)? {
            return Ok(false);
        }
    }
    Ok(true)
}
