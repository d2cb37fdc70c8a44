//! The links of a flow.

ghost use Rattle.std.specs.Prelude.{◌≡◌, ◌<◌, ◌^◌, length, get_or};
ghost use Rattle.flow_score.specs.VerdictText.{links_to};

use flow_graph::LinkSpec;

/// The first link into an operator, or 0 where it has none.
#[tactic(auto, using(crate::proofs::Ranges::filter_skip, crate::proofs::Ranges::filter_take))]
pub fn input_link(links: &[LinkSpec], op: u32) -> u32
    requires { length links.now < 2 ^ 32 }
    ensures { result ≡ get_or (links_to links.now op) 0 0 }
{
    for link in 0..links.len() {
        if links[link].to == op {
            return link as u32;
        }
    }
    0
}
