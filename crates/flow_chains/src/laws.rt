ghost use Rattle.flow_chains.specs.CombinedLinks.{CombinedLinksChain};

/// The combined links of a shaped flow's plan can be combined, all of them, where the operators'
/// streams have one output, or one port, as their kinds have.
pub fn combined_links_chain()
    ensures { CombinedLinksChain }
{}
