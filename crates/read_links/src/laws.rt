ghost use Rattle.read_links.specs.ReadOutputs.{ReadLinksOutputs, ReadNumbersOutputs};

/// The links that leave an operator of a flow that is read are numbered from 0, and where the flow
/// has a shape each of the operator's outputs is on one of them.
pub fn read_outputs_are_linked()
    ensures numbered { ReadNumbersOutputs }
    ensures linked { ReadLinksOutputs }
{}
