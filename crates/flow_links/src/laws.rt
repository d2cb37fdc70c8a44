ghost use Rattle.flow_links.specs.Outputs.{ShapedIsLinked};

/// Where the links of a flow are numbered by its operators' outputs, its shape says how many
/// outputs each operator has.
pub fn outputs_are_linked()
    ensures { ShapedIsLinked }
{}
