ghost use Rattle.flow_shape.specs.Answers.{OneShape, ShapeOrFault, OneFault};

/// A flow has one shape, or one first fault.
pub fn one_answer()
    ensures shape { OneShape }
    ensures apart { ShapeOrFault }
    ensures fault { OneFault }
{}
