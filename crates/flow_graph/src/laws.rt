//! Laws of what operators mean. Each function's contract is its law, and calling it does nothing.

ghost use Rattle.flow_graph.specs.Laws.{WidthsKept, SortsUnseen, FaultsUnsorted, CopyShape, FilterShape, SwitchShape, ModifyShape, TransformShape, SinkShape};

/// Rows keep the widths of their links.
pub fn widths_are_kept()
    ensures { WidthsKept }
{}

/// What an operator gives, rows and faults, is the same where an input is sorted as it needs.
pub fn sorts_are_unseen()
    ensures rows { SortsUnseen }
    ensures faults { FaultsUnsorted }
{}

/// The rules of the operators by rows have their shapes.
pub fn row_rules_are_shaped()
    ensures copy { CopyShape }
    ensures filter { FilterShape }
    ensures switch { SwitchShape }
    ensures modify { ModifyShape }
    ensures transform { TransformShape }
    ensures sink { SinkShape }
{}
