//! The laws of link states. Each function's contract is its law, and calling it does nothing.

ghost use Rattle.std.specs.Prelude.{ℕ, Bool, List, Option, true, false};
ghost use Rattle.ds_schema.specs.declared.key.Key.{Key};
ghost use Rattle.op_base.specs.declared.fault.Fault.{Fault};
ghost use Rattle.op_base.specs.Meanings.{Line, Segment, Grouping, Join, Merging, Looking, Capture};
ghost use Rattle.op_base.specs.RowOperators.{RowRule};
ghost use Rattle.ds_place.specs.declared.place.Place.{Place};
ghost use Rattle.flow_graph.specs.declared.route.Route.TheVariants as route;
ghost use Rattle.flow_graph.specs.Operators.{import, dsread, by_row, tsort, remdup, group, join, merge, lookup, changecapture, funnel, funnel_sequence, funnel_sort};
ghost use Rattle.flow_rules.specs.Laws.{OperatorHolds, FaultsAgree, RouteHolds, SortHolds, RegainHolds, RefiningHolds, AgreementIsWhole, ExactIsWhole, FlowsKeep, FlowFaultsAgree, SinksMeet, OneMeaning};
ghost use Rattle.flow_rules.specs.Verdicts.{AcceptedIsSound, OneVerdict};
ghost use Rattle.flow_rules.specs.WrongRules.{RemdupWhereColocated, RepartitionAgreesAlone, AnyKeepsSort, JoinsLieApart, RegainWithoutSort};

/// What each operator puts on its outputs is as the state says that is derived for them.
pub fn operators_keep()
    ensures import { (lines : List Line) (rejects : Bool) (beyond : List Fault) → OperatorHolds (import lines rejects beyond) }
    ensures dsread { (segments : List Segment) (declared : Option Place) → OperatorHolds (dsread segments declared) }
    ensures by_row { (rule : RowRule) → OperatorHolds (by_row rule) }
    ensures tsort { (keys : List Key) → OperatorHolds (tsort keys) }
    ensures remdup { (last : Bool) (keys : List Key) → OperatorHolds (remdup last keys) }
    ensures group { (g : Grouping) → OperatorHolds (group g) }
    ensures join { (j : Join) → OperatorHolds (join j) }
    ensures merge { (m : Merging) → OperatorHolds (merge m) }
    ensures lookup { (k : Looking) → OperatorHolds (lookup k) }
    ensures changecapture { (c : Capture) → OperatorHolds (changecapture c) }
    ensures funnel { OperatorHolds funnel }
    ensures funnel_sequence { OperatorHolds funnel_sequence }
    ensures funnel_sort { (keys : List Key) → OperatorHolds (funnel_sort keys) }
{}

/// Its faults on the partitions are those on the whole.
pub fn faults_agree()
    ensures { FaultsAgree }
{}

/// What comes at a consumer is as the state says that its route gives.
pub fn routes_keep()
    ensures same { (seq : Bool) → RouteHolds seq route.Same }
    ensures round_robin { RouteHolds false route.RoundRobin }
    ensures in_turn { RouteHolds true route.RoundRobin }
    ensures entire { (seq : Bool) → RouteHolds seq route.Entire }
    ensures hash { (seq : Bool) (K : List ℕ) → RouteHolds seq (route.Hash K) }
    ensures modulus { (seq : Bool) (c : ℕ) → RouteHolds seq (route.Modulus c) }
    ensures any { (seq : Bool) → RouteHolds seq route.Any }
    ensures ordered { (seq : Bool) → RouteHolds seq route.Ordered }
    ensures merge { (seq : Bool) (keys : List Key) → RouteHolds seq (route.Merge keys) }
{}

/// So is what an inserted sort leaves.
pub fn sorts_keep()
    ensures { SortHolds }
{}

/// Refining keeps what a state says: regain by itself, and both rules on rows of one width.
pub fn refining_keeps()
    ensures regain { RegainHolds }
    ensures both { RefiningHolds }
{}

/// What an agree set says of all rows.
pub fn agreement_is_whole()
    ensures bag { AgreementIsWhole }
    ensures exact { ExactIsWhole }
{}

/// In a legal run of an accepted flow, each link keeps what its state says, as many rows were
/// put on it as the meaning has, and the faults are those of the meaning.
pub fn all_flows_keep()
    ensures links { FlowsKeep }
    ensures faults { FlowFaultsAgree }
{}

/// A sink gets what the grade of its link promises.
pub fn sinks_meet_grades()
    ensures { SinksMeet }
{}

/// The equations of a flow's meaning determine the list on each link.
pub fn one_meaning()
    ensures { OneMeaning }
{}

/// A flow has one verdict.
pub fn one_verdict()
    ensures { OneVerdict }
{}

/// What an accepted verdict says of states, choices and needs is what the law of flows asks.
pub fn accepted_is_sound()
    ensures { AcceptedIsSound }
{}

/// Rules that do not hold, each refuted by an example.
pub fn wrong_rules_fail()
    ensures remdup_where_colocated { RemdupWhereColocated → ⊥ }
    ensures repartition_agrees_alone { RepartitionAgreesAlone → ⊥ }
    ensures any_keeps_sort { AnyKeepsSort → ⊥ }
    ensures joins_lie_apart { JoinsLieApart → ⊥ }
    ensures regain_without_sort { RegainWithoutSort → ⊥ }
{}
