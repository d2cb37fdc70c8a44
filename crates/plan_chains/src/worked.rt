//! A plan with a chain, and a run of it.

ghost use Rattle.std.specs.Prelude.{◌≡◌, ◌∷◌, []};
ghost use Rattle.streams.specs.Wiring.{IsWired};
ghost use Rattle.plan_chains.specs.Chains.{CanChain};
ghost use Rattle.plan_chains.specs.Worked.{as_one, in_turn, sent_rows};

/// Three operators in turn are one, which sends the rows sorted.
pub fn three_in_turn()
    ensures wired { IsWired in_turn }
    ensures can { CanChain in_turn (1 ∷ 2 ∷ []) }
    ensures one { as_one.order ≡ 0 ∷ [] }
    ensures sent { sent_rows ≡ 2 ∷ 3 ∷ 5 ∷ [] }
{}
