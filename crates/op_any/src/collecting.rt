//! Makes the collectors of links.

ghost use Rattle.std.specs.Prelude.{◌≡◌, ◌<◌, IfOk, [], true};
ghost use Rattle.kind_streams.specs.Collecting.{collector_stream};

use crate::AnyCollector;
use ds_value::{Copied, NoMemory};
use flow_graph::Route;
use op_base::Operator;
use op_collect::{gather, ordered, round, sort_merge};
use std::alloc::Global;

/// The collector of a link from `producers` partitions, into a sequential consumer or not.
pub fn make_collector(
    alloc: Global,
    route: &Route,
    sequential: bool,
    producers: u32,
) -> Result<AnyCollector, NoMemory>
    requires { 0 < producers }
    ensures stream { IfOk result (λ op. ⟦<AnyCollector as Operator>⟧.stream op ≡ collector_stream route.now sequential producers) }
    ensures suits { IfOk result (λ op. ⟦<AnyCollector as Operator>⟧.suits op ≡ (λ feeds. true)) }
    ensures stands { IfOk result (λ op. ⟦<AnyCollector as Operator>⟧.Stands op []) }
{
    match route {
        Route::RoundRobin => {
            if sequential {
                Ok(AnyCollector::Round(round(alloc, producers)?))
            } else {
                Ok(AnyCollector::Gather(gather(alloc, producers)?))
            }
        }
        Route::Ordered => Ok(AnyCollector::Ordered(ordered(alloc, producers)?)),
        Route::Merge(keys) => Ok(AnyCollector::SortMerge(sort_merge(
            alloc,
            producers,
            keys.copied()?,
        )?)),
        Route::Same | Route::Entire | Route::Hash(_) | Route::Modulus(_) | Route::Any => {
            Ok(AnyCollector::Gather(gather(alloc, producers)?))
        }
    }
}
