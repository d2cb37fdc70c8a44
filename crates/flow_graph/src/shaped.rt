ghost use Rattle.std.specs.Prelude.{◌≡◌, ◌<◌, length, get_or, option_copied, [], None};
ghost use Rattle.flow_graph.specs.Charts.{no_parts};
ghost use Rattle.flow_graph.specs.FlowShape.{IsShape};

use crate::{Flow, OpParts, Route, Stored};
use ds_schema::Schema;
use ds_value::Items;
use std::marker::Model;

/// A flow with what was found of its shape.
#[derive(Debug, Drop)]
pub struct Shaped {
    flow: Flow,
    schemas: Items<Schema>,
    parts: Items<OpParts>,
    written: Items<Option<Route>>,
    order: Items<u32>,
    stored: Items<Option<Stored>>,
}

impl Model for Shaped {
    ghost use Rattle.std.specs.Coded.{codes};
    ghost use Rattle.ds_expr.specs.contracts.node.Node as tree;
    ghost use Rattle.flow_graph.specs.Charts.{Chart};
    ghost use Rattle.flow_graph.specs.FlowShape.{IsShape};

    ghost Value = { Chart };

    ghost coded = { Prim.hlevel (codes, tree.the_row.coded) };

    ghost view = { λ s. record { flow = s.flow; schemas = s.schemas; parts = s.parts; written = s.written; order = s.order; stored = s.stored } };

    ghost invariant = { λ s. IsShape (record { flow = s.flow; schemas = s.schemas; parts = s.parts; written = s.written; order = s.order; stored = s.stored }) };
}

impl Shaped {
    pub fn new(
        flow: Flow,
        schemas: Items<Schema>,
        parts: Items<OpParts>,
        written: Items<Option<Route>>,
        order: Items<u32>,
        stored: Items<Option<Stored>>,
    ) -> Shaped
        requires { IsShape (record { flow = flow; schemas = schemas; parts = parts; written = written; order = order; stored = stored }) }
        ensures { result ≡ record { flow = flow; schemas = schemas; parts = parts; written = written; order = order; stored = stored } }
    {
        Shaped {
            flow,
            schemas,
            parts,
            written,
            order,
            stored,
        }
    }

    /// Nothing is done: the contract says what each flow of this type keeps.
    pub fn is_shaped(&self)
        ensures { IsShape self.now }
    {
        let _ = &self.flow;
    }

    pub fn flow(&self) -> &Flow
        ensures { result.now ≡ self.now.flow }
    {
        &self.flow
    }

    /// The columns of a link.
    pub fn schema(&self, link: u32) -> &Schema
        requires { link < length self.now.schemas }
        ensures { result.now ≡ get_or self.now.schemas link [] }
    {
        &self.schemas.as_slice()[link as usize]
    }

    pub fn parts(&self, op: u32) -> &OpParts
        requires { op < length self.now.parts }
        ensures { result.now ≡ get_or self.now.parts op no_parts }
    {
        &self.parts.as_slice()[op as usize]
    }

    /// The route that is written for a link; none where its method is auto.
    pub fn written(&self, link: u32) -> Option<&Route>
        requires { link < length self.now.written }
        ensures { option_copied result ≡ get_or self.now.written link None }
    {
        self.written.as_slice()[link as usize].as_ref()
    }

    /// The operators, each behind those that feed it.
    pub fn order(&self) -> &[u32]
        ensures { result.now ≡ self.now.order }
    {
        self.order.as_slice()
    }

    /// The data set that a dsread reads; none for other operators.
    pub fn stored(&self, op: u32) -> Option<&Stored>
        requires { op < length self.now.stored }
        ensures { option_copied result ≡ get_or self.now.stored op None }
    {
        self.stored.as_slice()[op as usize].as_ref()
    }
}
