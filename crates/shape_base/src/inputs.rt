//! The schemas of an operator's inputs, by port.

ghost use Rattle.std.specs.Prelude.{◌≡◌, ◌<◌, map, length};
ghost use Rattle.shape_base.specs.Fields.{first_fields, second_fields};

use ds_schema::Schema;

pub fn first<'a>(ins: &[&'a Schema]) -> &'a Schema
    requires { 0 < length ins.now }
    ensures { result.now ≡ first_fields (map (λ s. s.now) ins.now) }
{
    ins[0]
}

pub fn second<'a>(ins: &[&'a Schema]) -> &'a Schema
    requires { 1 < length ins.now }
    ensures { result.now ≡ second_fields (map (λ s. s.now) ins.now) }
{
    ins[1]
}
