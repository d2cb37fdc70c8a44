//! Texts with what is printed of their flows.

ghost use Rattle.std.specs.Prelude.{◌≡◌, ◌++◌, codes, Some};
ghost use Rattle.osh_back.specs.WorkedPrints.{printed_again};

/// Flows in which pipes become links with names, and a schema and a file get their quotes.
pub fn printed_texts()
    ensures piped { printed_again (codes "import -file \"in.txt\" -schema 'record ( id: int32; name: string[max=10] )' | copy [seq] | export -file out.txt") ≡ Some (codes "import -file \"in.txt\" -schema \"record ( id: int32; name: string[max=10]; )\" > k0.v;\n" ++ (codes "copy [seq] < k0.v > k1.v;\n" ++ codes "export -file \"out.txt\" < k1.v;\n")) }
    ensures defaults { printed_again (codes "copy [par] > a.v; tsort -key 'k' < [auto prop] a.v") ≡ Some (codes "copy > k0.v;\ntsort -key \"k\" < k0.v;\n") }
{}
