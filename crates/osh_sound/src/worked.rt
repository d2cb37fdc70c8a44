//! Texts with what is read of them.

ghost use Rattle.std.specs.Prelude.{◌≡◌, ◌∷◌, [], codes, true};
ghost use Rattle.flow_graph.specs.declared.flow.Method.TheVariants as method;
ghost use Rattle.flow_graph.specs.declared.flow.Flag.TheVariants as flag;
ghost use Rattle.osh_read.specs.declared.fault.OshWhy.TheVariants as why;
ghost use Rattle.osh_read.specs.Flows.{flow_of};
ghost use Rattle.osh_sound.specs.WorkedTexts.{bad, link, links_read};

/// Texts with their first fault.
pub fn refused_texts()
    ensures unclosed { flow_of (codes "import -file 'in") ≡ bad 13 why.Token }
    ensures directive_alone { flow_of (codes "nopart | copy") ≡ bad 7 why.Syntax }
    ensures directive_last { flow_of (codes "nopart;") ≡ bad 7 why.Syntax }
    ensures directive_late { flow_of (codes "copy; nopart") ≡ bad 6 why.UnknownOperator }
    ensures missing_ahead { flow_of (codes "import [seq] $") ≡ bad 0 why.MissingOption }
    ensures cut_behind { flow_of (codes "import $") ≡ bad 7 why.Token }
    ensures no_value { flow_of (codes "tsort -key") ≡ bad 6 why.BadValue }
    ensures no_second_value { flow_of (codes "tsort -key a -key |") ≡ bad 13 why.BadValue }
    ensures second_cut { flow_of (codes "tsort -key a -key $") ≡ bad 13 why.DoubleOption }
    ensures excluded { flow_of (codes "funnel -sequence -sort a") ≡ bad 17 why.DoubleOption }
    ensures flag_value { flow_of (codes "remdup -key a -last x") ≡ bad 20 why.BadValue }
    ensures unknown_option { flow_of (codes "copy -x") ≡ bad 5 why.UnknownOption }
    ensures no_expression { flow_of (codes "filter -reject") ≡ bad 0 why.MissingOption }
    ensures no_equals { flow_of (codes "transform -set 'a: date b'") ≡ bad 15 why.BadValue }
    ensures equal_cases { flow_of (codes "switch -cases '0,-0' -on a") ≡ bad 14 why.BadValue }
    ensures mark { flow_of (codes "export -file a [par]") ≡ bad 15 why.Constraint }
    ensures mark_broken { flow_of (codes "export -file a [par x") ≡ bad 20 why.Syntax }
    ensures mark_first { flow_of (codes "dsread -ds a [seq] $") ≡ bad 13 why.Constraint }
    ensures name_doubled { flow_of (codes "copy < [hash a,a]a") ≡ bad 15 why.Syntax }
    ensures unjoined { flow_of (codes "copy > a.v; copy < b.v") ≡ bad 5 why.Unjoined }
    ensures other_place { flow_of (codes "nopart;") ≡ bad 6 why.Syntax → ⊥ }
{}

/// Flows with their links.
pub fn joined_texts()
    ensures numbered { links_read (flow_of (codes "copy > a.v | copy < [modulus x set] a.v")) ≡ link 0 0 1 0 method.Auto flag.Prop ∷ link 0 1 1 1 (method.Modulus (codes "x")) flag.Set ∷ [] }
    ensures set_is_auto { links_read (flow_of (codes "copy > a | [set] copy < [merge k desc prop]a")) ≡ link 0 0 1 0 method.Auto flag.Set ∷ link 0 1 1 1 (method.Merge ((codes "k", true) ∷ [])) flag.Prop ∷ [] }
{}
