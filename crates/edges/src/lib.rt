// The pairs of cases at the edges of the rules, from the definitions that the calls use.
#![tactic(auto)]

ghost use Rattle.std.specs.Prelude.{◌≡◌};
ghost use Rattle.edges.specs.Edges.{EdgePairs};

// The pairs hold, all of them. The 0 was promised and says nothing; the law is in the clauses.
pub fn edge_pairs() -> u8
    ensures value { result ≡ 0 }
    ensures pairs { EdgePairs }
{
    0
}
