ghost use Rattle.std.specs.Prelude.{◌≡◌};
ghost use Rattle.blocks.specs.Laws.{ReadsBack, WrittenOnly, ByNumber};

// The blocks that are taken for written are just those that a put writes, each for the report that is read from it;
// and the list of reports rises in its numbers.
// The 0 was promised and says nothing; the laws are in the clauses.
pub fn blocks_stand() -> u8
    ensures value { result ≡ 0 }
    ensures reads { ReadsBack }
    ensures only { WrittenOnly }
    ensures rises { ByNumber }
{
    0
}
