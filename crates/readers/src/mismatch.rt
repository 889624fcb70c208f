// Why an item is not the one that was expected.
ghost use Rattle.std.specs.Prelude.{◌≡◌};
ghost use Rattle.readers.specs.declared.mismatch.Mismatch.TheVariants as mismatch;

use secs::item::Fault;

#[derive(Clone, Copy, PartialEq, Debug)]
pub enum Mismatch {
    // the item is at fault
    Faulty(Fault),
    // it is well formed, but of another format or length
    Unexpected,
}

impl From<Fault> for Mismatch {
    ghost from_gives = { λ fault m. m ≡ mismatch.Faulty fault };

    fn from(fault: Fault) -> Mismatch {
        Mismatch::Faulty(fault)
    }
}
