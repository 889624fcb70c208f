// A whole run of samples to one band.
ghost use Rattle.std.specs.Prelude.{◌≡◌};
ghost use Rattle.zone.specs.Runs.{band_along, LastDecides, EdgeZones};

use crate::band::Band;
use kinds::kind::ValueKind;

// Gives a band the samples of a run, one after the other. For every kind of value the last one that is not strictly between
// the bounds decides the zone.
pub fn sample_run<K: ValueKind>(band: &mut Band<K>, values: &[K])
    ensures after { band.new ≡ band_along K.ValueKind.at_most values.now band.old }
    ensures decides { LastDecides K.ValueKind.at_most }
    ensures edges { EdgeZones }
{
    for value in values {
        band.sample(value);
    }
}
