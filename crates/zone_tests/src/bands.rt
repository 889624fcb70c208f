// One band of a whole variable, and one of a real variable, sample by sample.
use std::alloc::AllocError;
use std::process::Abort;
use zone::band::{Band, Bands};
use zone::rule::Zone;
use zone::run::sample_run;
use zone::variable::{Bounds, Kind, Sample, SampleFault, Variable};

// A whole variable with band 1. Two helpers: with one, each call would spell out the case of the bounds.
fn whole(lower: i32, upper: i32) -> Variable {
    let mut variable = Variable::new(Kind::Whole);
    let _ = variable.add_band(1, Bounds::Whole { lower, upper });
    variable
}

// A real variable with band 1.
fn real(lower: f32, upper: f32) -> Variable {
    let mut variable = Variable::new(Kind::Real);
    let _ = variable.add_band(1, Bounds::Real { lower, upper });
    variable
}

// A sample moves band 1 or not, and leaves it in a zone.
fn expect(rt: &impl Abort, variable: &mut Variable, sample: Sample, moved: bool, zone: Zone) {
    assert_eq!(rt; variable.sample(sample), Ok(moved));
    assert_eq!(rt; variable.zone(1), Some(zone));
}

#[test]
fn a_band_with_width(rt: HostRuntime) {
    let mut v = whole(10, 20);
    assert_eq!(rt; v.zone(1), Some(Zone::NoZone));
    expect(&rt, &mut v, Sample::Whole(15), false, Zone::NoZone);
    expect(&rt, &mut v, Sample::Whole(20), true, Zone::Above);
    expect(&rt, &mut v, Sample::Whole(11), false, Zone::Above);
    expect(&rt, &mut v, Sample::Whole(10), true, Zone::Below);
    expect(&rt, &mut v, Sample::Whole(10), false, Zone::Below);
    expect(&rt, &mut v, Sample::Whole(19), false, Zone::Below);
    expect(&rt, &mut v, Sample::Whole(2147483647), true, Zone::Above);
    expect(&rt, &mut v, Sample::Whole(-2147483648), true, Zone::Below);
}

#[test]
fn a_band_without_width(rt: HostRuntime) {
    let mut v = whole(5, 5);
    expect(&rt, &mut v, Sample::Whole(5), true, Zone::Above);
    expect(&rt, &mut v, Sample::Whole(5), true, Zone::Below);
}

#[test]
fn a_band_of_real_values(rt: HostRuntime) {
    let mut v = real(-1.5, 2.5);
    expect(&rt, &mut v, Sample::Real(2.25), false, Zone::NoZone);
    expect(&rt, &mut v, Sample::Real(-1.5), true, Zone::Below);
    expect(&rt, &mut v, Sample::Real(2.5), true, Zone::Above);
    expect(
        &rt,
        &mut v,
        Sample::Real(f32::NEG_INFINITY),
        true,
        Zone::Below,
    );
    expect(&rt, &mut v, Sample::Real(f32::INFINITY), true, Zone::Above);
}

// The two zeros are equal in the order.
#[test]
fn a_band_at_the_zeros(rt: HostRuntime) {
    let mut v = real(0.0, -0.0);
    assert_eq!(rt; v.zone(1), Some(Zone::NoZone));
    expect(&rt, &mut v, Sample::Real(-0.0), true, Zone::Above);
    expect(&rt, &mut v, Sample::Real(0.0), true, Zone::Below);
}

// Every band takes the sample; one that moves is enough.
#[test]
fn seven_bands(rt: HostRuntime) {
    let mut v = Variable::new(Kind::Whole);
    for number in 1..8 {
        assert_eq!(rt;
            v.add_band(
                number,
                Bounds::Whole {
                    lower: 10,
                    upper: 20,
                },
            ),
            Ok(())
        );
    }
    assert_eq!(rt; v.sample(Sample::Whole(20)), Ok(true));
    for number in 1..8 {
        assert_eq!(rt; v.zone(number), Some(Zone::Above));
    }
    assert_eq!(rt; v.sample(Sample::Whole(20)), Ok(false));
}

#[test]
fn only_the_last_moves(rt: HostRuntime) {
    let mut v = whole(10, 20);
    assert_eq!(rt; v.add_band(7, Bounds::Whole { lower: 1, upper: 2 }), Ok(()));
    assert_eq!(rt; v.sample(Sample::Whole(12)), Ok(true));
    assert_eq!(rt; v.zone(1), Some(Zone::NoZone));
    assert_eq!(rt; v.zone(2), None);
    assert_eq!(rt; v.zone(7), Some(Zone::Above));
}

// Two bands 10 to 20, one ABOVE and one BELOW, at numbers 1 and 2.
fn above_and_below() -> Bands<i32> {
    let mut high = Band::new(10, 20);
    if let Some(band) = &mut high {
        sample_run(band, &[20]);
    }
    let mut low = Band::new(10, 20);
    if let Some(band) = &mut low {
        sample_run(band, &[20, 10]);
    }
    Bands::from([high, low, None, None, None, None, None])
}

// Bands of equal bounds keep zones of their own, and each moves from its own.
#[test]
fn bands_that_are_given(rt: HostRuntime) {
    let mut v = Variable::Whole(above_and_below());
    assert_eq!(rt; v.zone(1), Some(Zone::Above));
    assert_eq!(rt; v.zone(2), Some(Zone::Below));
    assert_eq!(rt; v.sample(Sample::Whole(15)), Ok(false));
    assert_eq!(rt; v.zone(1), Some(Zone::Above));
    assert_eq!(rt; v.zone(2), Some(Zone::Below));
    assert_eq!(rt; v.sample(Sample::Whole(20)), Ok(true));
    assert_eq!(rt; v.zone(1), Some(Zone::Above));
    assert_eq!(rt; v.zone(2), Some(Zone::Above));
    assert_eq!(rt; v.sample(Sample::Whole(20)), Ok(false));
}

// The bands of a variable can be counted, taken out, put in and sampled one by one.
#[test]
fn bands_that_are_changed(rt: HostRuntime) {
    let mut v = Variable::Whole(above_and_below());
    if let Variable::Whole(bands) = &mut v {
        let free = bands.places.iter().filter(|place| place.is_none()).count();
        assert_eq!(rt; free, 5);
        bands.places[0] = None;
        bands.places[6] = Band::new(5, 5);
        if let Some(band) = &mut bands.places[1] {
            assert_eq!(rt; band.sample(&20), true);
        }
    }
    assert_eq!(rt; v.zone(1), None);
    assert_eq!(rt; v.zone(2), Some(Zone::Above));
    assert_eq!(rt; v.zone(7), Some(Zone::NoZone));
    assert_eq!(rt; v.add_band(1, Bounds::Whole { lower: 1, upper: 2 }), Ok(()));
}

// A copy has the bounds and the zones of its band.
#[test]
fn bands_that_are_cloned(rt: HostRuntime) -> Result<(), AllocError> {
    let bands = above_and_below().clone()?;
    let mut v = Variable::Whole(bands);
    assert_eq!(rt; v.zone(1), Some(Zone::Above));
    assert_eq!(rt; v.zone(2), Some(Zone::Below));
    assert_eq!(rt; v.sample(Sample::Whole(10)), Ok(true));
    assert_eq!(rt; v.zone(1), Some(Zone::Below));
    assert_eq!(rt; v.zone(2), Some(Zone::Below));
    Ok(())
}
