// What a refused band or sample answers and leaves.
use setup::refusal::{Refusal, answer};
use zone::places::BandRefusal;
use zone::rule::Zone;
use zone::variable::{Bounds, Kind, Sample, SampleFault, Variable};

// The code of what the adding of a band answers, as a setup gives it.
fn code(added: Result<(), BandRefusal>) -> u8 {
    answer(added.map_err(|fault| Refusal::Entry { number: 1, fault })).0
}

#[test]
fn codes(rt: HostRuntime) {
    assert_eq!(rt; code(Ok(())), 0);
    assert_eq!(rt; code(Err(BandRefusal::Number)), 10);
    assert_eq!(rt; code(Err(BandRefusal::Bounds)), 11);
    assert_eq!(rt; SampleFault::OtherKind.code(), 6);
    assert_eq!(rt; SampleFault::NotANumber.code(), 7);
}

// The number is judged first, then the bounds.
#[test]
fn bands(rt: HostRuntime) {
    let good = Bounds::Whole { lower: 1, upper: 2 };
    let high = Bounds::Whole { lower: 3, upper: 2 };
    let other = Bounds::Real {
        lower: 1.0,
        upper: 2.0,
    };
    let mut v = Variable::new(Kind::Whole);
    assert_eq!(rt; v.add_band(0, good), Err(BandRefusal::Number));
    assert_eq!(rt; v.add_band(8, high), Err(BandRefusal::Number));
    assert_eq!(rt; v.add_band(4294967295, good), Err(BandRefusal::Number));
    assert_eq!(rt; v.add_band(7, high), Err(BandRefusal::Bounds));
    assert_eq!(rt; v.add_band(7, other), Err(BandRefusal::Bounds));
    assert_eq!(rt; v.zone(7), None);
    assert_eq!(rt; v.add_band(7, good), Ok(()));
    assert_eq!(rt; v.sample(Sample::Whole(2)), Ok(true));
    assert_eq!(rt; v.add_band(7, good), Err(BandRefusal::Number));
    assert_eq!(rt; v.add_band(7, high), Err(BandRefusal::Number));
    assert_eq!(rt; v.zone(7), Some(Zone::Above));
}

#[test]
fn bounds_that_are_no_numbers(rt: HostRuntime) {
    let mut v = Variable::new(Kind::Real);
    assert_eq!(rt;
        v.add_band(
            1,
            Bounds::Real {
                lower: f32::NAN,
                upper: 1.0,
            },
        ),
        Err(BandRefusal::Bounds)
    );
    assert_eq!(rt;
        v.add_band(
            1,
            Bounds::Real {
                lower: 1.0,
                upper: f32::NAN,
            },
        ),
        Err(BandRefusal::Bounds)
    );
    assert_eq!(rt;
        v.add_band(
            1,
            Bounds::Real {
                lower: 1.5,
                upper: 1.0,
            },
        ),
        Err(BandRefusal::Bounds)
    );
    assert_eq!(rt;
        v.add_band(1, Bounds::Whole { lower: 1, upper: 2 }),
        Err(BandRefusal::Bounds)
    );
    assert_eq!(rt; v.zone(1), None);
    assert_eq!(rt;
        v.add_band(
            1,
            Bounds::Real {
                lower: f32::NEG_INFINITY,
                upper: f32::INFINITY,
            },
        ),
        Ok(())
    );
}

#[test]
fn samples(rt: HostRuntime) {
    let mut w = Variable::new(Kind::Whole);
    assert_eq!(rt; w.add_band(1, Bounds::Whole { lower: 1, upper: 2 }), Ok(()));
    assert_eq!(rt; w.sample(Sample::Real(5.0)), Err(SampleFault::OtherKind));
    assert_eq!(rt;
        w.sample(Sample::Real(f32::NAN)),
        Err(SampleFault::OtherKind)
    );
    assert_eq!(rt; w.zone(1), Some(Zone::NoZone));
    let mut r = Variable::new(Kind::Real);
    assert_eq!(rt;
        r.add_band(
            1,
            Bounds::Real {
                lower: 1.0,
                upper: 2.0,
            },
        ),
        Ok(())
    );
    assert_eq!(rt; r.sample(Sample::Whole(5)), Err(SampleFault::OtherKind));
    assert_eq!(rt;
        r.sample(Sample::Real(f32::NAN)),
        Err(SampleFault::NotANumber)
    );
    assert_eq!(rt; r.zone(1), Some(Zone::NoZone));
}
