// The examples of limits monitoring of SEMI E30 as runs. Its lower zone is BELOW, its upper zone ABOVE.
use std::process::Abort;
use zone::rule::Zone;
use zone::variable::{Bounds, Kind, Sample, SampleFault, Variable};

// Two helpers: with one, each call would spell out the case of the bounds.
fn add_whole(rt: &impl Abort, variable: &mut Variable, number: u32, lower: i32, upper: i32) {
    assert_eq!(rt;
        variable.add_band(number, Bounds::Whole { lower, upper }),
        Ok(())
    );
}

fn add_real(rt: &impl Abort, variable: &mut Variable, number: u32, lower: f32, upper: f32) {
    assert_eq!(rt;
        variable.add_band(number, Bounds::Real { lower, upper }),
        Ok(())
    );
}

// Band 1 moves or not, and is in a zone.
fn whole(rt: &impl Abort, variable: &mut Variable, value: i32, moved: bool, zone: Zone) {
    assert_eq!(rt; variable.sample(Sample::Whole(value)), Ok(moved));
    assert_eq!(rt; variable.zone(1), Some(zone));
}

// Some band moves or not, and the first four are in these zones.
fn four(rt: &impl Abort, variable: &mut Variable, value: f32, moved: bool, zones: [Zone; 4]) {
    assert_eq!(rt; variable.sample(Sample::Real(value)), Ok(moved));
    for (number, zone) in (1..5).zip(zones) {
        assert_eq!(rt; variable.zone(number), Some(zone));
    }
}

// Readings 99, 101, 100, 100, 99, 100 at a limit of 100 without width. The standard has the lower zone at the second 100 and
// stays there at 99. OUR RULE ANSWERS OTHERWISE: a value at both bounds moves a band whatever its zone, so that the second 100
// is ABOVE and 99 moves back.
#[test]
fn a_limit_without_width(rt: HostRuntime) {
    let mut v = Variable::new(Kind::Whole);
    add_whole(&rt, &mut v, 1, 100, 100);
    whole(&rt, &mut v, 99, true, Zone::Below);
    whole(&rt, &mut v, 101, true, Zone::Above);
    whole(&rt, &mut v, 100, true, Zone::Below);
    whole(&rt, &mut v, 100, true, Zone::Above);
    whole(&rt, &mut v, 99, true, Zone::Below);
    whole(&rt, &mut v, 100, true, Zone::Above);
}

// A valve: 0 is closed, 1 is open.
#[test]
fn valve_monitoring(rt: HostRuntime) {
    let mut v = Variable::new(Kind::Whole);
    add_whole(&rt, &mut v, 1, 0, 1);
    whole(&rt, &mut v, 0, true, Zone::Below);
    whole(&rt, &mut v, 1, true, Zone::Above);
    whole(&rt, &mut v, 1, false, Zone::Above);
    whole(&rt, &mut v, 0, true, Zone::Below);
}

// A temperature with the normal range 98 to 100 and the shutdown limits 95 and 103, each limit plus or minus 0.25.
#[test]
fn environment_monitoring(rt: HostRuntime) {
    let mut v = Variable::new(Kind::Real);
    add_real(&rt, &mut v, 1, 94.75, 95.25);
    add_real(&rt, &mut v, 2, 97.75, 98.25);
    add_real(&rt, &mut v, 3, 99.75, 100.25);
    add_real(&rt, &mut v, 4, 102.75, 103.25);
    let normal = [Zone::Above, Zone::Above, Zone::Below, Zone::Below];
    let warm = [Zone::Above, Zone::Above, Zone::Above, Zone::Below];
    let hot = [Zone::Above, Zone::Above, Zone::Above, Zone::Above];
    let cool = [Zone::Above, Zone::Below, Zone::Below, Zone::Below];
    four(&rt, &mut v, 99.0, true, normal);
    four(&rt, &mut v, 100.0, false, normal);
    four(&rt, &mut v, 100.25, true, warm);
    four(&rt, &mut v, 99.8, false, warm);
    four(&rt, &mut v, 103.5, true, hot);
    four(&rt, &mut v, 103.0, false, hot);
    four(&rt, &mut v, 99.5, true, normal);
    four(&rt, &mut v, 97.5, true, cool);
    four(&rt, &mut v, 98.0, false, cool);
    four(&rt, &mut v, 98.5, true, normal);
}

// A counter with limits 5, 7 and 8 without width: each is reached once, and the reset moves all three in one sample.
#[test]
fn calibration_counter(rt: HostRuntime) {
    let mut v = Variable::new(Kind::Whole);
    add_whole(&rt, &mut v, 1, 5, 5);
    add_whole(&rt, &mut v, 2, 7, 7);
    add_whole(&rt, &mut v, 3, 8, 8);
    let moves = [true, false, false, false, false, true, false, true, true];
    for (count, moved) in (0..9).zip(moves) {
        assert_eq!(rt; v.sample(Sample::Whole(count)), Ok(moved));
    }
    assert_eq!(rt; v.zone(1), Some(Zone::Above));
    assert_eq!(rt; v.zone(2), Some(Zone::Above));
    assert_eq!(rt; v.zone(3), Some(Zone::Above));
    assert_eq!(rt; v.sample(Sample::Whole(0)), Ok(true));
    assert_eq!(rt; v.zone(1), Some(Zone::Below));
    assert_eq!(rt; v.zone(2), Some(Zone::Below));
    assert_eq!(rt; v.zone(3), Some(Zone::Below));
}

// The deviation from a profile, with limits at 0.5 and -0.5 of width 0.05.
#[test]
fn derived_variable(rt: HostRuntime) {
    let mut v = Variable::new(Kind::Real);
    add_real(&rt, &mut v, 1, 0.475, 0.525);
    add_real(&rt, &mut v, 2, -0.525, -0.475);
    assert_eq!(rt; v.sample(Sample::Real(0.0)), Ok(true));
    assert_eq!(rt; v.zone(1), Some(Zone::Below));
    assert_eq!(rt; v.zone(2), Some(Zone::Above));
    assert_eq!(rt; v.sample(Sample::Real(0.5)), Ok(false));
    assert_eq!(rt; v.sample(Sample::Real(0.53)), Ok(true));
    assert_eq!(rt; v.zone(1), Some(Zone::Above));
    assert_eq!(rt; v.sample(Sample::Real(-0.6)), Ok(true));
    assert_eq!(rt; v.zone(1), Some(Zone::Below));
    assert_eq!(rt; v.zone(2), Some(Zone::Below));
}
