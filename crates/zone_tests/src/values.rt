// Values as the content of their items.
use kinds::kind::ValueKind;
use kinds::real::Real;

// The formats I4 and F4.
#[test]
fn formats(rt: HostRuntime) {
    assert_eq!(rt; <i32 as ValueKind>::CODE, 28);
    assert_eq!(rt; <i32 as ValueKind>::WIDTH, 4);
    assert_eq!(rt; <Real as ValueKind>::CODE, 36);
    assert_eq!(rt; <Real as ValueKind>::WIDTH, 4);
    assert_eq!(rt; <i32 as ValueKind>::format_code(), 28);
    assert_eq!(rt; <Real as ValueKind>::format_code(), 36);
}

#[test]
fn whole_values(rt: HostRuntime) {
    let two: i32 = -2;
    assert_eq!(rt; <i32 as ValueKind>::to_bytes(&two), [255, 255, 255, 254]);
    assert_eq!(rt;
        <i32 as ValueKind>::from_bytes([255, 255, 255, 254]),
        Some(-2)
    );
    assert_eq!(rt;
        <i32 as ValueKind>::from_bytes([0x7f, 0xff, 0xff, 0xff]),
        Some(2147483647)
    );
    assert_eq!(rt;
        <i32 as ValueKind>::from_bytes([0x80, 0, 0, 0]),
        Some(-2147483648)
    );
}

// The bytes of a real value, or none where they are a NaN.
fn again(bytes: [u8; 4]) -> Option<[u8; 4]> {
    Real::from_bytes(bytes).map(|value| value.to_bytes())
}

#[test]
fn real_values(rt: HostRuntime) {
    assert_eq!(rt; again([0x3f, 0x80, 0, 0]), Some([0x3f, 0x80, 0, 0]));
    assert_eq!(rt; again([0x80, 0, 0, 0]), Some([0x80, 0, 0, 0]));
    assert_eq!(rt; again([0x7f, 0x80, 0, 0]), Some([0x7f, 0x80, 0, 0]));
    assert_eq!(rt; again([0xff, 0x80, 0, 0]), Some([0xff, 0x80, 0, 0]));
    assert_eq!(rt; again([0x7f, 0x80, 0, 1]), None);
    assert_eq!(rt; again([0xff, 0xc0, 0, 0]), None);
}

// Whether one number is at most another, or none where either is not a number.
fn at_most(a: f32, b: f32) -> Option<bool> {
    let a = Real::new(a)?;
    let b = Real::new(b)?;
    Some(a.at_most(&b))
}

#[test]
fn real_order(rt: HostRuntime) {
    assert_eq!(rt; at_most(0.0, -0.0), Some(true));
    assert_eq!(rt; at_most(-0.0, 0.0), Some(true));
    assert_eq!(rt; at_most(1.5, f32::INFINITY), Some(true));
    assert_eq!(rt; at_most(f32::INFINITY, 1.5), Some(false));
    assert_eq!(rt; at_most(f32::NEG_INFINITY, -1.5), Some(true));
    assert_eq!(rt; at_most(f32::NAN, 1.0), None);
    assert_eq!(rt; at_most(1.0, f32::NAN), None);
}
