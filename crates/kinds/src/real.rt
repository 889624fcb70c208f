ghost use Rattle.std.specs.Prelude.{◌≡◌, false, is_nan};

// A real value: a number of 32 bits, an infinity among them, and never a NaN.
#[derive(Clone, Copy)]
pub struct Real {
    pub(crate) value: f32,
    ghost number: { is_nan value ≡ false },
}
