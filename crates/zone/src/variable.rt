// A variable: its kind, and its bands, which samples move.
ghost use Rattle.std.specs.Prelude.{◌≡◌};
ghost use Rattle.zone.specs.Variables.{AllOrdered, empty_of, kind_of, sample_fault_code, whole_band, real_band, whole_value, real_value, band_answer, with_band, sample_answer, sample_after, zone_of};

use crate::band::{Band, Bands};
use crate::places::BandRefusal;
use crate::rule::Zone;
use kinds::real::Real;

#[derive(Clone, Copy, PartialEq, Eq, Debug)]
pub enum Kind {
    Whole,
    Real,
}

// A value from outside, which may be a NaN.
#[derive(Clone, Copy)]
pub enum Sample {
    Whole(i32),
    Real(f32),
}

// The bounds of a band from outside.
#[derive(Clone, Copy)]
pub enum Bounds {
    Whole { lower: i32, upper: i32 },
    Real { lower: f32, upper: f32 },
}

// A variable by its kind: each method matches it, once, and goes on in the bands, which are generic.
#[derive(Clone, Copy)]
pub enum Variable {
    Whole(Bands<i32>),
    Real(Bands<Real>),
}

// Why a sample is refused.
#[derive(Clone, Copy, PartialEq, Eq, Debug)]
pub enum SampleFault {
    OtherKind,
    NotANumber,
}

impl SampleFault {
    // By name: u8::from would not say that it is the code of a refusal.
    pub fn code(self) -> u8
        ensures { result ≡ sample_fault_code self }
    {
        match self {
            SampleFault::OtherKind => 6,
            SampleFault::NotANumber => 7,
        }
    }
}

// The value of a sample, where it is one of the kind.
impl TryFrom<Sample> for i32 {
    type Error = SampleFault;

    ghost try_from_gives = { λ sample result. result ≡ whole_value sample };

    fn try_from(sample: Sample) -> Result<i32, SampleFault> {
        match sample {
            Sample::Whole(value) => Ok(value),
            Sample::Real(_) => Err(SampleFault::OtherKind),
        }
    }
}

impl TryFrom<Sample> for Real {
    type Error = SampleFault;

    ghost try_from_gives = { λ sample result. result ≡ real_value sample };

    fn try_from(sample: Sample) -> Result<Real, SampleFault> {
        match sample {
            Sample::Whole(_) => Err(SampleFault::OtherKind),
            Sample::Real(value) => Real::new(value).ok_or(SampleFault::NotANumber),
        }
    }
}

// The band with these bounds, where they make one of the kind.
impl TryFrom<Bounds> for Band<i32> {
    type Error = BandRefusal;

    ghost try_from_gives = { λ bounds result. result ≡ whole_band bounds };

    fn try_from(bounds: Bounds) -> Result<Band<i32>, BandRefusal> {
        match bounds {
            Bounds::Whole { lower, upper } => Band::new(lower, upper).ok_or(BandRefusal::Bounds),
            Bounds::Real { .. } => Err(BandRefusal::Bounds),
        }
    }
}

impl TryFrom<Bounds> for Band<Real> {
    type Error = BandRefusal;

    ghost try_from_gives = { λ bounds result. result ≡ real_band bounds };

    fn try_from(bounds: Bounds) -> Result<Band<Real>, BandRefusal> {
        match bounds {
            Bounds::Whole { .. } => Err(BandRefusal::Bounds),
            Bounds::Real { lower, upper } => {
                let lower = Real::new(lower).ok_or(BandRefusal::Bounds)?;
                let upper = Real::new(upper).ok_or(BandRefusal::Bounds)?;
                Band::new(lower, upper).ok_or(BandRefusal::Bounds)
            }
        }
    }
}

impl Variable {
    // A variable without bands.
    pub fn new(kind: Kind) -> Variable
        ensures value { result ≡ empty_of kind }
        ensures ordered { AllOrdered result }
    {
        match kind {
            Kind::Whole => Variable::Whole(Bands::new()),
            Kind::Real => Variable::Real(Bands::new()),
        }
    }

    pub fn kind(&self) -> Kind
        ensures { result ≡ kind_of self.now }
    {
        match self {
            Variable::Whole(_) => Kind::Whole,
            Variable::Real(_) => Kind::Real,
        }
    }

    // The zone of a band, or none where there is no band of this number.
    pub fn zone(&self, number: u32) -> Option<Zone>
        ensures { result ≡ zone_of self.now number }
    {
        match self {
            Variable::Whole(bands) => bands.zone(number),
            Variable::Real(bands) => bands.zone(number),
        }
    }

    // Adds a band in NO ZONE. A refusal changes nothing.
    pub fn add_band(&mut self, number: u32, bounds: Bounds) -> Result<(), BandRefusal>
        ensures answer { result ≡ band_answer self.old number bounds }
        ensures after { self.new ≡ with_band self.old number bounds }
        ensures ordered { AllOrdered self.old → AllOrdered self.new }
    {
        match self {
            Variable::Whole(bands) => bands.add(number, Band::try_from(bounds)),
            Variable::Real(bands) => bands.add(number, Band::try_from(bounds)),
        }
    }

    // Gives a sample to every band, and answers whether any moved. A refusal changes nothing.
    pub fn sample(&mut self, sample: Sample) -> Result<bool, SampleFault>
        ensures answer { result ≡ sample_answer self.old sample }
        ensures after { self.new ≡ sample_after self.old sample }
        ensures ordered { AllOrdered self.old → AllOrdered self.new }
    {
        match self {
            Variable::Whole(bands) => Ok(bands.sample(&i32::try_from(sample)?)),
            Variable::Real(bands) => Ok(bands.sample(&Real::try_from(sample)?)),
        }
    }
}
