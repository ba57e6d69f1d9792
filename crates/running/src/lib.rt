// What the runner does with each record and what the run of a list is, with their laws; which work, and which way, a record asks for.
#![tactic(auto)]

pub mod act;
pub mod run;

ghost use Rattle.formats.specs.Names.{kind_of};
ghost use Rattle.running.specs.Primitives.{work_of, way_of};
ghost use Rattle.running.specs.Running.{numbers_of};
ghost use Rattle.running.specs.Contract.Views.{plain};
ghost use Rattle.running.specs.declared.Way.TheVariants.{Acts};
ghost use Rattle.std.specs.Prelude.{◌≡◌, true, Some, Ok};

use formats::record::{Kind, Primitive};
use limits::Refusal;

// What a primitive leaves in place of what it takes, named from the top. One value is a value formed.
#[derive(Clone, Copy)]
pub enum Left {
    Nothing,
    One(f64),
    Two(f64, f64),
    Three(f64, f64, f64),
}

// The primitives that take one value.
#[derive(Clone, Copy)]
pub enum Single {
    Identity,
    Pop,
    Dup,
    Neg,
    Not,
    Sqrt,
    Reciprocal,
}

// The primitives that take two values.
#[derive(Clone, Copy)]
pub enum Pair {
    Flip,
    Add,
    Sub,
    Mul,
    Div,
    Pow,
    Over,
}

// What is done with a primitive.
#[derive(Clone, Copy)]
pub enum Work {
    OfOne(Single),
    OfTwo(Pair),
}

// What a record does by itself.
#[derive(Clone, Copy)]
pub enum Deed {
    Pushes,
    Works,
}

// How a record is run: by itself, by what is inside it, or as a modifier.
#[derive(Clone, Copy)]
pub enum Way {
    Acts(Deed),
    Runs,
    Modifies,
}

// The values on the stack, the records run, and the most values on the stack and held.
#[derive(Clone, Copy)]
pub struct State {
    pub n: usize,
    pub steps: usize,
    pub peak: usize,
}

// Why a run stops, and at which record.
#[derive(Clone, Copy)]
pub struct Stopped {
    pub why: Refusal,
    pub place: usize,
}

// The value of a list with the steps and the peak of its run.
#[derive(Clone, Copy)]
pub struct RunValue {
    pub value: f64,
    pub steps: usize,
    pub peak: usize,
}

#[derive(Clone, Copy)]
pub struct RunNumbers {
    pub number: u64,
    pub place: usize,
    pub value: f64,
    pub steps: usize,
    pub peak: usize,
}

pub fn work_of(p: Primitive) -> Result<Work, Refusal>
    ensures { result ≡ work_of p }
{
    match p {
        Primitive::Identity => Ok(Work::OfOne(Single::Identity)),
        Primitive::Pop => Ok(Work::OfOne(Single::Pop)),
        Primitive::Dup => Ok(Work::OfOne(Single::Dup)),
        Primitive::Flip => Ok(Work::OfTwo(Pair::Flip)),
        Primitive::Neg => Ok(Work::OfOne(Single::Neg)),
        Primitive::Not => Ok(Work::OfOne(Single::Not)),
        Primitive::Sqrt => Ok(Work::OfOne(Single::Sqrt)),
        Primitive::Add => Ok(Work::OfTwo(Pair::Add)),
        Primitive::Sub => Ok(Work::OfTwo(Pair::Sub)),
        Primitive::Mul => Ok(Work::OfTwo(Pair::Mul)),
        Primitive::Div => Ok(Work::OfTwo(Pair::Div)),
        Primitive::Pow => Ok(Work::OfTwo(Pair::Pow)),
        Primitive::Exp => Err(Refusal::NeedsMath),
        Primitive::Sin => Err(Refusal::NeedsMath),
        Primitive::Cos => Err(Refusal::NeedsMath),
        Primitive::Reciprocal => Ok(Work::OfOne(Single::Reciprocal)),
        Primitive::Complex => Err(Refusal::NonReal),
        Primitive::Max => Err(Refusal::NeedsMath),
        Primitive::SinH => Err(Refusal::NeedsMath),
        Primitive::CosH => Err(Refusal::NeedsMath),
        Primitive::Exp2 => Err(Refusal::NeedsMath),
        Primitive::Exp10 => Err(Refusal::NeedsMath),
        Primitive::Log => Err(Refusal::NeedsMath),
        Primitive::Ln => Err(Refusal::NeedsMath),
        Primitive::Log2 => Err(Refusal::NeedsMath),
        Primitive::Log10 => Err(Refusal::NeedsMath),
        Primitive::Over => Ok(Work::OfTwo(Pair::Over)),
        Primitive::Root => Err(Refusal::NeedsMath),
        Primitive::Unlisted => Err(Refusal::NotSupported),
    }
}

fn way_of_kind(k: Kind) -> Result<Way, Refusal>
    ensures { result ≡ way_of (Some k) }
{
    match k {
        Kind::RealPush => Ok(Way::Acts(Deed::Pushes)),
        Kind::ComplexPush => Err(Refusal::NonReal),
        Kind::ArrayPush => Err(Refusal::NonScalar),
        Kind::OtherPush => Err(Refusal::NonReal),
        Kind::Primitive => Ok(Way::Acts(Deed::Works)),
        Kind::Modifier => Ok(Way::Modifies),
        Kind::Body => Ok(Way::Runs),
        Kind::Run => Ok(Way::Runs),
        Kind::CustomInverse => Err(Refusal::NotSupported),
        Kind::Obverse => Err(Refusal::NotSupported),
        Kind::NoNormal => Err(Refusal::NotSupported),
        Kind::UnderMarker => Err(Refusal::NotSupported),
        Kind::AnythingElse => Err(Refusal::NotSupported),
    }
}

pub fn way_of(kind: u8) -> Result<Way, Refusal>
    ensures { result ≡ way_of (kind_of kind) }
{
    way_of_kind(formats::record::kind_of(kind).ok_or(Refusal::NotSupported)?)
}

// Whether a record of the kind is a push of a real number or a primitive: most are.
pub fn is_plain(kind: u8) -> bool
    ensures { result ≡ plain kind }
{
    formats::record::is_a(kind, Kind::RealPush) | formats::record::is_a(kind, Kind::Primitive)
}

// What such a record does.
pub fn deed_of(kind: u8) -> Deed
    requires { plain kind ≡ true }
    ensures { way_of (kind_of kind) ≡ Ok (Acts result) }
{
    if formats::record::is_a(kind, Kind::RealPush) {
        Deed::Pushes
    } else {
        Deed::Works
    }
}

// The numbers that an answer stands for: the value, the steps and the peak of a refusal are 0.
pub fn run_numbers(r: Result<RunValue, Stopped>) -> RunNumbers
    ensures { result ≡ numbers_of r }
{
    match r {
        Ok(RunValue { value, steps, peak }) => RunNumbers {
            number: 0,
            place: 0,
            value,
            steps,
            peak,
        },
        Err(Stopped { why, place }) => RunNumbers {
            number: limits::refusal_no(why),
            place,
            value: 0.0,
            steps: 0,
            peak: 0,
        },
    }
}
