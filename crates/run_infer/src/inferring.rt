//! What the four numbers of a control vector tell of its runs.
ghost use Rattle.std.specs.Prelude.{◌≡◌};
ghost use Rattle.run_infer.specs.Inferred.{HasRuns, inferred, stepped};

use control_vectors::ControlVector;

/// Where the runs of a control vector begin, as far as its numbers tell.
#[derive(Clone, Copy, Debug, PartialEq, Eq)]
pub enum Runs {
    /// At the first place alone.
    One,
    /// At each multiple of so many places.
    Uniform(u32),
    /// Where a value differs from the one before.
    ByValue,
}

/// Where the runs of a control vector begin, for every length.
pub fn infer(v: &ControlVector) -> Runs
    ensures rule { result ≡ inferred v.now }
    ensures runs { HasRuns v.now result }
{
    let (step, modulus, divisor) = (v.step(), v.modulus(), v.divisor());
    if step == 0 || modulus == 1 {
        Runs::One
    } else if divisor % step == 0 {
        Runs::Uniform((divisor / step) as u32)
    } else if step % divisor == 0 {
        stepping(step / divisor, modulus)
    } else {
        Runs::ByValue
    }
}

/// The runs of multiples of a number, of each of which a modulus leaves the rest.
fn stepping(by: u64, modulus: u64) -> Runs
    ensures { result ≡ stepped by modulus }
{
    if modulus != 0 && by % modulus == 0 {
        Runs::One
    } else {
        Runs::Uniform(1)
    }
}
