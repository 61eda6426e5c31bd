//! The closed operations: the control vector of a number added to each value, of each times a number, of
//! each divided by one, and of the rests by one.
ghost use Rattle.std.specs.Prelude.{◌≡◌};
ghost use Rattle.control_vectors.specs.Closed as spec;

use crate::ControlVector;
use crate::control::LIMIT;

impl ControlVector {
    ghost use Rattle.std.specs.Prelude.{◌≡◌};
    ghost use Rattle.control_vectors.specs.Closed as spec;

    /// `k` added to each value: `None` exactly where the start then leaves its range.
    pub fn shifted(&self, k: i64) -> Option<ControlVector>
        ensures { result ≡ spec.shifted_control self.now k }
    {
        let start = self.start().checked_add(k)?;
        ControlVector::new(start, self.step(), self.modulus(), self.divisor())
    }

    /// Each value times `k`: `None` exactly where `k` is 0, where values are quotients (a divisor other than
    /// 1), and where a number leaves its range.
    pub fn scaled(&self, k: u32) -> Option<ControlVector>
        ensures { result ≡ spec.scaled_control self.now k }
    {
        if k < 1 || self.divisor() != 1 {
            return None;
        }
        let start = self.start().checked_mul(i64::from(k))?;
        let k = u64::from(k);
        ControlVector::new(start, k * self.step(), k * self.modulus(), 1)
    }

    /// Each value divided by `d`: `None` exactly where `d` is 0, where the start is below 0, where `d` does
    /// not divide the start and the modulus, and where the divisor leaves its range.
    pub fn divided(&self, d: u32) -> Option<ControlVector>
        ensures { result ≡ spec.divided_control self.now d }
    {
        let Ok(start) = u64::try_from(self.start()) else {
            return None;
        };
        let d = u64::from(d);
        if d < 1 || start % d != 0 || self.modulus() % d != 0 || LIMIT < self.divisor() * d {
            return None;
        }
        let start = i64::try_from(start / d).ok()?;
        ControlVector::new(start, self.step(), self.modulus() / d, self.divisor() * d)
    }

    /// The rest of each value by `m`: `None` exactly where `m` is 0 or above 2^31, where the start is not 0,
    /// and where the modulus is no multiple of `m`. A modulus of 0 is one.
    pub fn reduced(&self, m: u32) -> Option<ControlVector>
        ensures { result ≡ spec.reduced_control self.now m }
    {
        let m = u64::from(m);
        if self.start() != 0 || m < 1 || LIMIT < m || self.modulus() % m != 0 {
            return None;
        }
        ControlVector::new(0, self.step(), m, self.divisor())
    }
}
