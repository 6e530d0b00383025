//! What the example's device is.
ghost use Rattle.std.specs.Prelude.{◌≡◌, ◌≢◌, ◌<◌, ◌⊎◌, ℕ, IfOk, OnOk, OnErr};
ghost use Rattle.atomic_programs.specs.Faults.{faults_after};

/// The device failed at this call.
#[derive(Clone, Copy)]
pub struct Fault;

/// A device that holds one number.
pub trait Device {
    ghost number: { Self → ℕ };

    // How often a call has failed, up to the greatest u32.
    ghost failures: { Self → ℕ };

    /// The number. A read that fails leaves it.
    fn get(&mut self) -> Result<u32, Fault>
        ensures ok { IfOk result (λ n. n ≡ number self.old) }
        ensures same { number self.new ≡ number self.old }
        ensures faults { failures self.new ≡ faults_after result (failures self.old) };

    /// Writes a byte. A write that fails leaves the old number or the new one.
    fn put(&mut self, n: u32) -> Result<(), Fault>
        requires { n < 256 }
        ensures ok { OnOk result (number self.new ≡ n) }
        ensures err { OnErr result ((number self.new ≡ number self.old) ⊎ (number self.new ≡ n)) }
        ensures faults { failures self.new ≡ faults_after result (failures self.old) };
}

/// A device that passes some writes, and then fails each call; the write that fails first still reaches it.
#[derive(Drop)]
pub struct Fused {
    pub number: u32,
    pub left: u32,
    pub faults: u32,
}

impl Device for Fused {
    ghost number = { λ d. d.number };

    ghost failures = { λ d. d.faults };

    /// Fails if a call has failed before.
    fn get(&mut self) -> Result<u32, Fault>
        ensures ok { IfOk result (λ n. n ≡ self.old.number) }
        ensures same { self.new.number ≡ self.old.number }
        ensures faults { self.new.faults ≡ faults_after result self.old.faults }
        ensures passes { OnOk result (self.old.faults ≡ 0) }
        ensures fails { OnErr result (self.old.faults ≢ 0) }
    {
        if self.faults > 0 {
            self.faults = self.faults.saturating_add(1);
            return Err(Fault);
        }
        Ok(self.number)
    }

    fn put(&mut self, n: u32) -> Result<(), Fault> {
        if self.faults > 0 {
            self.faults = self.faults.saturating_add(1);
            return Err(Fault);
        }
        self.number = n;
        if self.left == 0 {
            self.faults = 1;
            return Err(Fault);
        }
        self.left -= 1;
        Ok(())
    }
}
