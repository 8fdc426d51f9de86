//! How many bytes may pass.
ghost use Rattle.std.specs.Prelude.{◌≡◌, ◌+◌, ◌-◌, ◌≤◌, min};

/// A limit on bytes, and how many of them have passed.
#[derive(Drop)]
pub(crate) struct Meter {
    most: u64,
    passed: u64,
    ghost within: { passed ≤ most },
}

impl Meter {
    pub(crate) fn new(most: u64) -> Meter
        ensures most { result.most ≡ most }
        ensures passed { result.passed ≡ 0 }
    {
        Meter { most, passed: 0 }
    }

    /// How many of some bytes may pass.
    pub(crate) fn room(&self, wanted: usize) -> usize
        ensures { result ≡ min (self.now.most - self.now.passed) wanted }
    {
        let left = self.most - self.passed;
        if left < wanted as u64 {
            left as usize
        } else {
            wanted
        }
    }

    /// Bytes pass.
    pub(crate) fn pass(&mut self, bytes: usize)
        requires { self.old.passed + bytes ≤ self.old.most }
        ensures most { self.new.most ≡ self.old.most }
        ensures passed { self.new.passed ≡ self.old.passed + bytes }
    {
        self.passed += bytes as u64;
    }
}
