// Which calls of an object in memory fail, and how often it has failed.
ghost use Rattle.std.specs.Prelude.{◌≡◌, if◌then◌else◌};
ghost use Rattle.zw_base.specs.Faults.{Rose, Counts};

use sqlite_items::Items;

/// The numbers, from 0, of the calls that are to fail, the number of the next call, and the count of faults.
#[derive(Debug, Drop)]
pub struct Failures {
    numbers: Items<u32>,
    next: u64,
    faults: u64,
}

impl Failures {
    ghost use Rattle.zw_outside.specs.Memory.{is_due, after_call, after_fault};

    /// Nothing has been called yet.
    pub fn new(numbers: Vec<u32>) -> Failures
        ensures numbers { result.numbers ≡ numbers.items }
        ensures next { result.next ≡ 0 }
        ensures faults { result.faults ≡ 0 }
    {
        Failures {
            numbers: Items::from_vec(numbers),
            next: 0,
            faults: 0,
        }
    }

    /// Begins the next call, and says whether it is to fail. A failing call is counted as a fault.
    pub fn begin(&mut self) -> bool
        ensures due { result ≡ is_due self.old }
        ensures after { self.new ≡ (if is_due self.old then after_fault (after_call self.old) else after_call self.old) }
        ensures cause { Counts self.old.faults self.new.faults result }
    {
        if self.is_due() {
            self.next = self.next.saturating_add(1);
            self.raise();
            return true;
        }
        self.next = self.next.saturating_add(1);
        false
    }

    /// Whether the next call is to fail.
    fn is_due(&self) -> bool
        ensures { result ≡ is_due self.now }
    {
        let next = self.next;
        let numbers = self.numbers.as_slice();
        numbers.iter().any(|number| u64::from(*number) == next)
    }

    /// Counts a fault.
    pub fn raise(&mut self)
        ensures after { self.new ≡ after_fault self.old }
        ensures rose { Rose self.old.faults self.new.faults }
    {
        self.faults = self.faults.saturating_add(1);
    }
}
