//! The fault that is kept.
ghost use Rattle.std.specs.Prelude.{◌≡◌};
ghost use Rattle.host_values.specs.TableCalls.{left_by_call};
ghost use Rattle.host_values.specs.Forms.{HostForm};
ghost use Rattle.host_tables.specs.Forms.{of_tables};

use crate::tables::Tables;
use awk_values::Fault;
use host_values::Refusal;
use wasm_store::Word;

impl Tables {
    /// Keeps the fault that a call met.
    #[inline(always)]
    pub fn keep(&mut self, outcome: Result<Option<Word>, Refusal>)
        ensures { (f : HostForm) → of_tables self.new f
            ≡ left_by_call outcome (of_tables self.old f) }
    {
        if let Err(Refusal::Fault(fault)) = outcome {
            self.fault = Some(fault);
        }
    }

    /// The fault that is kept.
    #[inline(always)]
    pub fn fault(&self) -> Option<Fault>
        ensures { result ≡ self.now.fault }
    {
        self.fault
    }
}
