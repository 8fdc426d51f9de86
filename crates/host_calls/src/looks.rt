//! What one sees of a host: values, elements, fields, and its world.
ghost use Rattle.std.specs.Prelude.{◌≡◌, Err, IfErr, IfOk, option_copied};
ghost use Rattle.std.specs.FinMap as map;
ghost use Rattle.host_arrays.specs.Pairs.{get_pair, pairs_at};
ghost use Rattle.host_calls.specs.Forms.{host_form};
ghost use Rattle.host_fields.specs.Calls.{Reads};
ghost use Rattle.host_fields.specs.Views.{viewed};
ghost use Rattle.sem_primitives.specs.FieldMeaning.{field_number};

use crate::host::Host;
use awk_values::{Bytes, Fault, Value};
use host_fields::FieldView;
use world_core::World;

impl<W: World> Host<W> {
    /// The value of a handle, if it has one.
    pub fn value(&self, handle: i32) -> Option<&Value>
        ensures { option_copied result ≡ map.get (host_form W.state self.now).values handle }
    {
        self.tables.handles.view(handle)
    }

    /// The value at a key of an array, if there is one.
    pub fn element(&self, array: i32, key: &Bytes) -> Option<&Value>
        ensures { option_copied result
            ≡ get_pair key.now (pairs_at (host_form W.state self.now).arrays array) }
    {
        self.tables.arrays.get(array, key.as_slice())
    }

    /// The field of a number, as the record lends it. It takes no memory.
    ///
    /// # Errors
    ///
    /// `FieldNumber` where the number is below 0 or above 1,048,576.
    pub fn field(&self, number: i64) -> Result<FieldView<'_>, Fault>
        ensures ok { IfOk result (λ view. Reads number self.now.tables.texts.current_record
            (viewed view)) }
        ensures err { IfErr result (λ fault. field_number number ≡ Err fault) }
    {
        self.tables.texts.current_record.field(number)
    }

    /// The world, as it is now.
    pub fn world(&self) -> &W
        ensures { result.now ≡ self.now.world }
    {
        &self.world
    }
}
