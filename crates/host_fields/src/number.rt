//! Numbers of fields.
ghost use Rattle.std.specs.Prelude.{◌≡◌};
ghost use Rattle.sem_primitives.specs.FieldMeaning.{field_number};

use awk_values::Fault;
use sem_primitives::MAX_FIELDS;

/// The number of a field, or a count of fields.
pub(crate) fn field_number(n: i64) -> Result<usize, Fault>
    ensures { result ≡ field_number n }
{
    match usize::try_from(n) {
        Ok(number) => {
            if number > MAX_FIELDS {
                return Err(Fault::FieldNumber);
            }
            Ok(number)
        }
        Err(_) => Err(Fault::FieldNumber),
    }
}
