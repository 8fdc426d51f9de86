//! Tables before a script runs.
use awk_values::Value;
use host_arrays::Arrays;
use host_fields::Record;
use std::hash::RandomState;
use std::test::Fail;

#[test]
fn tables_at_the_start(rt: HostRuntime) -> Result<(), Fail> {
    let state = RandomState::new(&rt)?;
    let arrays = Arrays::new(rt.alloc(), state)?;
    let record = Record::new(rt.alloc());
    let whole = record.whole().value(rt.alloc())?;
    assert!(rt; arrays.live() == 2 && whole == Value::Uninit);
    Ok(())
}
