//! All tables of the host but those of open files and of the main input, and what they are at the start of a job.
ghost use Rattle.std.specs.Prelude.{◌≡◌, ◌∷◌, [], IfOk, None, OnOk, codes, map, pos, true};
ghost use Rattle.std.specs.FinMap as maps;
ghost use Rattle.sem_primitives.specs.Jobs.{arguments_from, environment_in};
ghost use Rattle.sem_primitives.specs.ClosedJobs.{shared_at_start};
ghost use Rattle.host_values.specs.Forms.{Coming, Stands};
ghost use Rattle.host_texts.specs.NameForms.{pair_of};
ghost use Rattle.host_step.specs.Starts.{state_at_start};
ghost use Rattle.host_tables.specs.Starts.{argv_and_environ, form_of, job_of};
ghost use Rattle.host_values.specs.Calls.{reserved_handle};
ghost use Rattle.world_core.specs.WorldState.{Outside, Source};

use crate::filling::put_text;
use crate::job::{Job, fault_of};
use awk_values::{Bytes, Fault, Value};
use host_arrays::Arrays;
use host_handles::Handles;
use host_texts::{NamedText, Names, Texts};
use host_values::Iterators;
use smallvec::SmallVec;
use std::alloc::{AllocError, Global};
use std::hash::RandomState;

/// All tables of the host but those of open files and of the main input, as a job begins with them.
#[derive(Drop)]
pub struct FirstTables {
    pub handles: Handles,
    pub arrays: Arrays,
    pub iterators: Iterators,
    pub texts: Texts,
    pub names: Names,
    /// The argument list.
    pub arguments: SmallVec<Value, 8>,
    /// The fault that is kept.
    pub fault: Option<Fault>,
}

/// The same text, which is shared.
fn copied(text: &Bytes) -> Result<Bytes, AllocError>
    ensures { IfOk result (λ copy. copy ≡ text.now) }
{
    text.clone()
}

/// The same pairs, whose texts are shared.
fn copied_pairs(alloc: Global, pairs: &[NamedText]) -> Result<Vec<NamedText>, AllocError>
    ensures { IfOk result (λ copy. copy.items ≡ pairs.now) }
{
    let mut copy = Vec::new(alloc);
    for pair in pairs {
        let name = copied(&pair.name)?;
        let text = copied(&pair.text)?;
        copy.push(NamedText { name, text })?;
    }
    Ok(copy)
}

/// ARGV: the name of awk, and the operands by their numbers.
fn fill_argv(alloc: Global, arrays: &mut Arrays, operands: &[Bytes]) -> Result<(), AllocError>
    requires { maps.contains_key arrays.old (pos 0) ≡ true }
    ensures { OnOk result (arrays.new
        ≡ maps.insert arrays.old (pos 0) (arguments_from 0 (codes "awk" ∷ operands.now))) }
{
    arrays.clear(Arrays::ARGV);
    let awk = Bytes::from_slice(alloc, b"awk")?;
    put_text(arrays, Arrays::ARGV, 0, awk)?;
    for (at, operand) in operands.iter().enumerate() {
        let text = copied(operand)?;
        put_text(arrays, Arrays::ARGV, at + 1, text)?;
    }
    Ok(())
}

/// ENVIRON: a later pair replaces an earlier one of its name.
fn fill_environ(arrays: &mut Arrays, environment: &[NamedText]) -> Result<(), AllocError>
    requires { maps.contains_key arrays.old (pos 1) ≡ true }
    ensures { OnOk result (arrays.new
        ≡ maps.insert arrays.old (pos 1) (environment_in [] (map pair_of environment.now))) }
{
    arrays.clear(Arrays::ENVIRON);
    for pair in environment {
        let text = copied(&pair.text)?;
        match arrays.set(
            Arrays::ENVIRON,
            pair.name.as_slice(),
            Value::StrNum(text),
            0,
        ) {
            Ok(()) => {}
            Err(_) => return Err(AllocError),
        }
    }
    Ok(())
}

/// The arrays at the start.
fn first_arrays(alloc: Global, job: &Job, state: RandomState) -> Result<Arrays, AllocError>
    ensures { IfOk result (λ arrays. arrays ≡ argv_and_environ (job_of job.now)) }
{
    let mut arrays = Arrays::new(alloc, state)?;
    fill_argv(alloc, &mut arrays, job.operands.as_slice())?;
    fill_environ(&mut arrays, job.environment.as_slice())?;
    Ok(arrays)
}

impl FirstTables {
    /// The tables before a script runs. The keys of arrays and the names of the script are hashed by the state; no answer depends on it.
    ///
    /// # Errors
    ///
    /// There is no memory.
    pub fn at_start(alloc: Global, job: &Job, state: RandomState) -> Result<FirstTables, AllocError>
        ensures stands { IfOk result (λ t. (input : Source) (outside : Outside) (coming : Coming)
            → Stands (form_of t (shared_at_start (job_of job.now) input outside) coming)
            (state_at_start (job_of job.now) input outside)) }
        ensures values { IfOk result (λ t. maps.get t.handles reserved_handle ≡ None) }
        ensures arrays { IfOk result (λ t. maps.get t.arrays reserved_handle ≡ None) }
        ensures iterators { IfOk result (λ t. maps.get t.iterators reserved_handle ≡ None) }
    {
        let fault = fault_of(job);
        let Ok(operands) = u32::try_from(job.operands.len()) else {
            return Err(AllocError);
        };
        let assigns = copied_pairs(alloc, job.assigns.as_slice())?;
        let arrays = first_arrays(alloc, job, state)?;
        let texts = Texts::at_start(alloc, operands)?;
        Ok(FirstTables {
            handles: Handles::new(alloc),
            arrays,
            iterators: Iterators::new(alloc),
            texts,
            names: Names::at_start(alloc, assigns, state),
            arguments: SmallVec::new(alloc),
            fault,
        })
    }
}
