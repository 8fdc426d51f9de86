//! What a script or a module is run with: operands, assignments and the environment.
ghost use Rattle.std.specs.Prelude.{◌≡◌, ◌++◌, IfOk, OnOk, map};
ghost use Rattle.task_pages.specs.Jobs.{assignment, job_of_task, separator};
ghost use Rattle.command_line.specs.Request.{texts};
ghost use Rattle.host_texts.specs.NameForms.{pair_of};
ghost use Rattle.host_tables.specs.Starts.{job_of};

use awk_values::Bytes;
use command_line::Task;
use host_tables::Job;
use host_texts::NamedText;
use std::alloc::{AllocError, Global};

/// The words, as operands.
fn operands_of(alloc: Global, words: &[&str]) -> Result<Vec<Bytes>, AllocError>
    ensures { IfOk result (λ operands. operands.items ≡ texts words.now) }
{
    let mut operands = Vec::new(alloc);
    for word in words {
        operands.push(Bytes::from_slice(alloc, word.as_bytes())?)?;
    }
    Ok(operands)
}

/// A name and a text, as bytes.
///
/// # Errors
///
/// Where memory is wanting.
pub fn named_text(alloc: Global, name: &str, text: &str) -> Result<NamedText, AllocError>
    ensures { IfOk result (λ pair. pair_of pair ≡ (name.now, text.now)) }
{
    Ok(NamedText {
        name: Bytes::from_slice(alloc, name.as_bytes())?,
        text: Bytes::from_slice(alloc, text.as_bytes())?,
    })
}

/// A word of `-v`, as a name and a text. The name is empty where the word has no `=`.
fn assignment(word: &str) -> (&str, &str)
    ensures { (result.0.now, result.1.now) ≡ assignment word.now }
{
    match word.split_once('=') {
        Some((name, text)) => (name, text),
        None => ("", word),
    }
}

/// The assignments of every `-v`.
fn assigns_of(alloc: Global, words: &[&str]) -> Result<Vec<NamedText>, AllocError>
    ensures { IfOk result (λ pairs. map pair_of pairs.items ≡ map assignment (texts words.now)) }
{
    let mut pairs = Vec::new(alloc);
    for word in words {
        let (name, text) = assignment(word);
        pairs.push(named_text(alloc, name, text)?)?;
    }
    Ok(pairs)
}

/// Adds an assignment to FS for every `-F`.
fn push_separators(
    alloc: Global,
    pairs: &mut Vec<NamedText>,
    words: &[&str],
) -> Result<(), AllocError>
    ensures { OnOk result
        (map pair_of pairs.new.items
        ≡ map pair_of pairs.old.items ++ map separator (texts words.now)) }
{
    for word in words {
        pairs.push(named_text(alloc, "FS", word)?)?;
    }
    Ok(())
}

/// The job of a task in an environment: its words are the operands; every `-v` is an assignment, and then every `-F` is one to FS.
///
/// # Errors
///
/// Where memory is wanting.
pub fn job_on(
    alloc: Global,
    task: &Task<'_>,
    environment: Vec<NamedText>,
) -> Result<Job, AllocError>
    ensures { IfOk result
        (λ job. job_of job ≡ job_of_task task.now (map pair_of environment.items)) }
{
    let mut assigns = assigns_of(alloc, &task.assigns)?;
    push_separators(alloc, &mut assigns, &task.separators)?;
    Ok(Job {
        operands: operands_of(alloc, &task.words)?,
        assigns,
        environment,
    })
}
