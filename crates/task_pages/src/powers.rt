//! What a module may read and write, by its imports.
ghost use Rattle.std.specs.Prelude.{◌≡◌};
ghost use Rattle.std.specs.List.{list_any};
ghost use Rattle.host_step.specs.Worlds.{reads_main};
ghost use Rattle.task_pages.specs.Powers.{reads_named, reads_of, sets_elements, writes, writes_of};

use host_imports::{Import, VariadicImport};
use sem_primitives::Primitive;

/// What a module may read.
#[derive(Clone, Copy, Drop)]
pub enum Reads {
    /// It reads nothing: no file and no standard input.
    Nothing,
    /// It reads the operands and the standard input, and no file beside.
    Operands,
    /// It may make names of files, and read them.
    AnyName,
}

/// What a module may write.
#[derive(Clone, Copy, Drop)]
pub enum Writes {
    /// It writes nothing, and opens no file for writing.
    Nothing,
    /// It may write to the standard output, and to files whose names it makes.
    AnyName,
}

/// Whether a call reads the main input: operands, or the standard input.
fn reads_main(import: Import) -> bool
    ensures { result ≡ reads_main import }
{
    matches!(
        import,
        Import::OfPrimitive(Primitive::NextMain | Primitive::Getline | Primitive::GetlineVar)
    )
}

/// Whether a call reads a file of a name that the module gives.
fn reads_named(import: Import) -> bool
    ensures { result ≡ reads_named import }
{
    matches!(
        import,
        Import::OfPrimitive(Primitive::GetlineFile | Primitive::GetlineVarFile)
    )
}

/// Whether a call gives an element of an array a value, so that ARGV may get operands that the command line does not have.
fn sets_elements(import: Import) -> bool
    ensures { result ≡ sets_elements import }
{
    matches!(
        import,
        Import::OfPrimitive(Primitive::SetElem | Primitive::Split)
    )
}

/// Whether a call writes.
fn can_write(import: Import) -> bool
    ensures { result ≡ writes import }
{
    matches!(
        import,
        Import::Variadic(VariadicImport::Print | VariadicImport::Printf)
    )
}

fn any_reads_main(imports: &[Import]) -> bool
    ensures { result ≡ list_any reads_main imports.now }
{
    imports.iter().any(|import| reads_main(*import))
}

fn any_reads_named(imports: &[Import]) -> bool
    ensures { result ≡ list_any reads_named imports.now }
{
    imports.iter().any(|import| reads_named(*import))
}

fn any_sets_elements(imports: &[Import]) -> bool
    ensures { result ≡ list_any sets_elements imports.now }
{
    imports.iter().any(|import| sets_elements(*import))
}

fn any_writes(imports: &[Import]) -> bool
    ensures { result ≡ list_any writes imports.now }
{
    imports.iter().any(|import| can_write(*import))
}

/// What a module with these imports may read. Operands are named by the command line alone where no call sets an element of an array: `set_elem` and
/// `split` may give ARGV others.
pub fn reads_of(imports: &[Import]) -> Reads
    ensures { result ≡ reads_of imports.now }
{
    if any_reads_named(imports) {
        Reads::AnyName
    } else if !any_reads_main(imports) {
        Reads::Nothing
    } else if any_sets_elements(imports) {
        Reads::AnyName
    } else {
        Reads::Operands
    }
}

/// What a module with these imports may write. Where to is an argument of `print` and `printf`, so that imports alone do not tell the standard output from
/// files.
pub fn writes_of(imports: &[Import]) -> Writes
    ensures { result ≡ writes_of imports.now }
{
    if any_writes(imports) {
        Writes::AnyName
    } else {
        Writes::Nothing
    }
}
