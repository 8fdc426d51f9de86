//! Rows: what is run, on what, and what is shown of it.
use crate::outside::{Outside, count_of, pair_of, push_times};
use awk_text::unescape;
use awk_values::Bytes;
use command_line::FenceOptions;
use hex::{FromHexError, decode};
use host_calls::{Job, NamedText};
use std::alloc::{AllocError, Global};

/// A script or a module, what it is run on, and what is shown of the run.
#[derive(Drop)]
pub(crate) struct Row {
    pub(crate) code: Vec<u8>,
    pub(crate) is_module: bool,
    pub(crate) job: Job,
    pub(crate) outside: Outside,
    /// How many steps are taken at most.
    pub(crate) steps: u64,
    /// Which files are kept out.
    pub(crate) fences: FenceOptions,
    /// The files that are shown.
    pub(crate) shown: Vec<Vec<u8>>,
    /// What the output may be, again and again.
    pub(crate) again: Option<Vec<u8>>,
    pub(crate) shows_beginnings: bool,
    /// Whether a line says what is alive where the script has ended.
    pub(crate) shows_alive: bool,
    /// Whether each call of the world fails, one in each run.
    pub(crate) fails_in_turn: bool,
    /// The row's name, which comes before its answers.
    pub(crate) name: Vec<u8>,
}

/// The bytes of a field; none where there is no field.
fn bytes_of(alloc: Global, field: Option<&str>) -> Result<Vec<u8>, AllocError> {
    unescape(alloc, field.unwrap_or("").as_bytes())
}

/// The bytes of hexadecimal digits; none of another text.
fn module_of(alloc: Global, digits: &str) -> Result<Vec<u8>, AllocError> {
    match decode(alloc, digits) {
        Ok(bytes) => Ok(bytes),
        Err(FromHexError::OutOfMemory) => Err(AllocError),
        Err(_) => Ok(Vec::new(alloc)),
    }
}

/// A text that is passed to a script.
fn push_bytes(alloc: Global, texts: &mut Vec<Bytes>, text: &[u8]) -> Result<(), AllocError> {
    let text = Bytes::from_slice(alloc, text)?;
    texts.push(text)?;
    Ok(())
}

/// A name and a text, with `=` between them.
fn push_named(alloc: Global, pairs: &mut Vec<NamedText>, field: &[u8]) -> Result<(), AllocError> {
    let (name, text) = pair_of(field);
    let name = Bytes::from_slice(alloc, name)?;
    let text = Bytes::from_slice(alloc, text)?;
    pairs.push(NamedText { name, text })?;
    Ok(())
}

/// Adds a file's name to those that are shown.
fn push_name(alloc: Global, names: &mut Vec<Vec<u8>>, name: &[u8]) -> Result<(), AllocError> {
    let name = Vec::from_slice(alloc, name)?;
    names.push(name)?;
    Ok(())
}

/// Sets an option that keeps files out.
fn keep_out(fences: &mut FenceOptions, option: &[u8]) {
    match option {
        b"no-files" => fences.no_files = true,
        b"read-only" => fences.read_only = true,
        b"only-operands" => fences.only_operands = true,
        _ => {}
    }
}

impl Row {
    /// Sets what is shown of the run.
    fn set(&mut self, alloc: Global, letter: u8, text: &[u8]) -> Result<(), AllocError> {
        match letter {
            b's' => self.steps = count_of(text),
            b'b' => self.shows_beginnings = true,
            b'h' => self.shows_alive = true,
            b'd' => self.fails_in_turn = true,
            b't' => self.name = Vec::from_slice(alloc, text)?,
            b'k' => keep_out(&mut self.fences, text),
            b'u' => self.again = Some(Vec::from_slice(alloc, text)?),
            _ => {}
        }
        Ok(())
    }

    /// Adds what a field of this letter says.
    fn add(&mut self, alloc: Global, letter: u8, text: &[u8]) -> Result<(), AllocError> {
        match letter {
            b'o' => push_bytes(alloc, &mut self.job.operands, text),
            b'v' => push_named(alloc, &mut self.job.assigns, text),
            b'e' => push_named(alloc, &mut self.job.environment, text),
            b'l' => push_name(alloc, &mut self.shown, text),
            b'p' => push_times(&mut self.code, text),
            b's' | b'b' | b'd' | b'h' | b't' | b'k' | b'u' => self.set(alloc, letter, text),
            _ => self.outside.add(alloc, letter, text),
        }
    }

    /// Adds what a field says.
    fn add_field(&mut self, alloc: Global, field: &str) -> Result<(), AllocError> {
        let field = unescape(alloc, field.as_bytes())?;
        match field.as_slice() {
            [letter, b':', text @ ..] => self.add(alloc, *letter, text),
            _ => Ok(()),
        }
    }
}

/// What a line's first field writes, whether it is a module, and the input.
fn row_on(alloc: Global, code: Option<&str>, input: Option<&str>) -> Result<Row, AllocError> {
    let digits = code.unwrap_or("").strip_prefix("module:");
    let input = bytes_of(alloc, input)?;
    Ok(Row {
        code: match digits {
            Some(digits) => module_of(alloc, digits)?,
            None => bytes_of(alloc, code)?,
        },
        is_module: digits.is_some(),
        job: Job::empty(alloc),
        outside: Outside::new(alloc, input),
        steps: u64::MAX,
        fences: FenceOptions {
            no_files: false,
            read_only: false,
            only_operands: false,
        },
        shown: Vec::new(alloc),
        again: None,
        shows_beginnings: false,
        shows_alive: false,
        fails_in_turn: false,
        name: Vec::new(alloc),
    })
}

/// The row that a line writes.
pub(crate) fn row_of(alloc: Global, line: &str) -> Result<Row, AllocError> {
    let mut fields = line.split('\t');
    let code = fields.next();
    let input = fields.next();
    let mut row = row_on(alloc, code, input)?;
    for field in fields {
        row.add_field(alloc, field)?;
    }
    Ok(row)
}
