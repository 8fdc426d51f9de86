//! What is told of each refusal of a script or a module.
ghost use Rattle.std.specs.Prelude.{◌≡◌};
ghost use Rattle.run_report.specs.EndTexts.{compile_words, decode_words, ere_words, feature_word, invalid_words, left_out_word, link_words, parse_words, refusal_words, resolve_words, token_words, trap_word};
ghost use Rattle.run_report.specs.Parts.{words_of};

use crate::compile_fault::CompileFault;
use crate::end::Refusal;
use crate::line::{Part, Told};
use awk_parse::{Feature, ParseFault};
use awk_resolve::ResolveFault;
use awk_tokens::{LeftOut, TokenFault};
use ere_syntax::EreFault;
use module_decoder::DecodeFault;
use module_validator::InvalidFault;
use wasm_model::LinkFault;
use wasm_store::TrapKind;

fn token_words(fault: &TokenFault) -> Told<'_>
    ensures { words_of result ≡ token_words fault.now }
{
    match fault {
        TokenFault::BadByte(line) => Told::numbered("BadByte", *line),
        TokenFault::OpenString(line) => Told::numbered("OpenString", *line),
        TokenFault::OpenEre(line) => Told::numbered("OpenEre", *line),
        TokenFault::NoMemory => Told::alone("NoMemory"),
    }
}

fn left_out_word(word: LeftOut) -> &'static str
    ensures { result.now ≡ left_out_word word }
{
    match word {
        LeftOut::Atan2 => "atan2",
        LeftOut::Cos => "cos",
        LeftOut::Sin => "sin",
        LeftOut::Exp => "exp",
        LeftOut::Log => "log",
        LeftOut::Sqrt => "sqrt",
        LeftOut::Rand => "rand",
        LeftOut::Srand => "srand",
        LeftOut::System => "system",
        LeftOut::Func => "func",
    }
}

fn feature_word(feature: &Feature) -> &'static str
    ensures { result.now ≡ feature_word feature.now }
{
    match feature {
        Feature::Word(word) => left_out_word(*word),
        Feature::Pipe => "pipe",
    }
}

fn parse_words(fault: &ParseFault) -> Told<'_>
    ensures { words_of result ≡ parse_words fault.now }
{
    match fault {
        ParseFault::LeftOut(line, feature) => Told::with_both(
            "LeftOut",
            Part::Number(*line),
            Part::Word(feature_word(feature)),
        ),
        ParseFault::NotWhole(line) => Told::numbered("NotWhole", *line),
        ParseFault::ConstantRange(line) => Told::numbered("ConstantRange", *line),
        ParseFault::Syntax(line) => Told::numbered("Syntax", *line),
        ParseFault::TooDeep(line) => Told::numbered("TooDeep", *line),
        ParseFault::Misplaced(line) => Told::numbered("Misplaced", *line),
        ParseFault::NoMemory => Told::alone("NoMemory"),
    }
}

/// What is told of an expression on this line of the script.
fn ere_words(line: usize, fault: &EreFault) -> Told<'static>
    ensures { words_of result ≡ ere_words line fault.now }
{
    match fault {
        EreFault::BadEre(place) => Told::with_both(
            "BadEre",
            Part::Number(line),
            Part::Number(*place),
        ),
        EreFault::EreTooLarge => Told::numbered("EreTooLarge", line),
        EreFault::NoMemory => Told::alone("NoMemory"),
    }
}

fn resolve_words(fault: &ResolveFault) -> Told<'_>
    ensures { words_of result ≡ resolve_words fault.now }
{
    match fault {
        ResolveFault::TooMany(name) => Told::named("TooMany", name.as_slice()),
        ResolveFault::DuplicateName(name) => Told::named("DuplicateName", name.as_slice()),
        ResolveFault::UnknownFunction(name) => Told::named("UnknownFunction", name.as_slice()),
        ResolveFault::ArgCount(name) => Told::named("ArgCount", name.as_slice()),
        ResolveFault::KindClash(name) => Told::named("KindClash", name.as_slice()),
        ResolveFault::NoMemory => Told::alone("NoMemory"),
    }
}

fn compile_words(fault: &CompileFault) -> Told<'_>
    ensures { words_of result ≡ compile_words fault.now }
{
    match fault {
        CompileFault::TooLarge => Told::alone("TooLarge"),
        CompileFault::Token(fault) => token_words(fault),
        CompileFault::Parse(fault) => parse_words(fault),
        CompileFault::Ere(line, fault) => ere_words(*line, fault),
        CompileFault::Resolve(fault) => resolve_words(fault),
        CompileFault::NoMemory => Told::alone("NoMemory"),
    }
}

fn decode_words(fault: &DecodeFault) -> Told<'_>
    ensures { words_of result ≡ decode_words fault.now }
{
    match fault {
        DecodeFault::BadHeader => Told::alone("BadHeader"),
        DecodeFault::Truncated(length) => Told::numbered("Truncated", *length),
        DecodeFault::BadSection(place) => Told::numbered("BadSection", *place),
        DecodeFault::BadInteger(place) => Told::numbered("BadInteger", *place),
        DecodeFault::BadOpcode(place) => Told::numbered("BadOpcode", *place),
        DecodeFault::Float(place) => Told::numbered("Float", *place),
        DecodeFault::TooLarge => Told::alone("TooLarge"),
        DecodeFault::NoMemory => Told::alone("NoMemory"),
    }
}

fn invalid_words(fault: &InvalidFault) -> Told<'_>
    ensures { words_of result ≡ invalid_words fault.now }
{
    match fault {
        InvalidFault::BadIndex(function) => Told::numbered("BadIndex", *function),
        InvalidFault::BadType(function) => Told::numbered("BadType", *function),
        InvalidFault::BadAlign(function) => Told::numbered("BadAlign", *function),
        InvalidFault::BadModule => Told::alone("BadModule"),
        InvalidFault::NoMemory => Told::alone("NoMemory"),
    }
}

fn link_words(fault: &LinkFault) -> Told<'_>
    ensures { words_of result ≡ link_words fault.now }
{
    match fault {
        LinkFault::NoMain => Told::alone("NoMain"),
        LinkFault::BadImport(import) => Told::numbered("BadImport", *import),
        LinkFault::SegmentBounds => Told::alone("SegmentBounds"),
        LinkFault::NoMemory => Told::alone("NoMemory"),
    }
}

pub(crate) fn refusal_words(refusal: &Refusal) -> Told<'_>
    ensures { words_of result ≡ refusal_words refusal.now }
{
    match refusal {
        Refusal::Compile(fault) => compile_words(fault),
        Refusal::Decode(fault) => decode_words(fault),
        Refusal::Invalid(fault) => invalid_words(fault),
        Refusal::Link(fault) => link_words(fault),
    }
}

pub(crate) fn trap_word(kind: &TrapKind) -> &'static str
    ensures { result.now ≡ trap_word kind.now }
{
    match kind {
        TrapKind::Unreachable => "Unreachable",
        TrapKind::DivideByZero => "DivideByZero",
        TrapKind::IntegerOverflow => "IntegerOverflow",
        TrapKind::MemoryBounds => "MemoryBounds",
        TrapKind::TableBounds => "TableBounds",
        TrapKind::EmptyElement => "EmptyElement",
        TrapKind::WrongType => "WrongType",
        TrapKind::BadHandle => "BadHandle",
        TrapKind::BadPointer => "BadPointer",
        TrapKind::BadArgument => "BadArgument",
    }
}
